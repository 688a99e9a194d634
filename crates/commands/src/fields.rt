// The fields of a line, read one after the other.
use super::trouble::{Fault, Trouble, Wanted};
use groups::rules::GroupRefused;
use groups::tabled::Tabled;
use lattice::vectors::Vectors;
use plane::cell::Cell;
use plane::rectangle::Rectangle;

// The fields that are still to be read, and how many have been.
#[derive(Drop)]
pub struct Fields<'a> {
    pub rest: Option<&'a str>,
    pub read: u64,
}

// The words that have a meaning of their own.
#[derive(Clone, Copy, PartialEq, Eq)]
pub enum Word {
    Make,
    Fold,
    Reduce,
    Classes,
    Card,
    Cells,
    Help,
    Symmetry,
    Canvas,
    Palette,
    Open,
    Dot,
    Line,
    Show,
    Window,
    Close,
    Quote,
    Tabled,
    Oblique,
    Shift,
    Recast,
    Counterchange,
    Colon,
    Sparse,
    Bytes,
    Other,
}

// Where a window goes: to a file, or, with so many bytes of the palette, to an output.
#[derive(Clone, Copy)]
pub enum Target {
    File,
    Palette(usize),
}

// Reading a field as what it has to be.
pub trait Read {
    // The next field, if there is one.
    fn word(&mut self) -> Option<Word>;
    // The next field, which has to be there.
    fn wanted(&mut self, wanted: Wanted) -> Result<Word, Trouble>;

    fn number(&mut self) -> Result<i64, Trouble>;

    fn short_number(&mut self) -> Result<i32, Trouble>;

    fn ink(&mut self) -> Result<u8, Trouble>;

    fn size(&mut self) -> Result<usize, Trouble>;

    fn cell(&mut self) -> Result<Cell, Trouble>;

    fn rectangle(&mut self) -> Result<Rectangle, Trouble>;

    fn vectors(&mut self) -> Result<Vectors, Trouble>;
    // A symbol and two periods.
    fn group(&mut self) -> Result<Result<Tabled, GroupRefused>, Trouble>;

    fn palette(&mut self) -> Result<[u8; 48], Trouble>;

    fn target(&mut self) -> Result<Target, Trouble>;

    fn output(&mut self) -> Result<usize, Trouble>;
    // What is wrong with the field that was read last, or with the one after it.
    fn trouble(&self, what: Fault) -> Trouble;

    fn missing(&self, wanted: Wanted) -> Trouble;
}

fn memory_word(text: &str) -> Word {
    match text {
        "sparse" => Word::Sparse,
        "bytes" => Word::Bytes,
        _ => Word::Other,
    }
}

fn call_word(text: &str) -> Word {
    match text {
        "symmetry" => Word::Symmetry,
        "canvas" => Word::Canvas,
        "palette" => Word::Palette,
        "open" => Word::Open,
        "dot" => Word::Dot,
        "line" => Word::Line,
        "show" => Word::Show,
        "window" => Word::Window,
        "close" => Word::Close,
        "quote" => Word::Quote,
        text => memory_word(text),
    }
}

fn question_word(text: &str) -> Word {
    match text {
        "make" => Word::Make,
        "fold" => Word::Fold,
        "reduce" => Word::Reduce,
        "classes" => Word::Classes,
        "card" => Word::Card,
        "cells" => Word::Cells,
        "help" => Word::Help,
        text => call_word(text),
    }
}

fn word_of(text: &str) -> Word {
    match text {
        "T" => Word::Tabled,
        "O" => Word::Oblique,
        "S" => Word::Shift,
        "R" => Word::Recast,
        "C" => Word::Counterchange,
        ":" => Word::Colon,
        text => question_word(text),
    }
}

// A whole number: an optional minus, and digits.
fn number(text: &str) -> Option<i64> {
    if text.starts_with('+') {
        return None;
    }
    text.parse::<i64>().ok()
}

// A whole number that its type takes.
fn whole<T: TryFrom<i64>>(text: &str) -> Option<T>
where
    T::Error: Drop,
{
    T::try_from(number(text)?).ok()
}

// A number from 0 to 1,000,000.
fn size(text: &str) -> Option<usize> {
    whole::<usize>(text).filter(|n| *n <= 1_000_000)
}

// The byte that two hexadecimal digits spell.
fn byte(high: u8, low: u8) -> Option<u8> {
    let high = char::from(high).to_digit(16)?;
    let low = char::from(low).to_digit(16)?;
    u8::try_from(high << 4 | low).ok()
}

// The bytes that 96 hexadecimal digits spell.
fn palette(text: &str) -> Option<[u8; 48]> {
    let digits = text.as_bytes();
    if digits.len() != 96 {
        return None;
    }
    let mut bytes = [0; 48];
    for (spelled, pair) in bytes.iter_mut().zip(digits.chunks_exact(2)) {
        *spelled = byte(pair[0], pair[1])?;
    }
    Some(bytes)
}

// A file's name, or the length of a palette.
fn where_to(text: &str) -> Option<Target> {
    match text.strip_prefix("palette=") {
        Some(digits) => Some(Target::Palette(size(digits)?)),
        None if text.is_empty() => None,
        None => Some(Target::File),
    }
}

// The length of an output.
fn output(text: &str) -> Option<usize> {
    size(text.strip_prefix("output=")?)
}

impl<'a> Fields<'a> {
    fn next(&mut self) -> Option<&'a str> {
        let line = self.rest?;
        self.read = self.read.saturating_add(1);
        match line.split_once(' ') {
            Some((field, rest)) => {
                self.rest = Some(rest);
                Some(field)
            }
            None => {
                self.rest = None;
                Some(line)
            }
        }
    }

    fn text(&mut self, wanted: Wanted) -> Result<&'a str, Trouble> {
        self.next().ok_or_else(|| self.missing(wanted))
    }

    // The next field, read as what it has to be.
    fn read<T, F: FnOnce(&str) -> Option<T> + Drop>(
        &mut self,
        wanted: Wanted,
        parse: F,
    ) -> Result<T, Trouble>
        requires { F.IsAlwaysCallable parse }
    {
        let text = self.text(wanted)?;
        parse(text).ok_or_else(|| self.trouble(Fault::Other(wanted)))
    }
}

impl Read for Fields<'_> {
    fn word(&mut self) -> Option<Word> {
        let text = self.next()?;
        Some(word_of(text))
    }

    fn wanted(&mut self, wanted: Wanted) -> Result<Word, Trouble> {
        let text = self.text(wanted)?;
        Ok(word_of(text))
    }

    fn number(&mut self) -> Result<i64, Trouble> {
        self.read(Wanted::Number, number)
    }

    fn short_number(&mut self) -> Result<i32, Trouble> {
        self.read(Wanted::ShortNumber, whole::<i32>)
    }

    fn ink(&mut self) -> Result<u8, Trouble> {
        self.read(Wanted::Ink, whole::<u8>)
    }

    fn size(&mut self) -> Result<usize, Trouble> {
        self.read(Wanted::Size, size)
    }

    fn cell(&mut self) -> Result<Cell, Trouble> {
        let x = self.number()?;
        let y = self.number()?;
        Ok(Cell { x, y })
    }

    fn rectangle(&mut self) -> Result<Rectangle, Trouble> {
        Ok(Rectangle {
            corner: self.cell()?,
            width: self.number()?,
            height: self.number()?,
        })
    }

    fn vectors(&mut self) -> Result<Vectors, Trouble> {
        Ok(Vectors {
            ax: self.number()?,
            ay: self.number()?,
            bx: self.number()?,
            by: self.number()?,
        })
    }

    fn group(&mut self) -> Result<Result<Tabled, GroupRefused>, Trouble> {
        let symbol = self.text(Wanted::Symbol)?;
        let p = self.number()?;
        let q = self.number()?;
        Ok(Tabled::named(symbol, p, q))
    }

    fn palette(&mut self) -> Result<[u8; 48], Trouble> {
        self.read(Wanted::Palette, palette)
    }

    fn target(&mut self) -> Result<Target, Trouble> {
        self.read(Wanted::Target, where_to)
    }

    fn output(&mut self) -> Result<usize, Trouble> {
        self.read(Wanted::Output, output)
    }

    fn trouble(&self, what: Fault) -> Trouble {
        Trouble {
            field: self.read,
            what,
        }
    }

    fn missing(&self, wanted: Wanted) -> Trouble {
        Trouble {
            field: self.read.saturating_add(1),
            what: Fault::Missing(wanted),
        }
    }
}

// What a line asks for.
use super::call::{Call, ReadCall};
use super::fields::{Fields, Read, Word};
use super::memory::Memory;
use super::symmetry::{Description, End, ReadSymmetry};
use super::trouble::{Fault, Trouble, Wanted};
use groups::rules::GroupRefused;
use groups::tabled::Tabled;
use lattice::vectors::Vectors;
use plane::cell::Cell;
use plane::rectangle::Rectangle;
use std::alloc::Global;

// A symmetry that is refused is asked for all the same: the refusal is the answer.
#[derive(Drop)]
pub enum Command {
    // An empty line or a remark.
    Nothing,
    Question(Question),
    Setting(Setting),
    // A call on the sheet that was opened last.
    Call(Call),
}

// Questions that no sheet is needed for.
#[derive(Drop)]
pub enum Question {
    Make(Description),
    Fold(Description, Cell),
    Reduce(Vectors),
    Classes(Description, Rectangle),
    Card(Result<Tabled, GroupRefused>),
    Cells { from: Cell, to: Cell },
    Help,
}

// What a sheet is drawn with, and its opening.
#[derive(Drop)]
pub enum Setting {
    Symmetry(Description),
    Canvas(Memory),
    Palette([u8; 48]),
    Open,
}

// Commands are read from lines, with memory for what a line lists.
pub trait ReadLine: Sized {
    fn read_line(heap: Global, line: &str) -> Result<Self, Trouble>;
}

fn read_classes(fields: &mut Fields, heap: Global) -> Result<Question, Trouble> {
    let symmetry = fields.symmetry(heap, End::Colon)?;
    let rectangle = fields.rectangle()?;
    Ok(Question::Classes(symmetry, rectangle))
}

fn read_fold(fields: &mut Fields, heap: Global) -> Result<Question, Trouble> {
    let symmetry = fields.symmetry(heap, End::Colon)?;
    let at = fields.cell()?;
    Ok(Question::Fold(symmetry, at))
}

fn read_cells(fields: &mut Fields) -> Result<Question, Trouble> {
    let from = fields.cell()?;
    let to = fields.cell()?;
    Ok(Question::Cells { from, to })
}

fn read_question(fields: &mut Fields, heap: Global, word: Word) -> Result<Question, Trouble> {
    match word {
        Word::Make => Ok(Question::Make(fields.symmetry(heap, End::Line)?)),
        Word::Fold => read_fold(fields, heap),
        Word::Reduce => Ok(Question::Reduce(fields.vectors()?)),
        Word::Classes => read_classes(fields, heap),
        Word::Card => Ok(Question::Card(fields.group()?)),
        Word::Cells => read_cells(fields),
        Word::Help => Ok(Question::Help),
        _ => Err(fields.trouble(Fault::UnknownCommand)),
    }
}

fn read_memory(fields: &mut Fields) -> Result<Memory, Trouble> {
    match fields.wanted(Wanted::Memory)? {
        Word::Sparse => Ok(Memory::Records(fields.size()?)),
        Word::Bytes => Ok(Memory::Bytes {
            bytes: fields.size()?,
            width: fields.number()?,
            corner_x: fields.short_number()?,
            corner_y: fields.short_number()?,
        }),
        _ => Err(fields.trouble(Fault::Other(Wanted::Memory))),
    }
}

fn read_command(fields: &mut Fields, heap: Global) -> Result<Command, Trouble> {
    match fields.wanted(Wanted::Command)? {
        Word::Symmetry => Ok(Command::Setting(Setting::Symmetry(fields.symmetry(
            heap,
            End::Line,
        )?))),
        Word::Canvas => Ok(Command::Setting(Setting::Canvas(read_memory(fields)?))),
        Word::Palette => Ok(Command::Setting(Setting::Palette(fields.palette()?))),
        Word::Open => Ok(Command::Setting(Setting::Open)),
        Word::Dot => Ok(Command::Call(fields.dot()?)),
        Word::Line => Ok(Command::Call(fields.line()?)),
        Word::Show => Ok(Command::Call(fields.show()?)),
        Word::Window => Ok(Command::Call(fields.window()?)),
        Word::Close => Ok(Command::Call(Call::Close)),
        Word::Quote => Ok(Command::Call(Call::Quote)),
        word => Ok(Command::Question(read_question(fields, heap, word)?)),
    }
}

impl ReadLine for Command {
    fn read_line(heap: Global, line: &str) -> Result<Command, Trouble> {
        if line.is_empty() || line.starts_with('#') {
            return Ok(Command::Nothing);
        }
        let mut fields = Fields {
            rest: Some(line),
            read: 0,
        };
        let command = read_command(&mut fields, heap)?;
        match fields.word() {
            None => Ok(command),
            Some(_) => Err(fields.trouble(Fault::Surplus)),
        }
    }
}

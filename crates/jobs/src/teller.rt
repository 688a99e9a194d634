// Printing lines with their answers.
use super::line::Line;
use super::record::{OutOfTurn, Sight, Target};
use commands::command::{Command, ReadLine};
use history::calls::Answer;
use replies::printer::{Print, Printer};
use replies::refusal::{Numbered, Refusal};
use replies::tally::Count;
use sheet::refusal::StrokeStopped;
use sheet::sheet::Quote;
use std::{fmt, fs, io};

// What a catalogue card is headed by: a plane group's symbol and periods, or the description of another symmetry.
#[derive(Clone, Copy)]
pub enum Heading<'a> {
    Group { symbol: &'a str, p: u32, q: u32 },
    Description(&'a str),
}

// Prints the lines of a sheet as well.
#[derive(Drop)]
pub struct Teller<'r> {
    pub printer: Printer<'r>,
}

// Bytes as hexadecimal digits.
#[derive(Drop)]
struct Hex<'a>(&'a [u8]);

impl fmt::Display for Hex<'_> {
    fn fmt<W: fmt::Write>(&self, f: &mut fmt::Formatter<W>) -> fmt::Result {
        for byte in self.0 {
            let shown = *byte;
            write!(f, "{shown:02x}")?;
        }
        Ok(())
    }
}

// The last field of a line.
fn last_field(text: &str) -> &str {
    text.rsplit_once(' ').map_or(text, |(_, last)| last)
}

impl<'r> Teller<'r> {
    pub(crate) fn out_of_turn(&mut self, line: Line, why: OutOfTurn) -> io::Result<()> {
        let text = line.text();
        self.printer.tally.refused();
        println!(self.printer.rt; "{text} = out of turn: {why}")
    }

    pub(crate) fn no_memory(&mut self, line: Line) -> io::Result<()> {
        let text = line.text();
        self.printer.tally.refused();
        println!(self.printer.rt; "{text} = no memory")
    }

    pub(crate) fn accepted(&mut self, line: Line) -> io::Result<()> {
        let text = line.text();
        self.printer.tally.answered();
        println!(self.printer.rt; "{text}")
    }

    // A refusal by its number, and in words.
    pub(crate) fn refused(&mut self, line: Line, why: Refusal) -> io::Result<()> {
        let Some(number) = why.number() else {
            return self.no_memory(line);
        };
        let text = line.text();
        let place = line.number;
        self.printer.tally.refused();
        println!(self.printer.rt; "{text} = refused {number}")?;
        println!(self.printer.rt; "  line {place}: {why}")
    }

    fn stroked(&mut self, line: Line, answer: Result<u16, StrokeStopped>) -> io::Result<()> {
        let text = line.text();
        match answer {
            Ok(laid) => {
                self.printer.tally.answered();
                println!(self.printer.rt; "{text} = {laid} 0")
            }
            Err(stopped) => {
                self.printer.tally.refused();
                let laid = stopped.laid;
                let number = stopped.refusal.number();
                let why = Refusal::Stroke(stopped.refusal);
                let place = line.number;
                println!(self.printer.rt; "{text} = {laid} {number}")?;
                println!(self.printer.rt; "  line {place}: {why}")
            }
        }
    }

    fn shown(&mut self, line: Line, ink: u8) -> io::Result<()> {
        let text = line.text();
        self.printer.tally.answered();
        println!(self.printer.rt; "{text} = {ink}")
    }

    // A picture, as digits or in the file that is named last on its line.
    fn drawn(&mut self, line: Line, picture: &[u8], target: Target) -> io::Result<()> {
        let text = line.text();
        let size = picture.len();
        if target == Target::Line {
            self.printer.tally.answered();
            let hex = Hex(picture);
            return println!(self.printer.rt; "{text} = ok {size} {hex}");
        }
        let file = last_field(text);
        if fs::write(self.printer.rt, file, picture).is_err() {
            self.printer.tally.refused();
            return println!(self.printer.rt; "{text} = not written {file}");
        }
        self.printer.tally.answered();
        println!(self.printer.rt; "{text} = ok {size} {file}")
    }

    fn head(&self, heading: Heading) -> io::Result<()> {
        match heading {
            Heading::Group { symbol, p, q } => {
                println!(self.printer.rt; "  symbol      {symbol}")?;
                println!(self.printer.rt; "  periods     {p} by {q}")
            }
            Heading::Description(description) => {
                println!(self.printer.rt; "  symmetry    {description}")
            }
        }
    }

    fn quoted(&mut self, line: Line, quote: Quote, heading: Heading) -> io::Result<()> {
        let text = line.text();
        let held = quote.held;
        let strokes = quote.strokes;
        self.printer.tally.answered();
        println!(self.printer.rt; "{text} = {held} {strokes}")?;
        self.head(heading)?;
        println!(self.printer.rt; "  cells       {held}")?;
        println!(self.printer.rt; "  strokes     {strokes}")
    }

    // The answer of a call, with the bytes that it was given.
    pub(crate) fn answered(
        &mut self,
        line: Line,
        answer: Answer,
        sight: Sight,
        output: &[u8],
        heading: Heading,
    ) -> io::Result<()> {
        match answer {
            Answer::Stroked(stroke) => self.stroked(line, stroke),
            Answer::Shown(Ok(ink)) => self.shown(line, ink),
            Answer::Shown(Err(why)) => self.refused(line, Refusal::from(why)),
            Answer::Windowed(Ok(size)) => {
                self.drawn(line, &output[..size.min(output.len())], sight.target)
            }
            Answer::Windowed(Err(why)) => self.refused(line, Refusal::from(why)),
            Answer::Quoted(quote) => self.quoted(line, quote, heading),
        }
    }

    // A line that is neither a call on a sheet nor says what it is drawn with: a question with its answer, or what is wrong with the line.
    pub(crate) fn other(&mut self, line: Line) -> io::Result<()> {
        let Ok(text) = std::str::from_utf8(line.bytes) else {
            return self.printer.no_text(line.number);
        };
        match Command::read_line(self.printer.rt.alloc(), text) {
            Ok(Command::Question(question)) => self.printer.question(text, question),
            Ok(_) => Ok(()),
            Err(trouble) => self.printer.trouble(line.number, trouble),
        }
    }
}

// The record of a sheet: its lines from the opening on, and its calls as a history.
use super::line::Line;
use commands::call::Call;
use history::calls::{Drawing, Drawn, Look, Viewed, Viewing};
use std::alloc::{AllocError, Global};
use std::fmt;

#[derive(Drop)]
pub struct Record<'a> {
    pub lines: Vec<Kept<'a>>,
    pub drawing: Vec<Drawn>,
    // The calls on the closed sheet, once it is closed.
    pub viewing: Option<Vec<Viewed>>,
    // How many bytes the windows are given.
    pub room: usize,
    heap: Global,
}

// A line, and what it is to the sheet.
#[derive(Clone, Copy)]
pub struct Kept<'a> {
    pub line: Line<'a>,
    pub part: Part,
}

#[derive(Clone, Copy)]
pub enum Part {
    // The next call on the open sheet, or on the closed one.
    Drawn(Sight),
    Viewed(Sight),
    Close,
    OutOfTurn(OutOfTurn),
    // No call: it is answered as it would be without a sheet.
    Other,
}

// How many bytes of the output a call is given, and where they go.
#[derive(Clone, Copy)]
pub struct Sight {
    pub room: usize,
    pub target: Target,
}

#[derive(Clone, Copy, PartialEq, Eq)]
pub enum Target {
    Line,
    File,
}

// Why a call is not allowed now.
#[derive(Clone, Copy)]
pub enum OutOfTurn {
    NotReady,
    NoSheet,
    Closed,
    Open,
}

// The sight of a call that is given no bytes.
fn blind() -> Sight {
    Sight {
        room: 0,
        target: Target::Line,
    }
}

impl<'a> Record<'a> {
    // A record of no lines.
    pub(crate) fn begin(heap: Global) -> Record<'a> {
        Record {
            lines: Vec::new(heap),
            drawing: Vec::new(heap),
            viewing: None,
            room: 0,
            heap,
        }
    }

    fn stroke(&mut self, stroke: Drawing) -> Result<Part, AllocError> {
        if self.viewing.is_some() {
            return Ok(Part::OutOfTurn(OutOfTurn::Closed));
        }
        self.drawing.push(Drawn::of(stroke))?;
        Ok(Part::Drawn(blind()))
    }

    fn look(&mut self, look: Look, target: Target) -> Result<Part, AllocError> {
        let room = look.room();
        let sight = Sight { room, target };
        let part = match &mut self.viewing {
            Some(viewing) => {
                viewing.push(Viewed::of(Viewing::Look(look)))?;
                Part::Viewed(sight)
            }
            None => {
                self.drawing.push(Drawn::of(Drawing::Look(look)))?;
                Part::Drawn(sight)
            }
        };
        self.room = self.room.saturating_add(room);
        Ok(part)
    }

    fn close(&mut self) -> Part {
        if self.viewing.is_some() {
            return Part::OutOfTurn(OutOfTurn::Closed);
        }
        self.viewing = Some(Vec::new(self.heap));
        Part::Close
    }

    fn quote(&mut self) -> Result<Part, AllocError> {
        match &mut self.viewing {
            Some(viewing) => {
                viewing.push(Viewed::of(Viewing::Quote))?;
                Ok(Part::Viewed(blind()))
            }
            None => Ok(Part::OutOfTurn(OutOfTurn::Open)),
        }
    }

    // Keeps a call on the sheet, with its line. There is memory for the line before the call is kept.
    pub(crate) fn keep_call(&mut self, line: Line<'a>, call: Call) -> Result<(), AllocError> {
        self.lines.reserve(1)?;
        let part = match call {
            Call::Stroke(stroke) => self.stroke(stroke)?,
            Call::Look(look) => self.look(look, Target::Line)?,
            Call::Picture(window) => self.look(Look::Window(window), Target::File)?,
            Call::Close => self.close(),
            Call::Quote => self.quote()?,
        };
        self.lines.push(Kept { line, part })?;
        Ok(())
    }

    // Keeps any other line.
    pub(crate) fn keep_other(&mut self, line: Line<'a>) -> Result<(), AllocError> {
        let part = Part::Other;
        self.lines.push(Kept { line, part })?;
        Ok(())
    }
}

impl fmt::Display for OutOfTurn {
    fn fmt<W: fmt::Write>(&self, f: &mut fmt::Formatter<W>) -> fmt::Result {
        let why = match self {
            OutOfTurn::NotReady => "a symmetry and a canvas come first",
            OutOfTurn::NoSheet => "no sheet is open",
            OutOfTurn::Closed => "the sheet is closed, open another",
            OutOfTurn::Open => "close the sheet first",
        };
        write!(f, "{why}")
    }
}

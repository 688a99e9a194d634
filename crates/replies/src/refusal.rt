// Refusals by their numbers and in words.
use canvas::refusal::PutRefused;
use census::fault::WindowFault;
use commands::symmetry::SymmetryRefused;
use groups::rules::GroupRefused;
use lattice::refused::LatticeRefused;
use layers::refused::LayerRefused;
use lines::refusal::LineRefused;
use pile::refused::PileRefused;
use plane::fold::FoldRefused;
use plane::rectangle::RectangleRefused;
use sheet::refusal::{LayRefused, StrokeRefused};
use std::fmt;
use views::refusal::WindowRefused;

// Why a command is not answered, by what refuses it.
#[derive(Clone, Copy, PartialEq, Eq, Debug)]
pub enum Refusal {
    Symmetry(SymmetryRefused),
    // A plane group that was asked for by its symbol.
    Symbol(GroupRefused),
    Lattice(LatticeRefused),
    Fold(FoldRefused),
    Line(LineRefused),
    Classes(WindowFault),
    Window(WindowRefused),
    Stroke(StrokeRefused),
}

pub trait Numbered {
    // The refusal's number; want of memory has none.
    fn number(self) -> Option<u8>;
}

impl Numbered for Refusal {
    fn number(self) -> Option<u8> {
        match self {
            Refusal::Symmetry(why) => symmetry_number(why),
            Refusal::Symbol(why) => Some(why.number()),
            Refusal::Lattice(why) => Some(why.number()),
            Refusal::Fold(why) => Some(why.number()),
            Refusal::Line(why) => Some(why.number()),
            Refusal::Classes(why) => why.number(),
            Refusal::Window(why) => Some(why.number()),
            Refusal::Stroke(why) => Some(why.number()),
        }
    }
}

impl From<SymmetryRefused> for Refusal {
    fn from(why: SymmetryRefused) -> Refusal {
        Refusal::Symmetry(why)
    }
}

impl From<LatticeRefused> for Refusal {
    fn from(why: LatticeRefused) -> Refusal {
        Refusal::Lattice(why)
    }
}

impl From<FoldRefused> for Refusal {
    fn from(why: FoldRefused) -> Refusal {
        Refusal::Fold(why)
    }
}

impl From<LineRefused> for Refusal {
    fn from(why: LineRefused) -> Refusal {
        Refusal::Line(why)
    }
}

impl From<WindowFault> for Refusal {
    fn from(why: WindowFault) -> Refusal {
        Refusal::Classes(why)
    }
}

impl From<WindowRefused> for Refusal {
    fn from(why: WindowRefused) -> Refusal {
        Refusal::Window(why)
    }
}

impl From<StrokeRefused> for Refusal {
    fn from(why: StrokeRefused) -> Refusal {
        Refusal::Stroke(why)
    }
}

const INK: &str = "the ink is above 15";

const NO_MEMORY: &str = "no memory";

const OFF_SPAN: &str = "a cell is off the span";

const PERIODS: &str = "the periods are against the rules of the group";

const SIDE: &str = "a side is below 1 or above 128";

const TOO_LONG: &str = "the line has more than 4,096 cells";

fn symmetry_number(why: SymmetryRefused) -> Option<u8> {
    match why {
        SymmetryRefused::Group(why) => Some(why.number()),
        SymmetryRefused::Lattice(why) => Some(why.number()),
        SymmetryRefused::Pile(PileRefused::Layer(why)) => Some(why.number()),
        SymmetryRefused::Pile(PileRefused::NoMemory) => None,
    }
}

fn lattice(why: LatticeRefused) -> &'static str {
    match why {
        LatticeRefused::Parallel => "the vectors are parallel",
        LatticeRefused::TooLong => "an entry is beyond 256",
    }
}

fn pile(why: PileRefused) -> &'static str {
    match why {
        PileRefused::Layer(LayerRefused::AgainstRules) => {
            "the shift or the matrix is against the rules"
        }
        PileRefused::Layer(LayerRefused::NoRoom) => "no span is left, or the hem is too large",
        PileRefused::NoMemory => NO_MEMORY,
    }
}

fn symmetry(why: SymmetryRefused) -> &'static str {
    match why {
        SymmetryRefused::Group(GroupRefused::UnknownGroup) => "no plane group has this number",
        SymmetryRefused::Group(GroupRefused::WrongPeriods) => PERIODS,
        SymmetryRefused::Lattice(why) => lattice(why),
        SymmetryRefused::Pile(why) => pile(why),
    }
}

fn classes(why: WindowFault) -> &'static str {
    match why {
        WindowFault::Refused(RectangleRefused::Side) => SIDE,
        WindowFault::Refused(RectangleRefused::OffSpan) => OFF_SPAN,
        WindowFault::NoMemory => NO_MEMORY,
    }
}

fn window(why: WindowRefused) -> &'static str {
    match why {
        WindowRefused::Side => SIDE,
        WindowRefused::OffSpan => OFF_SPAN,
        WindowRefused::Palette => "the palette does not have 48 bytes",
        WindowRefused::Output => "the output is too short",
    }
}

fn laying(why: LayRefused) -> &'static str {
    match why {
        LayRefused::Clash => "the cell is neutral, and the ink is not its own counterpart",
        LayRefused::Canvas(PutRefused::Ink) => INK,
        LayRefused::Canvas(PutRefused::Frame) => "the home is outside the frame of the canvas",
        LayRefused::Canvas(PutRefused::Seats) => "every seat of the canvas is taken",
    }
}

fn stroke(why: StrokeRefused) -> &'static str {
    match why {
        StrokeRefused::TooManyStrokes => "the sheet has 65,535 strokes",
        StrokeRefused::Ink => INK,
        StrokeRefused::OffSpan => OFF_SPAN,
        StrokeRefused::TooLong => TOO_LONG,
        StrokeRefused::Stopped(why) => laying(why),
    }
}

impl fmt::Display for Refusal {
    fn fmt<W: fmt::Write>(&self, f: &mut fmt::Formatter<W>) -> fmt::Result {
        let words = match self {
            Refusal::Symmetry(why) => symmetry(*why),
            Refusal::Symbol(GroupRefused::UnknownGroup) => "no plane group has this symbol",
            Refusal::Symbol(GroupRefused::WrongPeriods) => PERIODS,
            Refusal::Lattice(why) => lattice(*why),
            Refusal::Fold(FoldRefused::OffSpan) => OFF_SPAN,
            Refusal::Line(LineRefused::TooLong) => TOO_LONG,
            Refusal::Classes(why) => classes(*why),
            Refusal::Window(why) => window(*why),
            Refusal::Stroke(why) => stroke(*why),
        };
        write!(f, "{words}")
    }
}

// Why a sheet's call is refused.
ghost use Rattle.std.specs.Prelude.{◌≡◌};
ghost use Rattle.sheet.specs.declared.refusal.LayRefused.TheVariants.{Canvas};
ghost use Rattle.sheet.specs.declared.refusal.StrokeRefused.TheVariants.{Stopped, TooLong};
ghost use Rattle.sheet.specs.Refusals.{lay_number, stroke_number};

use canvas::refusal::PutRefused;
use lines::refusal::LineRefused;

// Why a cell is not laid.
#[derive(Clone, Copy, PartialEq, Eq, Debug)]
pub enum LayRefused {
    // The cell is neutral, and the ink is not its own counterpart.
    Clash,
    // The canvas refuses the put.
    Canvas(PutRefused),
}

// Why a stroke is refused, or stops.
#[derive(Clone, Copy, PartialEq, Eq, Debug)]
pub enum StrokeRefused {
    // The sheet has 65,535 strokes.
    TooManyStrokes,
    // The ink is above 15.
    Ink,
    // An end is off the span.
    OffSpan,
    // The line has more than 4,096 cells.
    TooLong,
    // One of its cells is not laid.
    Stopped(LayRefused),
}

// A stroke that was refused or stopped, with how many of its cells were laid.
#[derive(Clone, Copy, PartialEq, Eq, Debug)]
pub struct StrokeStopped {
    pub refusal: StrokeRefused,
    pub laid: u16,
}

// A canvas's refusal stops the laying.
impl From<PutRefused> for LayRefused {
    ghost from_gives = { λ why r. r ≡ Canvas why };

    fn from(value: PutRefused) -> LayRefused {
        LayRefused::Canvas(value)
    }
}

// A cell that is not laid stops the stroke.
impl From<LayRefused> for StrokeRefused {
    ghost from_gives = { λ why r. r ≡ Stopped why };

    fn from(value: LayRefused) -> StrokeRefused {
        StrokeRefused::Stopped(value)
    }
}

// A stroke that is refused lays nothing.
impl From<StrokeRefused> for StrokeStopped {
    ghost from_gives = { λ why s. s ≡ record { refusal = why; laid = 0 } };

    fn from(value: StrokeRefused) -> StrokeStopped {
        StrokeStopped {
            refusal: value,
            laid: 0,
        }
    }
}

// A line that is too long is a stroke that is.
impl From<LineRefused> for StrokeRefused {
    ghost from_gives = { λ _ r. r ≡ TooLong };

    fn from(value: LineRefused) -> StrokeRefused {
        match value {
            LineRefused::TooLong => StrokeRefused::TooLong,
        }
    }
}

impl LayRefused {
    // The refusal's number.
    pub fn number(self) -> u8
        ensures { result ≡ lay_number self }
    {
        match self {
            LayRefused::Clash => 3,
            LayRefused::Canvas(why) => why.number(),
        }
    }
}

impl StrokeRefused {
    // The refusal's number.
    pub fn number(self) -> u8
        ensures { result ≡ stroke_number self }
    {
        match self {
            StrokeRefused::TooManyStrokes => 7,
            StrokeRefused::Ink => 1,
            StrokeRefused::OffSpan => 2,
            StrokeRefused::TooLong => 6,
            StrokeRefused::Stopped(why) => why.number(),
        }
    }
}

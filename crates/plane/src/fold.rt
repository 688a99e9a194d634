// What a symmetry answers.
ghost use Rattle.std.specs.Prelude.{◌≡◌};
ghost use Rattle.plane.specs.Refusals.{fold_number};

use super::cell::Cell;
use super::kinds::Kinds;

// How far from the origin a symmetry answers (its span), and how far from it a home may lie (its hem).
#[derive(Clone, Copy, PartialEq, Eq, Debug)]
pub struct Extent {
    pub span: u32,
    pub hem: u32,
}

// The home of a cell, and the kinds of all operations that carry the cell there.
#[derive(Clone, Copy, PartialEq, Eq, Debug)]
pub struct Fold {
    pub home: Cell,
    pub kinds: Kinds,
}

// Why a cell is not folded.
#[derive(Clone, Copy, PartialEq, Eq, Debug)]
pub enum FoldRefused {
    // A coordinate exceeds the span.
    OffSpan,
}

impl FoldRefused {
    // The refusal's number.
    pub fn number(self) -> u8
        ensures { result ≡ fold_number self }
    {
        match self {
            FoldRefused::OffSpan => 2,
        }
    }
}

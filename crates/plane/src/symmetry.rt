// The symmetries of the plane, by what they mean.
ghost use Rattle.std.specs.Prelude.{◌≡◌};
ghost use Rattle.plane.specs.Meaning.{Meaning, extent_of, folded};
ghost use Rattle.plane.specs.Laws.{Lawful};

use super::cell::Cell;
use super::fold::{Extent, Fold, FoldRefused};

// A symmetry: a group of operations, by which every cell within the span has a home.
pub trait Symmetry {
    // The set of operations, the span, the hem, and the home and the kinds of each cell.
    ghost meaning: { Self → Meaning };

    // Span and hem.
    fn extent(&self) -> Extent
        ensures { result ≡ extent_of (meaning self.now) };

    // The home and the kinds of a cell, or a refusal exactly where the cell is off the span.
    fn fold(&self, at: Cell) -> Result<Fold, FoldRefused>
        ensures { result ≡ folded (meaning self.now) at };

    fn span(&self) -> u32
        ensures { result ≡ (meaning self.now).span }
    {
        self.extent().span
    }

    fn hem(&self) -> u32
        ensures { result ≡ (meaning self.now).hem }
    {
        self.extent().hem
    }

    // The operations are a group, and the homes and kinds are theirs.
    ghost lawful: { (s : Self) → Lawful (meaning s) };
}

// The lowest symmetry of a pile.
ghost use Rattle.std.specs.Prelude.{◌≡◌};
ghost use Rattle.pile.specs.Base.{based};
ghost use Rattle.pile.specs.Basing.{base_laws};

use groups::tabled::Tabled;
use lattice::oblique::Oblique;
use plane::cell::Cell;
use plane::fold::{Extent, Fold, FoldRefused};
use plane::symmetry::Symmetry;

// A tabled group or an oblique symmetry.
#[derive(Clone, Copy)]
pub enum Base {
    Tabled(Tabled),
    Oblique(Oblique),
}

impl Symmetry for Base {
    ghost meaning = { based };

    ghost lawful = { λ s. base_laws s };

    fn extent(&self) -> Extent {
        match self {
            Base::Tabled(group) => group.extent(),
            Base::Oblique(oblique) => oblique.extent(),
        }
    }

    fn fold(&self, at: Cell) -> Result<Fold, FoldRefused> {
        match self {
            Base::Tabled(group) => group.fold(at),
            Base::Oblique(oblique) => oblique.fold(at),
        }
    }
}

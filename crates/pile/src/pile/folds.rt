// A pile as a symmetry.
ghost use Rattle.std.specs.Prelude.{◌≡◌};
ghost use Rattle.pile.specs.Piles.{pile_meaning};
ghost use Rattle.pile.specs.Base.{based};
ghost use Rattle.pile.specs.Basing.{base_laws};
ghost use Rattle.pile.specs.Piling.{pile_laws};

use super::super::levels::{extent_of_top, lower_through, raise_through};
use super::Pile;
use plane::cell::Cell;
use plane::fold::{Extent, Fold, FoldRefused};
use plane::symmetry::Symmetry;

impl Symmetry for Pile {
    ghost meaning = { pile_meaning };

    ghost lawful = { λ s. pile_laws s.levels.items (based s.base) (base_laws s.base) };

    fn extent(&self) -> Extent {
        let base = self.base.extent();
        extent_of_top(self.levels.as_slice(), base)
    }

    fn fold(&self, at: Cell) -> Result<Fold, FoldRefused> {
        let levels = self.levels.as_slice();
        let lowered = lower_through(levels, at)?;
        let found = self.base.fold(lowered)?;
        Ok(raise_through(levels, found))
    }
}

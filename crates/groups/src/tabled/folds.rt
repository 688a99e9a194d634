// A tabled group as a symmetry.
ghost use Rattle.std.specs.Prelude.{◌≡◌};
ghost use Rattle.groups.specs.Tabled.{tabled};
ghost use Rattle.groups.specs.Homing.{tabled_laws};

use super::Tabled;
use super::homes::Near;
use plane::cell::Cell;
use plane::fold::{Extent, Fold, FoldRefused};
use plane::symmetry::Symmetry;

impl Symmetry for Tabled {
    ghost meaning = { λ s. tabled s.group.number s.p s.q };

    ghost lawful = { λ s. tabled_laws s.group.number s.p s.q s.group.listed s.suited };

    fn extent(&self) -> Extent {
        Extent {
            span: 1_000_000,
            hem: 128,
        }
    }

    fn fold(&self, at: Cell) -> Result<Fold, FoldRefused> {
        if !at.is_within(1_000_000) {
            return Err(FoldRefused::OffSpan);
        }
        let cell = Near { tabled: *self, at };
        let home = cell.home();
        let kinds = cell.kinds(home);
        Ok(Fold { home, kinds })
    }
}

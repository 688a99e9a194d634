// The vector of a shift.
ghost use Rattle.std.specs.Prelude.{◌≡◌, true};
ghost use Rattle.plane.specs.Cells.{Within};
ghost use Rattle.layers.specs.Shift.{reach, short, reverse, moved, shift_extent};

use super::refused::{LayerRefused, judge};
use plane::cell::Cell;
use plane::fold::Extent;

// A move of `u` columns and `v` rows.
#[derive(Clone, Copy, PartialEq, Eq, Debug)]
pub struct Vector {
    pub u: i64,
    pub v: i64,
}

impl Vector {
    // The larger of |u| and |v|.
    fn reach(self) -> u64
        ensures { result ≡ reach self }
    {
        self.u.unsigned_abs().max(self.v.unsigned_abs())
    }

    // The extent of a symmetry shifted by the vector, or why the shift is refused.
    pub fn extent_over(self, below: Extent) -> Result<Extent, LayerRefused>
        ensures { result ≡ shift_extent self below }
    {
        let reach = self.reach();
        let span = u64::from(below.span).saturating_sub(reach) as u32;
        let hem = u64::from(below.hem) + reach;
        judge(reach <= 1000, span, hem)
    }

    // The vector the other way.
    pub(crate) fn reverse(self) -> Vector
        requires { short self ≡ true }
        ensures { result ≡ reverse self }
    {
        Vector {
            u: -self.u,
            v: -self.v,
        }
    }

    // The cell so many columns and rows on.
    pub(crate) fn moved(self, at: Cell) -> Cell
        requires { short self ≡ true × Within 1_000_000_000_000 at }
        ensures { result ≡ moved self at }
    {
        Cell {
            x: at.x + self.u,
            y: at.y + self.v,
        }
    }
}

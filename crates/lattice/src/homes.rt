// Homes in the box of a reduction.
ghost use Rattle.std.specs.Prelude.{◌≡◌, ◌<◌, ◌≤◌};
ghost use Rattle.plane.specs.Cells.{Within};
ghost use Rattle.lattice.specs.Oblique.{boxed};

use super::reduced::Reduced;
use ints::division::{floor_div, floor_mod};
use ints::products::product;
use plane::cell::Cell;

impl Reduced {
    // The cell of the box: first moved by whole (b, d), then by whole (p, 0).
    pub(crate) fn home(self, at: Cell) -> Cell
        requires { (self.b < self.p) × (self.p ≤ 131_072) × (1 ≤ self.d) × (self.d ≤ 131_072) × Within 1_000_000 at }
        ensures { result ≡ boxed self at }
    {
        let d = i64::from(self.d);
        let y = floor_mod(at.y, d);
        let rows = floor_div(at.y, d);
        let x = floor_mod(at.x - product(rows, i64::from(self.b)), i64::from(self.p));
        Cell { x, y }
    }
}

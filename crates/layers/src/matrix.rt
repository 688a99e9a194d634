// The matrix of a recast.
ghost use Rattle.std.specs.Prelude.{◌≡◌, true};
ghost use Rattle.plane.specs.Cells.{Within};
ghost use Rattle.layers.specs.Recast.{volume, small, fair, inverse, applied, recast_extent};

use super::refused::{LayerRefused, judge};
use ints::products::{cross, dot, product};
use ints::ranges::is_at_most;
use plane::cell::Cell;
use plane::fold::Extent;

// The matrix with the rows (a b) and (c d).
#[derive(Clone, Copy, PartialEq, Eq, Debug)]
pub struct Matrix {
    pub a: i64,
    pub b: i64,
    pub c: i64,
    pub d: i64,
}

impl Matrix {
    // Whether no entry is beyond 8 either way.
    fn is_small(self) -> bool
        ensures { result ≡ small self }
    {
        (is_at_most(self.a, 8) && is_at_most(self.b, 8))
            && (is_at_most(self.c, 8) && is_at_most(self.d, 8))
    }

    // The determinant.
    fn volume(self) -> i64
        requires { small self ≡ true }
        ensures { result ≡ volume self }
    {
        cross(self.a, self.d, self.b, self.c)
    }

    // Whether the entries are small and the determinant is 1 or -1.
    fn is_fair(self) -> bool
        ensures { result ≡ fair self }
    {
        self.is_small() && self.volume().unsigned_abs() == 1
    }

    // The extent of a symmetry recast by the matrix, or why the matrix is refused.
    pub fn extent_over(self, below: Extent) -> Result<Extent, LayerRefused>
        ensures { result ≡ recast_extent self below }
    {
        judge(self.is_fair(), below.span / 16, u64::from(below.hem) * 16)
    }

    // The matrix that undoes it.
    pub(crate) fn inverse(self) -> Matrix
        requires { fair self ≡ true }
        ensures { result ≡ inverse self }
    {
        let volume = self.volume();
        Matrix {
            a: product(volume, self.d),
            b: -product(volume, self.b),
            c: -product(volume, self.c),
            d: product(volume, self.a),
        }
    }

    // The matrix times the cell.
    pub(crate) fn applied(self, at: Cell) -> Cell
        requires { small self ≡ true × Within 1_000_000_000_000 at }
        ensures { result ≡ applied self at }
    {
        Cell {
            x: dot(self.a, at.x, self.b, at.y),
            y: dot(self.c, at.x, self.d, at.y),
        }
    }
}

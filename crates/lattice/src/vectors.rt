// Two vectors of the plane.
ghost use Rattle.std.specs.Prelude.{◌≡◌, true};
ghost use Rattle.lattice.specs.Lattice.{area, small, refusal};
ghost use Rattle.lattice.specs.Refusals.{unless};

use super::refused::LatticeRefused;
use ints::products::cross;
use ints::ranges::is_at_most;

// The vectors (ax, ay) and (bx, by).
#[derive(Clone, Copy, PartialEq, Eq, Debug)]
pub struct Vectors {
    pub ax: i64,
    pub ay: i64,
    pub bx: i64,
    pub by: i64,
}

impl Vectors {
    // Whether no entry is beyond 256 either way.
    fn is_small(self) -> bool
        ensures { result ≡ small self }
    {
        (is_at_most(self.ax, 256) && is_at_most(self.ay, 256))
            && (is_at_most(self.bx, 256) && is_at_most(self.by, 256))
    }

    // The determinant.
    fn area(self) -> i64
        requires { small self ≡ true }
        ensures { result ≡ area self }
    {
        cross(self.ax, self.by, self.ay, self.bx)
    }

    // Whether the vectors give a lattice, or why they are refused: first for a long entry, then as parallel.
    pub fn check(self) -> Result<(), LatticeRefused>
        ensures { result ≡ unless (refusal self) tt }
    {
        if !self.is_small() {
            return Err(LatticeRefused::TooLong);
        }
        if self.area() == 0 {
            return Err(LatticeRefused::Parallel);
        }
        Ok(())
    }
}

// The reduction of a lattice.
ghost use Rattle.std.specs.Prelude.{◌≡◌, ◌/◌, ◌%◌, ◌≤◌, true, false, pos, ◌-ℤ◌, ◌*ℤ◌, IfOk, unsigned_abs};
ghost use Rattle.lattice.specs.Refusals.{unless};
ghost use Rattle.lattice.specs.Lattice.{small, parallel, refusal};
ghost use Rattle.lattice.specs.Bounds.{Bounded};
ghost use Rattle.lattice.specs.Reduction.{Reduces, upright, finished, euclid, reduction};

use super::refused::LatticeRefused;
use super::vectors::Vectors;
use ints::division::floor_mod;
use ints::products::product;

// The vectors (p, 0) and (b, d).
#[derive(Clone, Copy, PartialEq, Eq, Debug)]
pub struct Reduced {
    pub p: u32,
    pub b: u32,
    pub d: u32,
}

// A vector whose row is not below 0.
#[derive(Clone, Copy)]
struct Upright {
    x: i64,
    y: u32,
}

impl Upright {
    // The vector, or its opposite, whichever has a row of at least 0.
    fn of(x: i64, y: i64) -> Upright
        requires { (unsigned_abs x ≤ 256) × (unsigned_abs y ≤ 256) }
        ensures { result ≡ record { x = upright x y; y = unsigned_abs y } }
    {
        Upright {
            x: if y < 0 { -x } else { x },
            y: y.unsigned_abs() as u32,
        }
    }
}

// Two upright vectors of one lattice, not parallel.
#[derive(Clone, Copy)]
struct Pair {
    first: Upright,
    second: Upright,
    ghost bounded: { Bounded first.x first.y second.x second.y },
}

impl Pair {
    // Two vectors, turned upright.
    fn of(vectors: Vectors) -> Pair
        requires { (small vectors ≡ true) × (parallel vectors ≡ false) }
        ensures first { result.first ≡ record { x = upright vectors.ax vectors.ay; y = unsigned_abs vectors.ay } }
        ensures second { result.second ≡ record { x = upright vectors.bx vectors.by; y = unsigned_abs vectors.by } }
    {
        Pair {
            first: Upright::of(vectors.ax, vectors.ay),
            second: Upright::of(vectors.bx, vectors.by),
        }
    }

    // The second vector, and the first less the second so many times as its row goes into the first row.
    fn next(self) -> Pair
        requires { 1 ≤ self.second.y }
        ensures first { result.first ≡ self.second }
        ensures second { result.second ≡ record { x = self.first.x -ℤ pos (self.first.y / self.second.y) *ℤ self.second.x; y = self.first.y % self.second.y } }
    {
        let times = i64::from(self.first.y / self.second.y);
        Pair {
            first: self.second,
            second: Upright {
                x: self.first.x - product(times, self.second.x),
                y: self.first.y % self.second.y,
            },
        }
    }

    // The reduction at the last step, where the second row is 0.
    fn finish(self) -> Reduced
        requires { self.second.y ≡ 0 }
        ensures { result ≡ finished self.first.x self.first.y self.second.x }
    {
        let p = self.second.x.unsigned_abs();
        let b = floor_mod(self.first.x, p as i64);
        Reduced {
            p: p as u32,
            b: b as u32,
            d: self.first.y,
        }
    }

    // The reduction of the lattice, by Euclid's algorithm on the rows.
    fn reduced(self) -> Reduced
        ensures { result ≡ euclid self.second.y self.first.x self.first.y self.second.x self.second.y }
    {
        let mut pair = self;
        while pair.second.y > 0 {
            pair = pair.next();
        }
        pair.finish()
    }
}

// The reduction of the lattice of two vectors, or why they are refused.
pub fn reduce(vectors: Vectors) -> Result<Reduced, LatticeRefused>
    ensures outcome { result ≡ unless (refusal vectors) (reduction vectors) }
    ensures reduces { IfOk result (Reduces vectors) }
{
    vectors.check()?;
    Ok(Pair::of(vectors).reduced())
}

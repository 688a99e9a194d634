// Division that rounds down.
ghost use Rattle.std.specs.Prelude.{◌≡◌, pos, ◌≤ℤ◌, unsigned_abs};
ghost use Rattle.ints.specs.Floor.{FloorExists, FloorUnique, FloorCong, floor_mod, floor_div};

// The remainder of x by p, from 0 to p - 1.
pub fn floor_mod(x: i64, p: i64) -> i64
    requires { pos 1 ≤ℤ p }
    ensures { result ≡ pos (floor_mod x (unsigned_abs p)) }
{
    x.rem_euclid(p)
}

// The quotient of x by p, rounded down.
pub fn floor_div(x: i64, p: i64) -> i64
    requires { pos 1 ≤ℤ p }
    ensures { result ≡ floor_div x (unsigned_abs p) }
{
    x.div_euclid(p)
}

// Remainder and quotient exist, are unique, and tell congruent numbers: the theorems behind the two functions above.
pub fn floor_laws()
    ensures exists { FloorExists }
    ensures unique { FloorUnique }
    ensures cong { FloorCong }
{}

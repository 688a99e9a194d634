// Sums of two products, exact in 64 bits.
ghost use Rattle.std.specs.Prelude.{◌≡◌, ◌≤◌, ◌+ℤ◌, ◌-ℤ◌, ◌*ℤ◌, unsigned_abs};
ghost use Rattle.ints.specs.Products.{Factor, Term};

// The product of a factor and a term.
pub fn product(a: i64, x: i64) -> i64
    requires { Factor a × Term x }
    ensures value { result ≡ a *ℤ x }
    ensures bound { unsigned_abs result ≤ 1_000_000_000_000_000_000 }
{
    a * x
}

// a x + b y.
pub fn dot(a: i64, x: i64, b: i64, y: i64) -> i64
    requires { Factor a × Term x × Factor b × Term y }
    ensures { result ≡ a *ℤ x +ℤ b *ℤ y }
{
    product(a, x) + product(b, y)
}

// a x - b y.
pub fn cross(a: i64, x: i64, b: i64, y: i64) -> i64
    requires { Factor a × Term x × Factor b × Term y }
    ensures { result ≡ a *ℤ x -ℤ b *ℤ y }
{
    product(a, x) - product(b, y)
}

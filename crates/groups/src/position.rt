// The positions of plane groups.
ghost use Rattle.std.specs.Prelude.{◌≡◌};

use ints::products::cross;

// A position: it carries (x, y) to (a x + b y, c x + d y), moved by `s` half periods in x and `t` half periods in y.
#[derive(Clone, Copy)]
pub struct Position {
    pub a: i8,
    pub b: i8,
    pub c: i8,
    pub d: i8,
    pub s: i8,
    pub t: i8,
}

// The position with these numbers, in the order a b c d s t.
impl From<[i8; 6]> for Position {
    ghost use Rattle.groups.specs.Positions.{position_of};

    ghost from_gives = { λ row by. by ≡ position_of row };

    fn from(row: [i8; 6]) -> Position {
        let [a, b, c, d, s, t] = row;
        Position { a, b, c, d, s, t }
    }
}

impl Position {
    ghost use Rattle.groups.specs.Positions.{mirrors};

    // Whether the position is improper.
    pub(crate) fn is_improper(self) -> bool
        ensures { result ≡ mirrors self }
    {
        cross(self.a.into(), self.d.into(), self.b.into(), self.c.into()) < 0
    }
}

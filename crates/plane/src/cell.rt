// Cells of the endless plane.
ghost use Rattle.std.specs.Prelude.{◌≡◌};
ghost use Rattle.plane.specs.Cells.{inside, earlier};

use ints::ranges::is_at_most;
use std::fmt;

// A cell: `x` is its column, `y` its row. Cells are in the order of their rows, and within a row in that of their columns.
#[derive(Clone, Copy, PartialEq, Eq, PartialOrd, Ord)]
pub struct Cell {
    pub y: i64,
    pub x: i64,
}

// Its column is written before its row.
impl fmt::Debug for Cell {
    fn fmt<W: fmt::Write>(&self, f: &mut fmt::Formatter<W>) -> fmt::Result {
        f.debug_struct("Cell")
            .field("x", &self.x)
            .field("y", &self.y)
            .finish()
    }
}

impl Cell {
    // Whether the cell is at most `reach` columns and `reach` rows from the origin.
    pub fn is_within(self, reach: u32) -> bool
        ensures { result ≡ inside reach self }
    {
        is_at_most(self.x, reach) && is_at_most(self.y, reach)
    }

    // Whether the cell has a smaller row than the other, or the same row and a smaller column.
    pub fn precedes(self, other: Cell) -> bool
        ensures { result ≡ earlier self other }
    {
        self < other
    }
}

// Areas of the plane.
ghost use Rattle.std.specs.Prelude.{◌≡◌, ◌+◌, ◌^◌, ◌<◌, IfSome};
ghost use Rattle.dense.specs.Area.{offset_if, place_if, size};

use plane::cell::Cell;

// The cells of a width and a height whose least is the corner (`x`, `y`).
#[derive(Clone, Copy)]
pub struct Area {
    pub x: i32,
    pub y: i32,
    pub width: u16,
    pub height: u16,
}

impl Area {
    // How many cells the area has.
    pub(crate) fn size(self) -> usize
        ensures { result ≡ size self }
    {
        usize::from(self.width) * usize::from(self.height)
    }

    // The place of a cell among those of the area, row by row.
    pub(crate) fn place(self, at: Cell) -> Option<usize>
        ensures is { result ≡ place_if self at }
        ensures within { IfSome result (λ i. i < size self) }
        ensures few { size self + 1 < 2 ^ 32 }
    {
        let column = offset(self.x, self.width, at.x)?;
        let row = offset(self.y, self.height, at.y)?;
        Some(usize::from(row) * usize::from(self.width) + usize::from(column))
    }
}

// How far `x` lies from `from`, if it is one of the `count` from there on.
fn offset(from: i32, count: u16, x: i64) -> Option<u16>
    ensures { result ≡ offset_if from count x }
{
    let steps = u16::try_from(x.checked_sub(i64::from(from))?).ok()?;
    (steps < count).then_some(steps)
}

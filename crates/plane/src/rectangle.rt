// Rectangles of cells.
ghost use Rattle.std.specs.Prelude.{◌≡◌};
ghost use Rattle.plane.specs.Rectangles.{rectangle_number};

use super::cell::Cell;

// A rectangle of cells, the corner being the least of them. Sides may be any numbers.
#[derive(Clone, Copy, PartialEq, Eq, Debug)]
pub struct Rectangle {
    pub corner: Cell,
    pub width: i64,
    pub height: i64,
}

// Why a rectangle is no window.
#[derive(Clone, Copy, PartialEq, Eq, Debug)]
pub enum RectangleRefused {
    // A side is below 1 or above 128.
    Side,
    // A cell is off the span.
    OffSpan,
}

impl RectangleRefused {
    // The refusal's number.
    pub fn number(self) -> u8
        ensures { result ≡ rectangle_number self }
    {
        match self {
            RectangleRefused::Side => 8,
            RectangleRefused::OffSpan => 2,
        }
    }
}

// Windows.
ghost use Rattle.std.specs.Prelude.{◌≤◌};
ghost use Rattle.plane.specs.Cells.{Within};

use super::cell::Cell;

// A rectangle with sides from 1 to 128, all within a span.
#[derive(Clone, Copy)]
pub struct Window {
    pub corner: Cell,
    pub width: u8,
    pub height: u8,
    ghost near: { Within 4_294_967_295 corner },
    ghost wide: { (1 ≤ width) × (width ≤ 128) },
    ghost high: { (1 ≤ height) × (height ≤ 128) },
}

pub mod cells;
pub mod judges;
pub mod walk;

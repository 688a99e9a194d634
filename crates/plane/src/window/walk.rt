// A walk over the cells of a window.
ghost use Rattle.std.specs.Prelude.{◌<◌};

use super::Window;

// The cells of a window from one of them on.
#[derive(Clone, Copy)]
pub struct Cells {
    pub(crate) window: Window,
    pub(crate) column: u8,
    pub(crate) row: u8,
    ghost narrow: { column < window.width },
}

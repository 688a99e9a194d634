// Why a window is refused.
ghost use Rattle.std.specs.Prelude.{◌≡◌};
ghost use Rattle.views.specs.Refusals.{by_rectangle, window_number};

use plane::rectangle::RectangleRefused;

#[derive(Clone, Copy, PartialEq, Eq, Debug)]
pub enum WindowRefused {
    // A side is below 1 or above 128.
    Side,
    // A cell of the window is off the span.
    OffSpan,
    // The palette does not have 48 bytes.
    Palette,
    // The output is too short.
    Output,
}

// A rectangle that is no window is refused as one.
impl From<RectangleRefused> for WindowRefused {
    ghost from_gives = { λ why r. r ≡ by_rectangle why };

    fn from(value: RectangleRefused) -> WindowRefused {
        match value {
            RectangleRefused::Side => WindowRefused::Side,
            RectangleRefused::OffSpan => WindowRefused::OffSpan,
        }
    }
}

impl WindowRefused {
    // The refusal's number.
    pub fn number(self) -> u8
        ensures { result ≡ window_number self }
    {
        match self {
            WindowRefused::Side => 8,
            WindowRefused::OffSpan => 2,
            WindowRefused::Palette => 10,
            WindowRefused::Output => 9,
        }
    }
}

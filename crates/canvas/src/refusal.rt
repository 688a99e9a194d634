// Why a canvas refuses a put.
ghost use Rattle.std.specs.Prelude.{◌≡◌};
ghost use Rattle.canvas.specs.Refusals.{from_shelf, put_number};

use shelf::refusal::ShelfRefused;

#[derive(Clone, Copy, PartialEq, Eq, Debug)]
pub enum PutRefused {
    // The ink is above 15.
    Ink,
    // The cell is outside the frame.
    Frame,
    // The cell is not held, and every seat is taken.
    Seats,
}

impl PutRefused {
    // The refusal's number.
    pub fn number(self) -> u8
        ensures { result ≡ put_number self }
    {
        match self {
            PutRefused::Ink => 1,
            PutRefused::Frame => 4,
            PutRefused::Seats => 5,
        }
    }
}

// A full shelf is a canvas with no seat left.
impl From<ShelfRefused> for PutRefused {
    ghost from_gives = { λ why r. r ≡ from_shelf why };

    fn from(why: ShelfRefused) -> PutRefused {
        match why {
            ShelfRefused::Full => PutRefused::Seats,
        }
    }
}

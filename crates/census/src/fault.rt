// Why the classes of a window are not told.
ghost use Rattle.std.specs.Prelude.{◌≡◌};
ghost use Rattle.census.specs.declared.fault.WindowFault.TheVariants.{NoMemory, Refused};
ghost use Rattle.census.specs.Faults.{fault_number};

use plane::rectangle::RectangleRefused;
use std::alloc::AllocError;

#[derive(Clone, Copy, PartialEq, Eq, Debug)]
pub enum WindowFault {
    // The rectangle is no window.
    Refused(RectangleRefused),
    // There is no memory for the list.
    NoMemory,
}

impl WindowFault {
    // The refusal's number; want of memory has none.
    pub fn number(self) -> Option<u8>
        ensures { result ≡ fault_number self }
    {
        match self {
            WindowFault::Refused(why) => Some(why.number()),
            WindowFault::NoMemory => None,
        }
    }
}

impl From<RectangleRefused> for WindowFault {
    ghost from_gives = { λ why r. r ≡ Refused why };

    fn from(why: RectangleRefused) -> WindowFault {
        Self::Refused(why)
    }
}

impl From<AllocError> for WindowFault {
    ghost from_gives = { λ _ r. r ≡ NoMemory };

    fn from(_: AllocError) -> WindowFault {
        Self::NoMemory
    }
}

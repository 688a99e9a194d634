// How many bytes of the output a call is given, and where they end.
ghost use Rattle.std.specs.Prelude.{◌≡◌};
ghost use Rattle.history.specs.Histories.{drawing_room, look_room, past, viewing_room};

use super::calls::{Drawing, Look, Viewing};

impl Look {
    // How many bytes of the output it is given.
    pub fn room(self) -> usize
        ensures { result ≡ look_room self }
    {
        match self {
            Look::Show(_) => 0,
            Look::Window(window) => window.output,
        }
    }
}

impl Drawing {
    pub(crate) fn room(self) -> usize
        ensures { result ≡ drawing_room self }
    {
        match self {
            Drawing::Look(look) => look.room(),
            Drawing::Dot { .. } | Drawing::Line { .. } => 0,
        }
    }
}

impl Viewing {
    pub(crate) fn room(self) -> usize
        ensures { result ≡ viewing_room self }
    {
        match self {
            Viewing::Look(look) => look.room(),
            Viewing::Quote => 0,
        }
    }
}

// Where the part of the output after one of so many bytes begins.
pub(crate) fn past(long: usize, at: usize, size: usize) -> usize
    ensures { result ≡ past long at size }
{
    long.min(at.saturating_add(size))
}

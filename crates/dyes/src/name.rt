// Names of dyes.

// A name of one to eight letters a to z, filled up with 0 to eight bytes. Names are in the order of their bytes: as 0 is below every letter, a name is before its longer continuations.
#[derive(Clone, Copy, PartialEq, Eq, PartialOrd, Ord)]
pub struct DyeName {
    letters: [u8; 8],
}

pub mod spells;

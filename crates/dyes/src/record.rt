// The records of a dye book.
use super::name::DyeName;

// A name and its ink.
#[derive(Clone, Copy)]
pub struct DyeRecord {
    pub(crate) name: DyeName,
    pub(crate) ink: u8,
}

pub mod keys;

// The records of a sparse canvas.

// A cell with signed 32-bit coordinates and its ink.
#[derive(Clone, Copy, PartialEq, Eq, Debug)]
pub struct CellRecord {
    pub x: i32,
    pub y: i32,
    pub ink: u8,
}

pub mod keys;

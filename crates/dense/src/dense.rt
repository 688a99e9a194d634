// The dense canvas.
ghost use Rattle.std.specs.Prelude.{◌≡◌, ◌≤◌, length};
ghost use Rattle.dense.specs.Area.{Inked, inked, size};

use super::area::Area;

// A canvas of a byte for each cell of an area, row by row, in the caller's memory: the bytes suffice for the area, each is an ink, and `held` of them are not 0. Later bytes belong to no cell.
#[derive(Drop)]
pub struct DenseCanvas<'a> {
    bytes: &'a mut [u8],
    area: Area,
    held: u32,
    ghost long: { size area ≤ length bytes.now },
    ghost small: { Inked area bytes.now },
    ghost counted: { held ≡ inked area bytes.now },
}

pub mod holds;
pub mod makes;

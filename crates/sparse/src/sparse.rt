// The sparse canvas.
ghost use Rattle.std.specs.Prelude.{◌≡◌, ◌≤◌, true};
ghost use Rattle.shelf.specs.Held.{held, size};
ghost use Rattle.sparse.specs.Records.{sound};

use super::record::CellRecord;
use shelf::shelf::Shelf;

// A canvas of records of cell and ink on a shelf, ordered by row and column. Each ink is 1 to 15, and each cell in the frame.
#[derive(Drop)]
pub struct SparseCanvas<'a> {
    shelf: Shelf<'a, CellRecord>,
    ghost sound: { sound (held shelf) ≡ true },
    ghost few: { size shelf ≤ 65536 },
}

pub mod holds;
pub mod makes;

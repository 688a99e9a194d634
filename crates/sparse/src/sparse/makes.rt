// Sparse canvases are made over lent records.
ghost use Rattle.std.specs.Prelude.{◌≡◌, min, length, take};
ghost use Rattle.shelf.specs.Held.{table};
ghost use Rattle.sparse.specs.Sparse.{bare_board, sparse_board};

use super::super::record::CellRecord;
use super::SparseCanvas;
use shelf::shelf::Shelf;

impl<'a> SparseCanvas<'a> {
    // An empty canvas over the caller's records, of which it uses at most 65,536.
    pub fn over(records: &'a mut [CellRecord]) -> SparseCanvas<'a>
        ensures board { sparse_board result ≡ bare_board (min (length records.old) 65536) }
        ensures table { table result.shelf ≡ take (min (length records.old) 65536) records.old }
    {
        let seats = records.len().min(65536);
        let shelf = Shelf::over(&mut records[0..seats]);
        SparseCanvas { shelf }
    }
}

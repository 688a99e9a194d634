// A sparse canvas is a canvas.
ghost use Rattle.sparse.specs.Sparse.{sparse_board, sparse_laws};

use super::super::record::CellRecord;
use super::SparseCanvas;
use canvas::canvas::Canvas;
use canvas::refusal::PutRefused;
use plane::cell::Cell;

impl<'a> Canvas for SparseCanvas<'a> {
    ghost board = { sparse_board };

    ghost laws = { sparse_laws };

    fn look(&self, at: Cell) -> u8 {
        self.shelf.find(at).map_or(0, |found| found.ink)
    }

    fn put(&mut self, at: Cell, ink: u8) -> Result<(), PutRefused> {
        if ink > 15 {
            return Err(PutRefused::Ink);
        }
        let new = CellRecord::of(at, ink).ok_or(PutRefused::Frame)?;
        if ink == 0 {
            let _ = self.shelf.remove(at);
        } else {
            self.shelf.insert(new)?;
        }
        Ok(())
    }

    fn held(&self) -> u32 {
        self.shelf.len() as u32
    }

    fn clear(&mut self) {
        self.shelf.clear();
    }
}

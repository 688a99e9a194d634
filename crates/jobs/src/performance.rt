// Replaying the history of a record on a canvas that is made for it.
use super::record::Record;
use canvas::canvas::Canvas;
use commands::memory::Memory;
use dense::dense::DenseCanvas;
use history::replay::replay;
use pile::pile::Pile;
use sparse::record::CellRecord;
use sparse::sparse::SparseCanvas;
use std::alloc::{AllocError, Global};

fn play<C: Canvas>(
    record: &mut Record,
    symmetry: &Pile,
    canvas: &mut C,
    palette: &[u8],
    output: &mut [u8],
) {
    let drawing = record.drawing.as_mut_slice();
    let viewing = record
        .viewing
        .as_mut()
        .map(|viewing| viewing.as_mut_slice());
    replay(symmetry, canvas, palette, drawing, viewing, output);
}

impl Record<'_> {
    // Fills in the answers of the record's calls, and gives the bytes of its windows.
    pub(crate) fn perform(
        &mut self,
        heap: Global,
        symmetry: &Pile,
        memory: Memory,
        palette: &[u8],
    ) -> Result<Vec<u8>, AllocError> {
        let mut output = vec![in heap; 0u8; self.room]?;
        match memory {
            Memory::Records(count) => {
                let empty = CellRecord { x: 0, y: 0, ink: 0 };
                let mut table = vec![in heap; empty; count]?;
                let mut canvas = SparseCanvas::over(table.as_mut_slice());
                play(self, symmetry, &mut canvas, palette, output.as_mut_slice());
            }
            Memory::Bytes {
                bytes,
                width,
                corner_x,
                corner_y,
            } => {
                let mut table = vec![in heap; 0u8; bytes]?;
                let mut canvas = DenseCanvas::over(table.as_mut_slice(), width, corner_x, corner_y);
                play(self, symmetry, &mut canvas, palette, output.as_mut_slice());
            }
        }
        Ok(output)
    }
}

// The key of a record is its cell, by row, and within a row by column.
ghost use Rattle.std.specs.Prelude.{◌≡◌};
ghost use Rattle.sparse.specs.Records.{cell_keys, record_if, cell_of, ink_of, framed};
ghost use Rattle.canvas.proofs.Recorded.{cells_ordered};

use super::CellRecord;
use plane::cell::Cell;
use shelf::record::Record;

impl Record for CellRecord {
    type Key = Cell;

    ghost keys = { cell_keys };

    ghost total = { cells_ordered cell_of ink_of framed };

    fn key(&self) -> Cell {
        Cell {
            x: i64::from(self.x),
            y: i64::from(self.y),
        }
    }

    fn precedes(first: Cell, second: Cell) -> bool {
        first.precedes(second)
    }
}

impl CellRecord {
    // The record of a cell and an ink, if both coordinates have 32 bits.
    pub(crate) fn of(at: Cell, ink: u8) -> Option<CellRecord>
        ensures { result ≡ record_if at ink }
    {
        let x = i32::try_from(at.x).ok()?;
        let y = i32::try_from(at.y).ok()?;
        Some(CellRecord { x, y, ink })
    }
}

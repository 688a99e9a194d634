// The cells of a window, row by row.
ghost use Rattle.std.specs.Prelude.{◌≡◌};
ghost use Rattle.std.specs.Iterator.{YieldsFirst, item_count};
ghost use Rattle.plane.specs.Rectangles.{cells_from, window_cells};

use super::super::cell::Cell;
use super::Window;
use super::judges::cell_from;
use super::walk::Cells;

impl Window {
    // The cells, row by row.
    pub fn cells(self) -> Cells
        ensures { cells_from result.window.corner result.window.width result.window.height result.column result.row ≡ window_cells self.corner self.width self.height }
    {
        Cells {
            window: self,
            column: 0,
            row: 0,
        }
    }
}

impl Iterator for Cells {
    type Item = Cell;

    ghost next_gives = { YieldsFirst (λ s. cells_from s.window.corner s.window.width s.window.height s.column s.row) };

    ghost remaining = { item_count (λ s. cells_from s.window.corner s.window.width s.window.height s.column s.row) };

    fn next(&mut self) -> Option<Cell> {
        let window = self.window;
        if self.row >= window.height {
            return None;
        }
        let at = cell_from(window.corner, self.column, self.row);
        self.column += 1;
        if self.column == window.width {
            self.column = 0;
            self.row += 1;
        }
        Some(at)
    }
}

// Which rectangles are windows.
ghost use Rattle.std.specs.Prelude.{◌≡◌, ◌≤◌, pos, None, Some, Ok, Err, cond, IfOk, MatchResult, unsigned_abs};
ghost use Rattle.plane.specs.declared.rectangle.RectangleRefused.TheVariants.{Side};
ghost use Rattle.plane.specs.Cells.{Within, all_inside};
ghost use Rattle.plane.specs.Rectangles.{cell_from, rectangle_refusal, window_cells, wrong_side};

use super::super::cell::Cell;
use super::super::rectangle::{Rectangle, RectangleRefused};
use super::Window;

// A side, from 1 to 128.
fn side(n: i64) -> Result<u8, RectangleRefused>
    ensures value { result ≡ cond (wrong_side n) (Err Side) (Ok (unsigned_abs n)) }
    ensures bounds { IfOk result (λ side. (1 ≤ side) × (side ≤ 128)) }
{
    match u8::try_from(n) {
        Ok(side) if 1 <= side && side <= 128 => Ok(side),
        _ => Err(RectangleRefused::Side),
    }
}

// The cell so many columns and rows from a corner.
pub(crate) fn cell_from(corner: Cell, column: u8, row: u8) -> Cell
    requires { Within 4_294_967_295 corner }
    ensures { result ≡ cell_from corner column row }
{
    Cell {
        x: corner.x + i64::from(column),
        y: corner.y + i64::from(row),
    }
}

// Whether every cell of a rectangle is within the span: the corner and the cell opposite to it tell.
fn covers(span: u32, corner: Cell, width: u8, height: u8) -> bool
    requires { (1 ≤ width) × (1 ≤ height) }
    ensures { result ≡ all_inside span (window_cells corner width height) }
{
    corner.is_within(span) && cell_from(corner, width - 1, height - 1).is_within(span)
}

impl Rectangle {
    // The rectangle as a window, or why it is none: first for a side, then for a cell off the span.
    pub fn within(self, span: u32) -> Result<Window, RectangleRefused>
        ensures { MatchResult result (λ w. (rectangle_refusal span self ≡ None) × (w.corner ≡ self.corner) × (pos w.width ≡ self.width) × (pos w.height ≡ self.height)) (λ why. rectangle_refusal span self ≡ Some why) }
    {
        let width = side(self.width)?;
        let height = side(self.height)?;
        if !covers(span, self.corner, width, height) {
            return Err(RectangleRefused::OffSpan);
        }
        Ok(Window {
            corner: self.corner,
            width,
            height,
        })
    }
}

// Laying cells.
ghost use Rattle.std.specs.Prelude.{◌≡◌};
ghost use Rattle.plane.specs.Cells.{AllWithin, Within};
ghost use Rattle.lines.specs.Lines.{line_cells};
ghost use Rattle.canvas.specs.Board.{put_board, put_refusal};
ghost use Rattle.sheet.specs.Laying.{by_canvas, lay_all, lay_answer, lay_board, lay_refusal};
ghost use Rattle.sheet.specs.Strokes.{laying_answer};

use super::mark::Mark;
use super::refusal::{LayRefused, StrokeRefused, StrokeStopped};
use canvas::canvas::Canvas;
use lines::line::Line;
use plane::cell::Cell;
use plane::symmetry::Symmetry;
use views::tints::{clash, tint};

// Puts an ink at a home.
fn put_home<C: Canvas>(canvas: &mut C, home: Cell, ink: u8) -> Result<(), LayRefused>
    ensures answer { result ≡ lay_answer (by_canvas (put_refusal (C.Canvas.board canvas.old) home ink)) }
    ensures after { C.Canvas.board canvas.new ≡ put_board (C.Canvas.board canvas.old) home ink }
{
    canvas.put(home, ink)?;
    Ok(())
}

// Lays a cell within the span.
pub(crate) fn lay<S: Symmetry, C: Canvas>(
    symmetry: &S,
    canvas: &mut C,
    at: Cell,
    mark: Mark,
) -> Result<(), LayRefused>
    requires { Within (S.Symmetry.meaning symmetry.now).span at }
    ensures answer { result ≡ lay_answer (lay_refusal (S.Symmetry.meaning symmetry.now) (C.Canvas.board canvas.old) at mark) }
    ensures after { C.Canvas.board canvas.new ≡ lay_board (S.Symmetry.meaning symmetry.now) (C.Canvas.board canvas.old) at mark }
{
    let Ok(found) = symmetry.fold(at) else {
        unreachable()
    };
    if clash(found.kinds, mark.ink) {
        return Err(LayRefused::Clash);
    }
    put_home(canvas, found.home, tint(found.kinds, mark.ink))
}

// Lays the cells of a line within the span, in order until one stops, and answers how many it laid.
pub(crate) fn lay_line<S: Symmetry, C: Canvas>(
    symmetry: &S,
    canvas: &mut C,
    line: &Line,
    mark: Mark,
) -> Result<u16, StrokeStopped>
    requires { AllWithin (S.Symmetry.meaning symmetry.now).span (line_cells line.now.from line.now.to) }
    ensures answer { result ≡ laying_answer (lay_all (S.Symmetry.meaning symmetry.now) (C.Canvas.board canvas.old) mark (line_cells line.now.from line.now.to)) }
    ensures after { C.Canvas.board canvas.new ≡ (lay_all (S.Symmetry.meaning symmetry.now) (C.Canvas.board canvas.old) mark (line_cells line.now.from line.now.to)).board }
{
    let mut laid = 0;
    for at in line.iter() {
        lay(symmetry, canvas, at, mark).map_err(|why| StrokeStopped {
            refusal: StrokeRefused::from(why),
            laid,
        })?;
        laid += 1;
    }
    Ok(laid)
}

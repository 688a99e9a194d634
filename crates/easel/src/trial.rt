// What two canvases are asked.
ghost use Rattle.std.specs.Prelude.{◌≡◌, not, ◌==◌};
ghost use Rattle.canvas.specs.Board.{put_answer};
ghost use Rattle.easel.specs.Trial.{numbered};

use super::request::Request;
use canvas::canvas::Canvas;
use plane::cell::Cell;

// Puts the ink, and answers the number of the refusal, if it is refused.
pub fn answer<C: Canvas>(canvas: &mut C, request: Request) -> Result<(), u8>
    ensures { result ≡ numbered (put_answer (C.Canvas.board canvas.old) request.at request.ink) }
{
    canvas
        .put(request.at, request.ink)
        .map_err(|why| why.number())
}

// Whether two canvases have different inks at a cell.
pub fn differ<C: Canvas, D: Canvas>(one: &C, other: &D, at: Cell) -> bool
    ensures { result ≡ not ((C.Canvas.board one.now).inks at == (D.Canvas.board other.now).inks at) }
{
    one.look(at) != other.look(at)
}

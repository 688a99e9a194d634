// Making one call of a history. A window writes to its part of the output.
ghost use Rattle.std.specs.Prelude.{◌≡◌};
ghost use Rattle.history.specs.Outright.{draw_answer, draw_board, draw_output, draw_strokes, look_answer, look_output, view_answer, view_output};

use super::calls::{Answer, Drawing, Look, Viewing};
use canvas::canvas::Canvas;
use plane::symmetry::Symmetry;
use sheet::sheet::{ClosedSheet, OpenSheet, Sheet};

// Looks at a sheet.
fn look<T: Sheet, S: Symmetry, C: Canvas>(
    sheet: &T,
    symmetry: &S,
    canvas: &C,
    palette: &[u8],
    look: Look,
    part: &mut [u8],
) -> Answer
    ensures answer { result ≡ look_answer (S.Symmetry.meaning symmetry.now) (C.Canvas.board canvas.now) palette.now look part.old }
    ensures output { part.new ≡ look_output (S.Symmetry.meaning symmetry.now) (C.Canvas.board canvas.now) palette.now look part.old }
{
    match look {
        Look::Show(cell) => Answer::Shown(sheet.show(symmetry, canvas, cell)),
        Look::Window(window) => {
            let inks = &palette[..window.palette.min(palette.len())];
            Answer::Windowed(sheet.window(symmetry, canvas, window.rectangle, inks, part))
        }
    }
}

// Makes a call on an open sheet.
pub(crate) fn draw<S: Symmetry, C: Canvas>(
    sheet: &mut OpenSheet,
    symmetry: &S,
    canvas: &mut C,
    palette: &[u8],
    call: Drawing,
    part: &mut [u8],
) -> Answer
    ensures answer { result ≡ draw_answer (S.Symmetry.meaning symmetry.now) sheet.old.strokes (C.Canvas.board canvas.old) palette.now call part.old }
    ensures sheet { sheet.new.strokes ≡ draw_strokes (S.Symmetry.meaning symmetry.now) sheet.old.strokes (C.Canvas.board canvas.old) call }
    ensures after { C.Canvas.board canvas.new ≡ draw_board (S.Symmetry.meaning symmetry.now) sheet.old.strokes (C.Canvas.board canvas.old) call }
    ensures output { part.new ≡ draw_output (S.Symmetry.meaning symmetry.now) (C.Canvas.board canvas.old) palette.now call part.old }
{
    match call {
        Drawing::Dot { at, ink } => Answer::Stroked(sheet.dot(symmetry, canvas, at, ink)),
        Drawing::Line { from, to, ink } => {
            Answer::Stroked(sheet.line(symmetry, canvas, from, to, ink))
        }
        Drawing::Look(seen) => look(sheet, symmetry, canvas, palette, seen, part),
    }
}

// Makes a call on a closed sheet.
pub(crate) fn view<S: Symmetry, C: Canvas>(
    sheet: &ClosedSheet,
    symmetry: &S,
    canvas: &C,
    palette: &[u8],
    call: Viewing,
    part: &mut [u8],
) -> Answer
    ensures answer { result ≡ view_answer (S.Symmetry.meaning symmetry.now) sheet.now.held sheet.now.strokes (C.Canvas.board canvas.now) palette.now call part.old }
    ensures output { part.new ≡ view_output (S.Symmetry.meaning symmetry.now) (C.Canvas.board canvas.now) palette.now call part.old }
{
    match call {
        Viewing::Look(seen) => look(sheet, symmetry, canvas, palette, seen, part),
        Viewing::Quote => Answer::Quoted(sheet.quote()),
    }
}

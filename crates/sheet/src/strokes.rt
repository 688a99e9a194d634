// Strokes, before a sheet counts them.
ghost use Rattle.std.specs.Prelude.{◌≡◌, ◌<◌, MatchResult, None, Some};
ghost use Rattle.lines.specs.Lines.{line_cells};
ghost use Rattle.plane.specs.Cells.{AllWithin};
ghost use Rattle.sheet.specs.Strokes.{entry_refusal, laid_of, lined, stroke_answer, stroke_refusal, strokes_after, verdict};

use super::laying::lay_line;
use super::mark::Mark;
use super::refusal::{StrokeRefused, StrokeStopped};
use canvas::canvas::Canvas;
use lines::line::Line;
use plane::cell::Cell;
use plane::symmetry::Symmetry;

// Whether a stroke may begin, by all but the number of its cells.
fn admit<S: Symmetry>(
    symmetry: &S,
    strokes: u16,
    from: Cell,
    to: Cell,
    mark: Mark,
) -> Result<(), StrokeRefused>
    ensures { result ≡ verdict (entry_refusal (S.Symmetry.meaning symmetry.now) strokes mark from to) }
{
    if strokes == u16::MAX {
        return Err(StrokeRefused::TooManyStrokes);
    }
    if mark.ink > 15 {
        return Err(StrokeRefused::Ink);
    }
    let span = symmetry.span();
    if !from.is_within(span) || !to.is_within(span) {
        return Err(StrokeRefused::OffSpan);
    }
    Ok(())
}

// The line of a stroke that may begin.
fn begin<S: Symmetry>(
    symmetry: &S,
    strokes: u16,
    from: Cell,
    to: Cell,
    mark: Mark,
) -> Result<Line, StrokeRefused>
    ensures { MatchResult result (λ line. (stroke_refusal (S.Symmetry.meaning symmetry.now) strokes mark from to (line_cells from to) ≡ None) × (line.from ≡ from) × (line.to ≡ to) × AllWithin (S.Symmetry.meaning symmetry.now).span (line_cells from to)) (λ why. stroke_refusal (S.Symmetry.meaning symmetry.now) strokes mark from to (line_cells from to) ≡ Some why) }
{
    admit(symmetry, strokes, from, to, mark)?;
    Ok(Line::between(from, to)?)
}

// Lays a line on a sheet of so many strokes, and answers how many of its cells were laid.
pub(crate) fn draw<S: Symmetry, C: Canvas>(
    symmetry: &S,
    canvas: &mut C,
    strokes: u16,
    from: Cell,
    to: Cell,
    mark: Mark,
) -> Result<u16, StrokeStopped>
    ensures answer { result ≡ stroke_answer (lined (S.Symmetry.meaning symmetry.now) strokes (C.Canvas.board canvas.old) from to mark) }
    ensures after { C.Canvas.board canvas.new ≡ (lined (S.Symmetry.meaning symmetry.now) strokes (C.Canvas.board canvas.old) from to mark).board }
{
    let line = begin(symmetry, strokes, from, to, mark)?;
    lay_line(symmetry, canvas, &line, mark)
}

// How many cells a stroke laid, also where it stopped.
pub(crate) fn laid(drawn: Result<u16, StrokeStopped>) -> u16
    ensures { result ≡ laid_of drawn }
{
    match drawn {
        Ok(laid) => laid,
        Err(stopped) => stopped.laid,
    }
}

// The strokes after one that laid so many cells.
pub(crate) fn strokes_after(strokes: u16, laid: u16) -> u16
    requires { 0 < laid → strokes < 65535 }
    ensures { result ≡ strokes_after strokes laid }
{
    if laid == 0 { strokes } else { strokes + 1 }
}

// Replaying a whole history.
ghost use Rattle.std.specs.Prelude.{◌≡◌, length, Some};
ghost use Rattle.views.specs.Shows.{shown_ink};
ghost use Rattle.ledger.specs.Feeding.{setting};
ghost use Rattle.history.specs.Histories.{Told, drawing_calls};
ghost use Rattle.history.specs.Twins.{Agree, TwinCalls, TwinsAgree, viewing_calls};
ghost use Rattle.history.specs.Passed.{passed, returned};

use super::calls::{Drawn, Viewed};
use super::makes::{draw, view};
use super::rooms::past;
use canvas::canvas::Canvas;
use plane::symmetry::Symmetry;
use sheet::sheet::OpenSheet;

// Opens a sheet on a canvas and makes every call of a history on it, in order, and fills in the answers; then, if there are calls for a closed sheet, closes it and makes those. Each window has its part of the output, after the parts of the windows before it.
pub fn replay<S: Symmetry, C: Canvas>(
    symmetry: &S,
    canvas: &mut C,
    palette: &[u8],
    drawing: &mut [Drawn],
    viewing: Option<&mut [Viewed]>,
    output: &mut [u8],
)
    ensures drawing { drawing_calls drawing.new ≡ drawing_calls drawing.old }
    ensures viewing { viewing_calls (returned viewing.exit) ≡ viewing_calls (passed viewing.entry) }
    ensures told { Told (setting (S.Symmetry.meaning symmetry.now) (C.Canvas.board canvas.old).frame) (C.Canvas.board canvas.old).seats (record { palette = palette.entry.now; before = output.old; after = output.new }) drawing.new (returned viewing.exit) (shown_ink (S.Symmetry.meaning symmetry.now) (C.Canvas.board canvas.new)) }
    ensures twins { TwinsAgree (setting (S.Symmetry.meaning symmetry.now) (C.Canvas.board canvas.old).frame) (C.Canvas.board canvas.old).seats (record { palette = palette.entry.now; before = output.old; after = output.new }) drawing.new (returned viewing.exit) }
{
    let mut sheet = OpenSheet::open(canvas);
    let mut at = 0;
    for drawn in drawing.iter_mut() {
        let end = past(output.len(), at, drawn.call.room());
        let part = &mut output[at..end];
        drawn.answer = Some(draw(&mut sheet, symmetry, canvas, palette, drawn.call, part));
        at = end;
    }
    match viewing {
        None => {
            sheet.leave();
        }
        Some(viewing) => {
            let closed = sheet.close(canvas);
            for viewed in viewing.iter_mut() {
                let end = past(output.len(), at, viewed.call.room());
                let part = &mut output[at..end];
                viewed.answer = Some(view(&closed, symmetry, canvas, palette, viewed.call, part));
                at = end;
            }
            closed.leave();
        }
    }
}

// Replays two histories that close, under one symmetry and each on a canvas of its own. A history and its twin get the same answers and window bytes.
pub fn replay_both<S: Symmetry, C: Canvas>(
    symmetry: &S,
    palette: &[u8],
    canvas: &mut C,
    drawing: &mut [Drawn],
    viewing: &mut [Viewed],
    output: &mut [u8],
    other_canvas: &mut C,
    other_drawing: &mut [Drawn],
    other_viewing: &mut [Viewed],
    other_output: &mut [u8],
)
    ensures { (C.Canvas.board other_canvas.old).frame ≡ (C.Canvas.board canvas.old).frame → (C.Canvas.board other_canvas.old).seats ≡ (C.Canvas.board canvas.old).seats → TwinCalls (setting (S.Symmetry.meaning symmetry.now) (C.Canvas.board canvas.old).frame) (drawing_calls drawing.old) (drawing_calls other_drawing.old) → viewing_calls (Some viewing.old) ≡ viewing_calls (Some other_viewing.old) → length output.old ≡ length other_output.old → Agree (record { palette = palette.entry.now; before = output.old; after = output.new }) drawing.new (Some viewing.new) (record { palette = palette.entry.now; before = other_output.old; after = other_output.new }) other_drawing.new (Some other_viewing.new) }
{
    replay(symmetry, canvas, palette, drawing, Some(viewing), output);
    replay(
        symmetry,
        other_canvas,
        palette,
        other_drawing,
        Some(other_viewing),
        other_output,
    );
}

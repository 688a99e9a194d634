// Writing the pixels of a window.
ghost use Rattle.std.specs.Prelude.{◌≡◌, ◌*◌, ◌≤◌, length};
ghost use Rattle.plane.specs.Cells.{AllWithin, Within};
ghost use Rattle.plane.specs.Rectangles.{window_cells};
ghost use Rattle.views.specs.Shows.{shown_ink};
ghost use Rattle.views.specs.Windows.{colour, pixels, written_over};

use super::super::show::show;
use canvas::canvas::Canvas;
use plane::cell::Cell;
use plane::symmetry::Symmetry;
use plane::window::Window;

// The three bytes of an ink.
fn colour(palette: &[u8; 48], ink: u8) -> [u8; 3]
    requires { ink ≤ 15 }
    ensures { result ≡ colour palette.now ink }
{
    let first = 3 * usize::from(ink);
    [palette[first], palette[first + 1], palette[first + 2]]
}

// The three bytes of a cell within the span.
fn pixel<S: Symmetry, C: Canvas>(symmetry: &S, canvas: &C, at: Cell, palette: &[u8; 48]) -> [u8; 3]
    requires { Within (S.Symmetry.meaning symmetry.now).span at }
    ensures { result ≡ colour palette.now (shown_ink (S.Symmetry.meaning symmetry.now) (C.Canvas.board canvas.now) at) }
{
    let Ok(ink) = show(symmetry, canvas, at) else {
        unreachable()
    };
    colour(palette, ink)
}

// Writes the pixels over the first bytes of an output.
pub(crate) fn put_pixels<S: Symmetry, C: Canvas>(
    symmetry: &S,
    canvas: &C,
    window: Window,
    palette: &[u8; 48],
    output: &mut [u8],
)
    requires within { AllWithin (S.Symmetry.meaning symmetry.now).span (window_cells window.corner window.width window.height) }
    requires room { 3 * (window.width * window.height) ≤ length output.old }
    ensures { output.new ≡ written_over (pixels (S.Symmetry.meaning symmetry.now) (C.Canvas.board canvas.now) palette.now (window_cells window.corner window.width window.height)) output.old }
{
    let mut at = 0;
    for cell in window.cells() {
        output[at..at + 3].copy_from_slice(&pixel(symmetry, canvas, cell, palette));
        at += 3;
    }
}

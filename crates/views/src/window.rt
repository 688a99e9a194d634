// Windows: pictures of the cells of a rectangle.
ghost use Rattle.std.specs.Prelude.{◌≡◌};
ghost use Rattle.views.specs.Windows.{window_answer, window_output};

use super::refusal::WindowRefused;
use canvas::canvas::Canvas;
use plane::rectangle::Rectangle;
use plane::symmetry::Symmetry;

mod bytes;
mod pixels;
mod sizes;

// Writes a binary PPM picture of the cells of a rectangle, and answers how many bytes it has.
pub fn window<S: Symmetry, C: Canvas>(
    symmetry: &S,
    canvas: &C,
    rectangle: Rectangle,
    palette: &[u8],
    output: &mut [u8],
) -> Result<usize, WindowRefused>
    ensures answer { result ≡ window_answer (S.Symmetry.meaning symmetry.now) rectangle.corner rectangle.width rectangle.height palette.now output.old }
    ensures output { output.new ≡ window_output (S.Symmetry.meaning symmetry.now) (C.Canvas.board canvas.now) rectangle.corner rectangle.width rectangle.height palette.now output.old }
{
    let window = rectangle.within(symmetry.span())?;
    let Ok(palette) = <&[u8; 48]>::try_from(palette) else {
        return Err(WindowRefused::Palette);
    };
    let size = sizes::picture_size(window.width, window.height);
    if output.len() < size {
        return Err(WindowRefused::Output);
    }
    let start = bytes::put_header(output, window.width, window.height);
    pixels::put_pixels(symmetry, canvas, window, palette, &mut output[start..]);
    Ok(size)
}

// What a canvas shows under a symmetry.
ghost use Rattle.std.specs.Prelude.{◌≡◌};
ghost use Rattle.views.specs.Shows.{shown};

use super::tints::tint;
use canvas::canvas::Canvas;
use plane::cell::Cell;
use plane::fold::FoldRefused;
use plane::symmetry::Symmetry;

// The ink that a cell shows.
pub fn show<S: Symmetry, C: Canvas>(symmetry: &S, canvas: &C, at: Cell) -> Result<u8, FoldRefused>
    ensures { result ≡ shown (S.Symmetry.meaning symmetry.now) (C.Canvas.board canvas.now) at }
{
    let found = symmetry.fold(at)?;
    Ok(tint(found.kinds, canvas.look(found.home)))
}

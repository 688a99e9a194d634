// The classes that meet a window, under any symmetry.
ghost use Rattle.std.specs.Prelude.{◌≡◌, [], IfOk, MatchResult, OnOk, OnErr};
ghost use Rattle.plane.specs.Cells.{AllWithin, Within, same};
ghost use Rattle.plane.specs.Rectangles.{window_cells};
ghost use Rattle.groups.specs.Lists.{some};
ghost use Rattle.census.specs.Windows.{Met, Refuses, met, noted};

pub use super::fault::WindowFault;
use plane::cell::Cell;
use plane::rectangle::Rectangle;
use plane::symmetry::Symmetry;
use plane::window::Window;
use std::alloc::{AllocError, Global};

// Whether a cell is in the list.
fn is_listed(homes: &[Cell], home: Cell) -> bool
    ensures { result ≡ some (same home) homes.now }
{
    for other in homes {
        if home.x == other.x && home.y == other.y {
            return true;
        }
    }
    false
}

// Adds the home of a cell to the list, unless it is there.
fn note<S: Symmetry>(symmetry: &S, at: Cell, homes: &mut Vec<Cell>) -> Result<(), AllocError>
    requires { Within (S.Symmetry.meaning symmetry.now).span at }
    ensures { OnOk result (homes.new.items ≡ noted homes.old.items ((S.Symmetry.meaning symmetry.now).home at)) }
{
    if let Ok(fold) = symmetry.fold(at) {
        if !is_listed(homes, fold.home) {
            homes.push(fold.home)?;
        }
    }
    Ok(())
}

// Gathers the homes of the cells of a window that lies in the span.
fn gather<S: Symmetry>(heap: Global, symmetry: &S, window: Window) -> Result<Vec<Cell>, AllocError>
    requires { AllWithin (S.Symmetry.meaning symmetry.now).span (window_cells window.corner window.width window.height) }
    ensures { IfOk result (λ v. v.items ≡ met (S.Symmetry.meaning symmetry.now).home [] (window_cells window.corner window.width window.height)) }
{
    let mut homes = Vec::new(heap);
    for at in window.cells() {
        note(symmetry, at, &mut homes)?;
    }
    Ok(homes)
}

// The homes of the cells of a window, each once, in the order in which they are met row by row: one for each class that meets the window.
pub fn classes<S: Symmetry>(
    heap: Global,
    symmetry: &S,
    rectangle: Rectangle,
) -> Result<Vec<Cell>, WindowFault>
    ensures { MatchResult result (λ v. Met (S.Symmetry.meaning symmetry.now) rectangle.corner rectangle.width rectangle.height v.items) (λ e. Refuses (S.Symmetry.meaning symmetry.now) rectangle.corner rectangle.width rectangle.height e) }
{
    let window = rectangle.within(symmetry.span())?;
    Ok(gather(heap, symmetry, window)?)
}

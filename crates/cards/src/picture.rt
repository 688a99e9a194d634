// The classes that meet a window, as a picture in text.
ghost use Rattle.std.specs.Prelude.{◌≡◌, ◌≤◌, List, length, MatchResult};
ghost use Rattle.plane.specs.declared.cell.Cell.{Cell as PlaneCell};
ghost use Rattle.census.specs.Windows.{Met, Refuses};

use census::fault::WindowFault;
use census::windows::classes;
use plane::cell::Cell;
use plane::rectangle::Rectangle;
use plane::symmetry::Symmetry;
use plane::window::Window;
use std::alloc::{AllocError, Global};
use std::fmt;

// What the classes show, in their order; after the last mark the first one comes again.
const MARKS: &[u8; 62] = b"0123456789abcdefghijklmnopqrstuvwxyzABCDEFGHIJKLMNOPQRSTUVWXYZ";

// The widest window that is drawn.
const WIDEST: u8 = 32;

#[derive(Drop)]
pub struct Picture {
    // How many classes meet the window.
    pub count: usize,
    width: usize,
    // What each cell shows, row by row; nothing if the window is too wide to be drawn.
    marks: Vec<u8>,
}

// The mark of a home among the homes of the window.
fn mark(homes: &[Cell], home: Cell) -> u8 {
    let class = homes.iter().position(|other| *other == home);
    class.map_or(b'?', |class| MARKS[class % 62])
}

// The marks of the cells of a window.
fn marks<S: Symmetry>(
    heap: Global,
    symmetry: &S,
    homes: &[Cell],
    window: Window,
) -> Result<Vec<u8>, AllocError> {
    let mut marks = Vec::new(heap);
    if window.width > WIDEST {
        return Ok(marks);
    }
    for at in window.cells() {
        if let Ok(fold) = symmetry.fold(at) {
            marks.push(mark(homes, fold.home))?;
        }
    }
    Ok(marks)
}

impl Picture {
    // The picture of a window under a symmetry, with the count of its classes.
    pub fn of<S: Symmetry>(
        heap: Global,
        symmetry: &S,
        rectangle: Rectangle,
    ) -> Result<Picture, WindowFault>
        ensures { MatchResult result (λ p. (hs : List PlaneCell) × Met (S.Symmetry.meaning symmetry.now) rectangle.corner rectangle.width rectangle.height hs × (length hs ≡ p.count)) (λ e. Refuses (S.Symmetry.meaning symmetry.now) rectangle.corner rectangle.width rectangle.height e) }
    {
        let homes = classes(heap, symmetry, rectangle)?;
        let window = rectangle.within(symmetry.span())?;
        let marks = marks(heap, symmetry, homes.as_slice(), window)?;
        Ok(Picture {
            count: homes.len(),
            width: usize::from(window.width),
            marks,
        })
    }
}

impl fmt::Display for Picture {
    fn fmt<W: fmt::Write>(&self, f: &mut fmt::Formatter<W>) -> fmt::Result {
        for row in self.marks.chunks(self.width.max(1)) {
            write!(f, "\n  ")?;
            for mark in row {
                let shown = char::from(*mark);
                write!(f, "{shown}")?;
            }
        }
        Ok(())
    }
}

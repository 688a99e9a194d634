// Open and closed sheets. A canvas and a symmetry are given at each call.
ghost use Rattle.std.specs.Prelude.{◌≡◌};
ghost use Rattle.canvas.specs.Board.{cleared};
ghost use Rattle.views.specs.Shows.{shown};
ghost use Rattle.views.specs.Windows.{window_answer, window_output};

use canvas::canvas::Canvas;
use plane::cell::Cell;
use plane::fold::FoldRefused;
use plane::rectangle::Rectangle;
use plane::symmetry::Symmetry;
use views::refusal::WindowRefused;
use views::{show, window};

mod opened;

// What every sheet allows: shows and windows.
pub trait Sheet {
    // The ink that a cell shows.
    fn show<S: Symmetry, C: Canvas>(
        &self,
        symmetry: &S,
        canvas: &C,
        at: Cell,
    ) -> Result<u8, FoldRefused>
        ensures { result ≡ shown (S.Symmetry.meaning symmetry.now) (C.Canvas.board canvas.now) at }
    {
        show::show(symmetry, canvas, at)
    }

    // Writes a binary PPM picture of the cells of a rectangle, and answers how many bytes it has.
    fn window<S: Symmetry, C: Canvas>(
        &self,
        symmetry: &S,
        canvas: &C,
        rectangle: Rectangle,
        palette: &[u8],
        output: &mut [u8],
    ) -> Result<usize, WindowRefused>
        ensures answer { result ≡ window_answer (S.Symmetry.meaning symmetry.now) rectangle.corner rectangle.width rectangle.height palette.now output.old }
        ensures output { output.new ≡ window_output (S.Symmetry.meaning symmetry.now) (C.Canvas.board canvas.now) rectangle.corner rectangle.width rectangle.height palette.now output.old }
    {
        window::window(symmetry, canvas, rectangle, palette, output)
    }
}

// A sheet that takes strokes. It is neither copied nor dropped.
pub struct OpenSheet {
    strokes: u16,
}

// A sheet that takes no more strokes, with the number of held cells and of strokes as at closing. It is neither copied nor dropped.
pub struct ClosedSheet {
    held: u32,
    strokes: u16,
}

// What a closed sheet quotes.
#[derive(Clone, Copy, PartialEq, Eq, Debug)]
pub struct Quote {
    pub held: u32,
    pub strokes: u16,
}

impl Sheet for OpenSheet {}

impl Sheet for ClosedSheet {}

impl OpenSheet {
    // Clears the canvas and opens a sheet with no strokes.
    pub fn open<C: Canvas>(canvas: &mut C) -> OpenSheet
        ensures sheet { result ≡ record { strokes = 0 } }
        ensures after { C.Canvas.board canvas.new ≡ cleared (C.Canvas.board canvas.old) }
    {
        canvas.clear();
        OpenSheet { strokes: 0 }
    }

    // Closes the sheet, with what the canvas holds.
    pub fn close<C: Canvas>(self, canvas: &C) -> ClosedSheet
        ensures { result ≡ record { held = (C.Canvas.board canvas.now).held; strokes = self.strokes } }
    {
        let OpenSheet { strokes } = self;
        ClosedSheet {
            held: canvas.held(),
            strokes,
        }
    }

    // Lets the sheet go, and answers how many strokes it had.
    pub fn leave(self) -> u16
        ensures { result ≡ self.strokes }
    {
        let OpenSheet { strokes: had } = self;
        had
    }
}

impl ClosedSheet {
    // The number of held cells and of strokes, both as at closing.
    pub fn quote(&self) -> Quote
        ensures { result ≡ record { held = self.now.held; strokes = self.now.strokes } }
    {
        Quote {
            held: self.held,
            strokes: self.strokes,
        }
    }

    // Lets the sheet go, with a last quote.
    pub fn leave(self) -> Quote
        ensures { result ≡ record { held = self.held; strokes = self.strokes } }
    {
        let ClosedSheet { held, strokes } = self;
        Quote { held, strokes }
    }
}

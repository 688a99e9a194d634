// What an open sheet takes: strokes.
ghost use Rattle.std.specs.Prelude.{◌≡◌};
ghost use Rattle.sheet.specs.Laying.{marked};
ghost use Rattle.sheet.specs.Strokes.{dotted, lined, stroke_answer};

use super::super::mark::Mark;
use super::super::refusal::StrokeStopped;
use super::super::strokes::{draw, laid, strokes_after};
use super::OpenSheet;
use canvas::canvas::Canvas;
use plane::cell::Cell;
use plane::symmetry::Symmetry;

impl OpenSheet {
    // Lays a cell with an ink, and answers how many cells were laid. A dot is the line from its cell to itself.
    pub fn dot<S: Symmetry, C: Canvas>(
        &mut self,
        symmetry: &S,
        canvas: &mut C,
        at: Cell,
        ink: u8,
    ) -> Result<u16, StrokeStopped>
        ensures answer { result ≡ stroke_answer (dotted (S.Symmetry.meaning symmetry.now) self.old.strokes (C.Canvas.board canvas.old) at (marked ink)) }
        ensures sheet { self.new.strokes ≡ (dotted (S.Symmetry.meaning symmetry.now) self.old.strokes (C.Canvas.board canvas.old) at (marked ink)).strokes }
        ensures after { C.Canvas.board canvas.new ≡ (dotted (S.Symmetry.meaning symmetry.now) self.old.strokes (C.Canvas.board canvas.old) at (marked ink)).board }
    {
        self.line(symmetry, canvas, at, at, ink)
    }

    // Lays the cells from one cell to another with an ink, and answers how many were laid.
    pub fn line<S: Symmetry, C: Canvas>(
        &mut self,
        symmetry: &S,
        canvas: &mut C,
        from: Cell,
        to: Cell,
        ink: u8,
    ) -> Result<u16, StrokeStopped>
        ensures answer { result ≡ stroke_answer (lined (S.Symmetry.meaning symmetry.now) self.old.strokes (C.Canvas.board canvas.old) from to (marked ink)) }
        ensures sheet { self.new.strokes ≡ (lined (S.Symmetry.meaning symmetry.now) self.old.strokes (C.Canvas.board canvas.old) from to (marked ink)).strokes }
        ensures after { C.Canvas.board canvas.new ≡ (lined (S.Symmetry.meaning symmetry.now) self.old.strokes (C.Canvas.board canvas.old) from to (marked ink)).board }
    {
        let drawn = draw(symmetry, canvas, self.strokes, from, to, Mark { ink });
        self.strokes = strokes_after(self.strokes, laid(drawn));
        drawn
    }
}

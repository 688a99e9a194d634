// What a canvas is.
ghost use Rattle.std.specs.Prelude.{◌≡◌};
ghost use Rattle.canvas.specs.Board.{Board, BoardLaws, cleared, put_answer, put_board};

use super::refusal::PutRefused;
use plane::cell::Cell;

// A canvas keeps an ink for each cell of its frame, for as many cells as it has seats.
pub trait Canvas {
    // The ink of each cell, the frame, the seats, and how many cells are held.
    ghost board: { Self → Board };

    // What holds of every board.
    ghost laws: { (c : Self) → BoardLaws (board c) };

    // The ink of a cell, 0 if it has none.
    fn look(&self, at: Cell) -> u8
        ensures { result ≡ (board self.now).inks at };

    // Gives a cell an ink. Ink 0 frees its seat.
    fn put(&mut self, at: Cell, ink: u8) -> Result<(), PutRefused>
        ensures answer { result ≡ put_answer (board self.old) at ink }
        ensures after { board self.new ≡ put_board (board self.old) at ink };

    // How many cells are held.
    fn held(&self) -> u32
        ensures { result ≡ (board self.now).held };

    // Frees every seat.
    fn clear(&mut self)
        ensures { board self.new ≡ cleared (board self.old) };
}

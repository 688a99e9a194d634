// A dense canvas is a canvas.
ghost use Rattle.std.specs.Prelude.{◌≡◌, ◌+◌, ◌^◌, ◌<◌};
ghost use Rattle.canvas.specs.Board.{cleared, held_after, put_answer, put_board};
ghost use Rattle.dense.specs.Dense.{dense_board, dense_laws, later_bytes};

use super::DenseCanvas;
use super::makes::wipe;
use canvas::canvas::Canvas;
use canvas::refusal::PutRefused;
use plane::cell::Cell;

impl<'a> Canvas for DenseCanvas<'a> {
    ghost board = { dense_board };

    ghost laws = { dense_laws };

    fn look(&self, at: Cell) -> u8 {
        self.area.place(at).map_or(0, |i| self.bytes[i])
    }

    fn put(&mut self, at: Cell, ink: u8) -> Result<(), PutRefused>
        ensures answer { result ≡ put_answer (dense_board self.old) at ink }
        ensures after { dense_board self.new ≡ put_board (dense_board self.old) at ink }
        ensures rest { later_bytes self.new ≡ later_bytes self.old }
    {
        if ink > 15 {
            return Err(PutRefused::Ink);
        }
        let i = self.area.place(at).ok_or(PutRefused::Frame)?;
        let bytes = &mut *self.bytes;
        self.held = recount(bytes[i], ink, self.held);
        bytes[i] = ink;
        Ok(())
    }

    fn held(&self) -> u32 {
        self.held
    }

    fn clear(&mut self)
        ensures after { dense_board self.new ≡ cleared (dense_board self.old) }
        ensures rest { later_bytes self.new ≡ later_bytes self.old }
    {
        wipe(self.bytes, self.area.size());
        self.held = 0;
    }
}

// How many are held once the ink `old` of a cell has become `new`.
fn recount(old: u8, new: u8, held: u32) -> u32
    requires { held + 1 < 2 ^ 32 }
    ensures { result ≡ held_after old new held }
{
    match (old, new) {
        (0, 0) => held,
        (0, _) => held + 1,
        (_, 0) => held.saturating_sub(1),
        _ => held,
    }
}

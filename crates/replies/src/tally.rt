// What a run did.
use std::fmt;

#[derive(Clone, Copy, Default)]
pub struct Tally {
    pub answers: u64,
    pub refusals: u64,
    pub puzzles: u64,
}

// A command is answered or refused; any other line is a puzzle.
pub trait Count {
    fn answered(&mut self);

    fn refused(&mut self);

    fn puzzled(&mut self);
}

impl Count for Tally {
    fn answered(&mut self) {
        self.answers = self.answers.saturating_add(1);
    }

    fn refused(&mut self) {
        self.refusals = self.refusals.saturating_add(1);
    }

    fn puzzled(&mut self) {
        self.puzzles = self.puzzles.saturating_add(1);
    }
}

impl fmt::Display for Tally {
    fn fmt<W: fmt::Write>(&self, f: &mut fmt::Formatter<W>) -> fmt::Result {
        let answers = self.answers;
        let refusals = self.refusals;
        let puzzles = self.puzzles;
        let commands = answers.saturating_add(refusals);
        write!(
            f,
            "{commands} commands: {answers} answers, {refusals} refusals; {puzzles} lines not understood"
        )
    }
}

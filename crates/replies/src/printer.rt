// Printing questions with their answers, and what is wrong with other lines.
use super::questions::Ask;
use super::reply::Unanswered;
use super::tally::{Count, Tally};
use commands::command::Question;
use commands::trouble::Trouble;
use std::io;

// Prints to standard output, and counts what it prints.
#[derive(Drop)]
pub struct Printer<'r> {
    pub rt: &'r HostRuntime,
    pub tally: Tally,
    // The list of commands that a call for help is answered with.
    pub help: &'static str,
}

pub trait Print {
    // A question with its answer.
    fn question(&mut self, text: &str, question: Question) -> io::Result<()>;
    // What is wrong with a line.
    fn trouble(&mut self, number: u64, trouble: Trouble) -> io::Result<()>;
    // A line that is not text.
    fn no_text(&mut self, number: u64) -> io::Result<()>;
}

impl Print for Printer<'_> {
    fn question(&mut self, text: &str, question: Question) -> io::Result<()> {
        match question.reply(self.rt.alloc(), self.help) {
            Ok(reply) => {
                self.tally.answered();
                println!(self.rt; "{text} {reply}")
            }
            Err(why) => {
                self.tally.refused();
                let unanswered = Unanswered(why);
                println!(self.rt; "{text} {unanswered}")
            }
        }
    }

    fn trouble(&mut self, number: u64, trouble: Trouble) -> io::Result<()> {
        self.tally.puzzled();
        println!(self.rt; "line {number}: {trouble}")
    }

    fn no_text(&mut self, number: u64) -> io::Result<()> {
        self.tally.puzzled();
        println!(self.rt; "line {number}: not text in UTF-8")
    }
}

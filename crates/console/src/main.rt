// Reads questions from standard input, one a line, and prints each with its answer.
#![tactic(auto)]

use commands::command::{Command, Question, ReadLine};
use commands::trouble::{Fault, Trouble};
use help::HELP;
use replies::printer::{Print, Printer};
use replies::tally::Tally;
use std::alloc::Global;
use std::io;
use std::io::Read;

mod help;

// What the console is asked by.
const COMMANDS: [&str; 6] = ["make", "fold", "reduce", "classes", "card", "help"];

// Whether a line begins with a command that the console knows.
fn is_known(line: &str) -> bool {
    COMMANDS.iter().any(|name| match line.strip_prefix(*name) {
        Some(rest) => rest.is_empty() || rest.starts_with(' '),
        None => false,
    })
}

// The question that a line asks, if it is neither empty nor a remark.
fn read(heap: Global, line: &str) -> Result<Option<Question>, Trouble> {
    if line.is_empty() || line.starts_with('#') {
        return Ok(None);
    }
    if !is_known(line) {
        return Err(Trouble {
            field: 1,
            what: Fault::UnknownCommand,
        });
    }
    match Command::read_line(heap, line)? {
        Command::Question(question) => Ok(Some(question)),
        _ => Ok(None),
    }
}

// Reads a line and prints what it is answered.
fn run(printer: &mut Printer, number: u64, bytes: &[u8]) -> io::Result<()> {
    let Ok(line) = std::str::from_utf8(bytes) else {
        return printer.no_text(number);
    };
    match read(printer.rt.alloc(), line) {
        Ok(Some(question)) => printer.question(line, question),
        Ok(None) => Ok(()),
        Err(trouble) => printer.trouble(number, trouble),
    }
}

fn main(rt: HostRuntime) -> io::Result<()> {
    let mut input = Vec::new(rt.alloc());
    rt.stdin().read_to_end(&mut input)?;
    let mut printer = Printer {
        rt: &rt,
        tally: Tally::default(),
        help: HELP,
    };
    for (number, line) in (1..u64::MAX).zip(input.as_slice().split(|byte| *byte == b'\n')) {
        run(&mut printer, number, line)?;
    }
    let tally = printer.tally;
    println!(rt; "{tally}")
}

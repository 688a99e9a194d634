// A whole run.
use super::help::HELP;
use super::job::Job;
use super::line::Line;
use super::teller::Teller;
use commands::command::{Command, ReadLine};
use replies::printer::Printer;
use replies::tally::Tally;
use std::alloc::Global;
use std::io;
use std::io::Read;

pub trait Console {
    // Reads commands from standard input, one a line, prints each with its answer, and at the end what was done in all.
    fn run_console(&self) -> io::Result<()>;
}

// White, and fifteen dyes that are easily told apart.
const PALETTE: [u8; 48] = [
    255, 255, 255, 29, 53, 87, 230, 57, 70, 69, 123, 157, 244, 162, 97, 42, 157, 143, 231, 111, 81,
    38, 70, 83, 233, 196, 106, 106, 76, 147, 138, 201, 38, 25, 130, 196, 255, 202, 58, 255, 89, 94,
    0, 109, 119, 20, 20, 30,
];

fn read(heap: Global, bytes: &[u8]) -> Option<Command> {
    let text = std::str::from_utf8(bytes).ok()?;
    Command::read_line(heap, text).ok()
}

fn run_line<'a>(teller: &mut Teller, line: Line<'a>, job: &mut Job<'a>) -> io::Result<()> {
    // a remark may hold any bytes
    if line.bytes.starts_with(b"#") {
        return Ok(());
    }
    match read(teller.printer.rt.alloc(), line.bytes) {
        Some(Command::Nothing) => Ok(()),
        Some(Command::Setting(setting)) => job.set(teller, line, setting),
        Some(Command::Call(call)) => job.call(teller, line, call),
        _ => job.other(teller, line),
    }
}

fn run_lines(teller: &mut Teller, input: &[u8]) -> io::Result<()> {
    let mut job = Job::new(PALETTE);
    for (number, bytes) in (1..u64::MAX).zip(input.split(|byte| *byte == b'\n')) {
        run_line(teller, Line { number, bytes }, &mut job)?;
    }
    job.end(teller)
}

impl Console for HostRuntime {
    fn run_console(&self) -> io::Result<()> {
        let mut input = Vec::new(self.alloc());
        self.stdin().read_to_end(&mut input)?;
        let mut teller = Teller {
            printer: Printer {
                rt: self,
                tally: Tally::default(),
                help: HELP,
            },
        };
        run_lines(&mut teller, input.as_slice())?;
        let tally = teller.printer.tally;
        println!(self; "{tally}")
    }
}

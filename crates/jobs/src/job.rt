// A drawing job: what its sheets are drawn with, and the record of the sheet that is open.
use super::line::Line;
use super::record::{Kept, OutOfTurn, Part, Record};
use super::teller::{Heading, Teller};
use commands::call::Call;
use commands::command::Setting;
use commands::memory::Memory;
use commands::symmetry::{Description, Make};
use groups::tabled::Tabled;
use history::calls::Viewed;
use pile::pile::Pile;
use replies::refusal::Refusal;
use std::io;

#[derive(Drop)]
pub struct Job<'a> {
    symmetry: Option<Subject<'a>>,
    memory: Option<Memory>,
    palette: [u8; 48],
    sheet: Option<Record<'a>>,
}

// A symmetry as it was described.
#[derive(Drop)]
struct Subject<'a> {
    pile: Pile,
    // The plane group that it is, if it is one with no layers.
    group: Option<Tabled>,
    line: Line<'a>,
}

impl<'a> Subject<'a> {
    fn heading(&self) -> Heading<'a> {
        match self.group {
            Some(group) => Heading::Group {
                symbol: group.symbol(),
                p: group.p(),
                q: group.q(),
            },
            None => {
                let text = self.line.text();
                Heading::Description(text.strip_prefix("symmetry ").unwrap_or(text))
            }
        }
    }
}

// Prints the lines of a record: each call with its answer, which only want of memory leaves out.
fn tell(teller: &mut Teller, record: &Record, output: &[u8], heading: Heading) -> io::Result<()> {
    let closed: &[Viewed] = record
        .viewing
        .as_ref()
        .map_or(&[], |viewing| viewing.as_slice());
    let mut drawn = record.drawing.as_slice().iter();
    let mut viewed = closed.iter();
    let mut rest = output;
    for kept in &record.lines {
        let Kept { line, part } = *kept;
        let (answer, sight) = match part {
            Part::Drawn(sight) => (drawn.next().and_then(|call| call.answer), sight),
            Part::Viewed(sight) => (viewed.next().and_then(|call| call.answer), sight),
            Part::Close => {
                teller.accepted(line)?;
                continue;
            }
            Part::OutOfTurn(why) => {
                teller.out_of_turn(line, why)?;
                continue;
            }
            Part::Other => {
                teller.other(line)?;
                continue;
            }
        };
        let (given, later) = rest.split_at(sight.room.min(rest.len()));
        rest = later;
        match answer {
            Some(answer) => teller.answered(line, answer, sight, given, heading)?,
            None => teller.no_memory(line)?,
        }
    }
    Ok(())
}

impl<'a> Job<'a> {
    // A job that is drawn with nothing yet but a palette.
    pub(crate) fn new(palette: [u8; 48]) -> Job<'a> {
        Job {
            symmetry: None,
            memory: None,
            palette,
            sheet: None,
        }
    }

    // Makes the calls of a record, and prints its lines.
    fn perform(&self, teller: &mut Teller, mut record: Record<'a>) -> io::Result<()> {
        let heap = teller.printer.rt.alloc();
        // a sheet is opened with both
        let (Some(subject), Some(memory)) = (&self.symmetry, self.memory) else {
            return Ok(());
        };
        let heading = subject.heading();
        match record.perform(heap, &subject.pile, memory, &self.palette) {
            Ok(output) => tell(teller, &record, output.as_slice(), heading),
            Err(_) => tell(teller, &record, &[], heading),
        }
    }

    fn set_symmetry(
        &mut self,
        teller: &mut Teller,
        line: Line<'a>,
        description: Description,
    ) -> io::Result<()> {
        self.symmetry = None;
        match description.make(teller.printer.rt.alloc()) {
            Ok(pile) => {
                let group = description.group();
                self.symmetry = Some(Subject { pile, group, line });
                teller.accepted(line)
            }
            Err(why) => teller.refused(line, Refusal::from(why)),
        }
    }

    fn open(&mut self, teller: &mut Teller, line: Line<'a>) -> io::Result<()> {
        if self.symmetry.is_none() || self.memory.is_none() {
            return teller.out_of_turn(line, OutOfTurn::NotReady);
        }
        self.sheet = Some(Record::begin(teller.printer.rt.alloc()));
        teller.accepted(line)
    }

    // Ends the sheet, if there is one: makes its calls and prints its lines.
    pub(crate) fn end(&mut self, teller: &mut Teller) -> io::Result<()> {
        match self.sheet.take() {
            Some(record) => self.perform(teller, record),
            None => Ok(()),
        }
    }

    // Ends the sheet, and takes what the next one is drawn with, or opens it.
    pub(crate) fn set(
        &mut self,
        teller: &mut Teller,
        line: Line<'a>,
        setting: Setting,
    ) -> io::Result<()> {
        self.end(teller)?;
        match setting {
            Setting::Symmetry(description) => self.set_symmetry(teller, line, description),
            Setting::Canvas(memory) => {
                self.memory = Some(memory);
                teller.accepted(line)
            }
            Setting::Palette(palette) => {
                self.palette = palette;
                teller.accepted(line)
            }
            Setting::Open => self.open(teller, line),
        }
    }

    // Keeps a call for the end of the sheet.
    pub(crate) fn call(
        &mut self,
        teller: &mut Teller,
        line: Line<'a>,
        call: Call,
    ) -> io::Result<()> {
        let Some(record) = &mut self.sheet else {
            return teller.out_of_turn(line, OutOfTurn::NoSheet);
        };
        match record.keep_call(line, call) {
            Ok(()) => Ok(()),
            Err(_) => teller.no_memory(line),
        }
    }

    // Keeps any other line for the end of the sheet, or prints it with its answer where there is no sheet.
    pub(crate) fn other(&mut self, teller: &mut Teller, line: Line<'a>) -> io::Result<()> {
        let Some(record) = &mut self.sheet else {
            return teller.other(line);
        };
        match record.keep_other(line) {
            Ok(()) => Ok(()),
            Err(_) => teller.no_memory(line),
        }
    }
}

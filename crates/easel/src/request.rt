// Lines of the input.
use plane::cell::Cell;
use std::str::FromStr;

// An ink for a cell.
#[derive(Clone, Copy)]
pub struct Request {
    pub at: Cell,
    pub ink: u8,
}

// A column, a row and an ink, in decimal, with nothing after them.
fn read(line: &str) -> Option<Request> {
    let mut words = line.split_whitespace();
    let x = words.next()?.parse::<i64>().ok()?;
    let y = words.next()?.parse::<i64>().ok()?;
    let ink = words.next()?.parse::<u8>().ok()?;
    if words.next().is_some() {
        return None;
    }
    Some(Request {
        at: Cell { x, y },
        ink,
    })
}

// A line that is no request.
#[derive(Clone, Copy)]
pub struct Misread;

impl FromStr for Request {
    type Err = Misread;

    fn from_str(line: &str) -> Result<Request, Misread> {
        read(line).ok_or(Misread)
    }
}

// What is wrong with a line that is no command.
use std::fmt;

// What is wrong, and at which field, counted from 1.
#[derive(Clone, Copy)]
pub struct Trouble {
    pub field: u64,
    pub what: Fault,
}

#[derive(Clone, Copy)]
pub enum Fault {
    UnknownCommand,
    Missing(Wanted),
    Other(Wanted),
    Surplus,
    NoMemory,
}

// What a field has to be.
#[derive(Clone, Copy)]
pub enum Wanted {
    Command,
    Base,
    Layer,
    Colon,
    Symbol,
    Number,
    ShortNumber,
    Ink,
    Size,
    Memory,
    Palette,
    Target,
    Output,
}

impl fmt::Display for Wanted {
    fn fmt<W: fmt::Write>(&self, f: &mut fmt::Formatter<W>) -> fmt::Result {
        let words = match self {
            Wanted::Command => "a command",
            Wanted::Base => "T or O, which begins a base",
            Wanted::Layer => "S, R or C, which begins a layer",
            Wanted::Colon => "a colon",
            Wanted::Symbol => "the symbol of a plane group",
            Wanted::Number => "a whole number of 64 bits",
            Wanted::ShortNumber => "a whole number of 32 bits",
            Wanted::Ink => "an ink, from 0 to 255",
            Wanted::Size => "a number from 0 to 1,000,000",
            Wanted::Memory => "sparse or bytes",
            Wanted::Palette => "96 hexadecimal digits",
            Wanted::Target => "a file or palette=LENGTH",
            Wanted::Output => "output=LENGTH",
        };
        write!(f, "{words}")
    }
}

impl fmt::Display for Trouble {
    fn fmt<W: fmt::Write>(&self, f: &mut fmt::Formatter<W>) -> fmt::Result {
        let field = self.field;
        write!(f, "field {field}: ")?;
        match self.what {
            Fault::UnknownCommand => write!(f, "no command has this name; 'help' lists them"),
            Fault::Missing(wanted) => write!(f, "missing; it has to be {wanted}"),
            Fault::Other(wanted) => write!(f, "not {wanted}"),
            Fault::Surplus => write!(f, "surplus"),
            Fault::NoMemory => write!(f, "no memory to read on"),
        }
    }
}

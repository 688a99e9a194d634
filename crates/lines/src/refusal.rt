// Why a line is refused.
ghost use Rattle.std.specs.Prelude.{◌≡◌};
ghost use Rattle.lines.specs.Refusals.{line_number};

#[derive(Clone, Copy, PartialEq, Eq, Debug)]
pub enum LineRefused {
    // It has more than 4,096 cells.
    TooLong,
}

impl LineRefused {
    // The refusal's number.
    pub fn number(self) -> u8
        ensures { result ≡ line_number self }
    {
        match self {
            LineRefused::TooLong => 6,
        }
    }
}

// The refusals of tabled groups.
ghost use Rattle.std.specs.Prelude.{◌≡◌};
ghost use Rattle.groups.specs.Refusals.{group_number};

// Why a tabled group is refused.
#[derive(Clone, Copy, PartialEq, Eq, Debug)]
pub enum GroupRefused {
    // No plane group has the number or the symbol.
    UnknownGroup,
    // The periods are against the rules of the group.
    WrongPeriods,
}

impl GroupRefused {
    // The refusal's number.
    pub fn number(self) -> u8
        ensures { result ≡ group_number self }
    {
        match self {
            GroupRefused::UnknownGroup => 11,
            GroupRefused::WrongPeriods => 12,
        }
    }
}

// A plane group of the table, by its number.
ghost use Rattle.std.specs.Prelude.{◌≡◌, true, false, MatchOption};
ghost use Rattle.ints.specs.Ranges.{natural};
ghost use Rattle.groups.specs.Rules.{known};

mod periods;
mod symbols;
mod table;

use ints::ranges::from_one_to;

// One of the seventeen plane groups.
#[derive(Clone, Copy)]
pub struct PlaneGroup {
    number: u32,
    ghost listed: { known number ≡ true },
}

impl PlaneGroup {
    // The group with that number.
    pub fn numbered(number: i64) -> Option<PlaneGroup>
        ensures { MatchOption result (known (natural number) ≡ false) (λ group. group.number ≡ natural number) }
    {
        let number = from_one_to(17, number)?;
        Some(PlaneGroup { number })
    }

    // The group's number.
    pub fn number(self) -> u32
        ensures { result ≡ self.number }
    {
        self.number
    }
}

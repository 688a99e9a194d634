// How a tabled group is made, and what it is made of.
ghost use Rattle.std.specs.Prelude.{◌≡◌, length, Some, None, MatchResult};
ghost use Rattle.ints.specs.Ranges.{natural};
ghost use Rattle.groups.specs.Refusals.{refusal};
ghost use Rattle.groups.specs.Symbols.{number_named, symbol_of};
ghost use Rattle.groups.specs.Table.{rows};

use super::super::plane_group::PlaneGroup;
use super::super::rules::GroupRefused;
use super::Tabled;
use ints::ranges::from_one_to;

impl Tabled {
    // A plane group at these periods.
    pub fn of(group: PlaneGroup, p: i64, q: i64) -> Result<Tabled, GroupRefused>
        ensures { MatchResult result (λ s. (refusal group.number (natural p) (natural q) ≡ None) × (s.group ≡ group) × (s.p ≡ natural p) × (s.q ≡ natural q)) (λ e. refusal group.number (natural p) (natural q) ≡ Some e) }
    {
        let p = from_one_to(128, p).ok_or(GroupRefused::WrongPeriods)?;
        let q = from_one_to(128, q).ok_or(GroupRefused::WrongPeriods)?;
        if !group.takes(p, q) {
            return Err(GroupRefused::WrongPeriods);
        }
        Ok(Tabled { group, p, q })
    }

    // The group with that number at these periods.
    pub fn numbered(number: i64, p: i64, q: i64) -> Result<Tabled, GroupRefused>
        ensures { MatchResult result (λ s. (refusal (natural number) (natural p) (natural q) ≡ None) × (s.group.number ≡ natural number) × (s.p ≡ natural p) × (s.q ≡ natural q)) (λ e. refusal (natural number) (natural p) (natural q) ≡ Some e) }
    {
        let group = PlaneGroup::numbered(number).ok_or(GroupRefused::UnknownGroup)?;
        Tabled::of(group, p, q)
    }

    // The group with that symbol at these periods.
    pub fn named(text: &str, p: i64, q: i64) -> Result<Tabled, GroupRefused>
        ensures { MatchResult result (λ s. (refusal (number_named text.now) (natural p) (natural q) ≡ None) × (s.group.number ≡ number_named text.now) × (s.p ≡ natural p) × (s.q ≡ natural q)) (λ e. refusal (number_named text.now) (natural p) (natural q) ≡ Some e) }
    {
        let group = PlaneGroup::named(text).ok_or(GroupRefused::UnknownGroup)?;
        Tabled::of(group, p, q)
    }

    // The group's symbol.
    pub fn symbol(&self) -> &'static str
        ensures { result.now ≡ symbol_of self.now.group.number }
    {
        self.group.symbol()
    }

    // How many positions the group has.
    pub fn positions(&self) -> usize
        ensures { result ≡ length (rows self.now.group.number) }
    {
        self.group.rows().len()
    }

    // The group's number.
    pub fn number(&self) -> u32
        ensures { result ≡ self.now.group.number }
    {
        self.group.number()
    }

    // The period in x.
    pub fn p(&self) -> u32
        ensures { result ≡ self.now.p }
    {
        self.p
    }

    // The period in y.
    pub fn q(&self) -> u32
        ensures { result ≡ self.now.q }
    {
        self.q
    }
}

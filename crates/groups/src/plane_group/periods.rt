// Which periods suit a plane group.
ghost use Rattle.std.specs.Prelude.{◌≡◌, true};
ghost use Rattle.groups.specs.Lists.{some};
ghost use Rattle.groups.specs.Rules.{allowed, period, shifts_x, shifts_y};
ghost use Rattle.groups.specs.Table.{rows};

use super::super::position::Position;
use super::PlaneGroup;

impl PlaneGroup {
    // Whether a position of the group shifts x, and whether one shifts y.
    fn shifts(self) -> (bool, bool)
        ensures x { result.0 ≡ some shifts_x (rows self.number) }
        ensures y { result.1 ≡ some shifts_y (rows self.number) }
    {
        let rows = self.rows();
        (
            rows.iter().any(|row| Position::from(*row).s != 0),
            rows.iter().any(|row| Position::from(*row).t != 0),
        )
    }

    // Whether two periods suit the group.
    pub(crate) fn takes(self, p: u32, q: u32) -> bool
        requires column_period { period p ≡ true }
        requires row_period { period q ≡ true }
        ensures { result ≡ allowed self.number p q }
    {
        let (shifts_x, shifts_y) = self.shifts();
        (self.number < 10 || p == q) && (!shifts_x || p % 2 == 0) && (!shifts_y || q % 2 == 0)
    }
}

// A tabled group: a plane group and its two periods.
ghost use Rattle.std.specs.Prelude.{◌≡◌, true};
ghost use Rattle.groups.specs.Rules.{allowed};

pub mod folds;
mod homes;
pub mod makes;

use super::plane_group::PlaneGroup;

// A plane group with the period `p` in x and `q` in y.
#[derive(Clone, Copy)]
pub struct Tabled {
    group: PlaneGroup,
    p: u32,
    q: u32,
    ghost suited: { allowed group.number p q ≡ true },
}

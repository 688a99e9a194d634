// The census of a tabled group: how many classes its repeat has.
ghost use Rattle.std.specs.Prelude.{◌≡◌, MatchOption, ◌≢◌, pos};
ghost use Rattle.plane.specs.Cells.{Within};
ghost use Rattle.groups.specs.Tabled.{home_in, kinds_in};
ghost use Rattle.census.specs.Census.{Counted, origin};

use groups::tabled::Tabled;
use plane::cell::Cell;
use plane::kinds::Kinds;
use plane::symmetry::Symmetry;
use plane::window::Window;

// How many classes meet a repeat, and how many of them lie on a mirror.
#[derive(Clone, Copy)]
pub struct Census {
    pub classes: u32,
    pub mirrored: u32,
}

// The repeat of a group, from the origin on.
fn repeat(group: &Tabled) -> Window
    ensures { (result.corner ≡ origin) × (result.width ≡ group.now.p) × (result.height ≡ group.now.q) }
{
    Window {
        corner: Cell { x: 0, y: 0 },
        width: group.p() as u8,
        height: group.q() as u8,
    }
}

// The kinds of a cell that is its own home.
fn own_kinds(group: &Tabled, at: Cell) -> Option<Kinds>
    requires { Within 1_000_000 at }
    ensures { MatchOption result (home_in group.now.group.number group.now.p group.now.q at ≢ at) (λ k. (home_in group.now.group.number group.now.p group.now.q at ≡ at) × (k ≡ kinds_in group.now.group.number group.now.p group.now.q at)) }
{
    let fold = group.fold(at).ok()?;
    if fold.home == at {
        Some(fold.kinds)
    } else {
        None
    }
}

impl Census {
    // The census of a group's repeat: each class has one cell there that is its own home.
    pub fn of(group: &Tabled) -> Census
        ensures { Counted group.now.group.number group.now.p group.now.q result.classes result.mirrored }
    {
        let mut classes = 0;
        let mut mirrored = 0;
        for at in repeat(group).cells() {
            if let Some(kinds) = own_kinds(group, at) {
                classes += 1;
                if kinds.on_mirror() {
                    mirrored += 1;
                }
            }
        }
        Census { classes, mirrored }
    }
}

// A pile of layers over a base.
ghost use Rattle.std.specs.Prelude.{◌≡◌, true};
ghost use Rattle.pile.specs.Base.{based};
ghost use Rattle.pile.specs.Levels.{levelled};

use super::base::Base;
use super::levels::Level;

pub mod folds;
pub mod makes;

// A base, and layers over it, the lowest first.
#[derive(Drop)]
pub struct Pile {
    base: Base,
    levels: Vec<Level>,
    // Each level holds the extent of what is below it.
    ghost level: { levelled levels.items (based base) ≡ true },
}

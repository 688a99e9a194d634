// The dye book.
ghost use Rattle.std.specs.Prelude.{◌≤◌, length};
ghost use Rattle.shelf.specs.Held.{held};
ghost use Rattle.dyes.specs.Inks.{Each, Numbered};

use super::record::DyeRecord;
use shelf::shelf::Shelf;

// Names with their inks on a shelf, in the order of the names. The inks are 1 up to the number of names, each of one name.
#[derive(Drop)]
pub struct DyeBook<'a> {
    shelf: Shelf<'a, DyeRecord>,
    ghost numbered: { Numbered (held shelf) },
    ghost each: { Each (held shelf) },
    ghost few: { length (held shelf) ≤ 15 },
}

pub mod calls;

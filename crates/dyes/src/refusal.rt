// Why the dye book refuses a name.
ghost use Rattle.std.specs.Prelude.{◌≡◌};
ghost use Rattle.dyes.specs.Refusals.{dye_number, from_shelf};

use shelf::refusal::ShelfRefused;

#[derive(Clone, Copy, PartialEq, Eq, Debug)]
pub enum DyeRefused {
    // The name is not one to eight letters a to z.
    Malformed,
    // The name is new, and there are 15 names, or as many as the table has records.
    Full,
}

impl DyeRefused {
    // The refusal's number.
    pub fn number(self) -> u8
        ensures { result ≡ dye_number self }
    {
        match self {
            DyeRefused::Malformed => 17,
            DyeRefused::Full => 18,
        }
    }
}

// A full shelf is a full book.
impl From<ShelfRefused> for DyeRefused {
    ghost from_gives = { λ why r. r ≡ from_shelf why };

    fn from(why: ShelfRefused) -> DyeRefused {
        match why {
            ShelfRefused::Full => DyeRefused::Full,
        }
    }
}

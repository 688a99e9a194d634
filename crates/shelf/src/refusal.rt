// Why a shelf refuses a record.
ghost use Rattle.std.specs.Prelude.{◌≡◌};
ghost use Rattle.shelf.specs.Refusals.{shelf_number};

#[derive(Clone, Copy, PartialEq, Eq, Debug)]
pub enum ShelfRefused {
    // The key is new, and every record of the table is in use.
    Full,
}

impl ShelfRefused {
    // The refusal's number.
    pub fn number(self) -> u8
        ensures { result ≡ shelf_number self }
    {
        match self {
            ShelfRefused::Full => 5,
        }
    }
}

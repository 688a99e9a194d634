// The key of a record is its name, in the order of its bytes.
ghost use Rattle.std.specs.Prelude.{◌≡◌};
ghost use Rattle.dyes.specs.Records.{blank_record, dye_keys};
ghost use Rattle.dyes.specs.Ordering.{names_ordered};

use super::super::name::DyeName;
use super::DyeRecord;
use shelf::record::Record;

impl Record for DyeRecord {
    type Key = DyeName;

    ghost keys = { dye_keys };

    ghost total = { names_ordered };

    fn key(&self) -> DyeName {
        self.name
    }

    fn precedes(first: DyeName, second: DyeName) -> bool {
        first.precedes(second)
    }
}

impl DyeRecord {
    // A record for a table before its use: no name and no ink.
    pub fn blank() -> DyeRecord
        ensures { result ≡ blank_record }
    {
        DyeRecord {
            name: DyeName::blank(),
            ink: 0,
        }
    }
}

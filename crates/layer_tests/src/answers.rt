// What a case expects of a fold.
ghost use Rattle.std.specs.Prelude.{◌≡◌, Ok};

use plane::cell::Cell;
use plane::fold::{Fold, FoldRefused};
use plane::kinds::Kinds;

// Kind 0 alone.
pub const EVEN: Kinds = Kinds {
    even_proper: true,
    even_improper: false,
    odd_proper: false,
    odd_improper: false,
};

// Kind 3 alone.
pub const ODD: Kinds = Kinds {
    even_proper: false,
    even_improper: false,
    odd_proper: false,
    odd_improper: true,
};

// The kinds 0 and 3.
pub const BOTH: Kinds = Kinds {
    even_proper: true,
    even_improper: false,
    odd_proper: false,
    odd_improper: true,
};

// A home by its column and row, with its kinds.
pub fn at_home(x: i64, y: i64, kinds: Kinds) -> Result<Fold, FoldRefused>
    ensures { result ≡ Ok (record { home = record { y = y; x = x }; kinds = kinds }) }
{
    Ok(Fold {
        home: Cell { x, y },
        kinds,
    })
}

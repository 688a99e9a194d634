// Sets of kinds of operations.
ghost use Rattle.std.specs.Prelude.{◌≡◌};
ghost use Rattle.plane.specs.Kinds.{has, on_mirror};

// A set of kinds. The kind of an operation is 2 for an odd one, plus 1 for an improper one: the fields are the kinds 0 to 3.
#[derive(Clone, Copy, PartialEq, Eq, Debug)]
pub struct Kinds {
    pub even_proper: bool,
    pub even_improper: bool,
    pub odd_proper: bool,
    pub odd_improper: bool,
}

impl Kinds {
    // Whether the set has the kind with that parity and that sign.
    pub fn has(self, odd: bool, improper: bool) -> bool
        ensures { result ≡ has self odd improper }
    {
        match (odd, improper) {
            (false, false) => self.even_proper,
            (false, true) => self.even_improper,
            (true, false) => self.odd_proper,
            (true, true) => self.odd_improper,
        }
    }

    // Whether the set has both a proper and an improper kind: the cell then lies on a mirror.
    pub fn on_mirror(self) -> bool
        ensures { result ≡ on_mirror self }
    {
        (self.even_proper || self.odd_proper) && (self.even_improper || self.odd_improper)
    }
}

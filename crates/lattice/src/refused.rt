// Why two vectors give no lattice.
ghost use Rattle.std.specs.Prelude.{◌≡◌};
ghost use Rattle.lattice.specs.Refusals.{lattice_number};

// Why two vectors are refused.
#[derive(Clone, Copy, PartialEq, Eq, Debug)]
pub enum LatticeRefused {
    // An entry is beyond 256.
    TooLong,
    // The vectors are parallel, or one is zero.
    Parallel,
}

impl LatticeRefused {
    // The refusal's number.
    pub fn number(self) -> u8
        ensures { result ≡ lattice_number self }
    {
        match self {
            LatticeRefused::Parallel => 13,
            LatticeRefused::TooLong => 14,
        }
    }
}

// The theorems on lattices, each named by a contract.
ghost use Rattle.lattice.specs.Theorems.{OneReduction, SameLattice, HomesInBox};

// Two vectors have one reduction, which gives the same lattice; and the home is the one cell of its class in the box.
pub fn lattice_laws()
    ensures one { OneReduction }
    ensures same { SameLattice }
    ensures boxed { HomesInBox }
{}

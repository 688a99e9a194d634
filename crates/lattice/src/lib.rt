// Oblique lattices: the symmetries whose operations are the translations by two vectors.
#![tactic(auto)]

mod homes;
pub mod oblique;
pub mod reduced;
pub mod refused;
pub mod theorems;
pub mod vectors;

// Worked cases of lattices, layers and piles, with answers of an independent implementation.
#![tactic(auto)]

pub mod answers;
#[cfg(test)]
mod lattice_cases;
#[cfg(test)]
mod layer_cases;
#[cfg(test)]
mod pile_cases;
#[cfg(test)]
mod refusal_cases;

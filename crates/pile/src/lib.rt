// Piles of layers made at run time.
#![tactic(auto)]

pub mod base;
mod levels;
pub mod pile;
pub mod refused;

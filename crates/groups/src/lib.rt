// The seventeen plane groups at given periods, as symmetries.
#![tactic(auto)]

pub mod plane_group;
pub mod position;
pub mod rules;
pub mod tabled;
#[cfg(test)]
mod tests;
pub mod theorems;

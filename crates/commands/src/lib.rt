// Commands, as a line of text says them: words and numbers with one blank between.
#![tactic(auto)]

pub mod call;
pub mod command;
mod fields;
pub mod memory;
pub mod symmetry;
#[cfg(test)]
mod tests;
pub mod trouble;

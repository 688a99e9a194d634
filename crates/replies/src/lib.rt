// What questions are answered, refusals in words, and what a run did.
#![tactic(auto)]

pub mod printer;
pub mod questions;
pub mod refusal;
pub mod reply;
pub mod tally;

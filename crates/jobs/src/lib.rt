// Runs a console's input: questions, and drawing jobs.
#![tactic(auto)]

mod help;
mod job;
mod line;
mod performance;
mod record;
pub mod run;
mod teller;

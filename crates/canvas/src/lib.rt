// Inks, and what a canvas is.
#![tactic(auto)]

pub mod canvas;
pub mod ink;
pub mod refusal;

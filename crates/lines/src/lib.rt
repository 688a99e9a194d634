// Lines: the cells from one cell to another.
#![tactic(auto)]

pub mod line;
pub mod refusal;

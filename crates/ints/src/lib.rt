// Integer algebra: division that rounds down, sums of two products that fit 64 bits, and numbers within bounds.
#![tactic(auto)]

pub mod division;
pub mod products;
pub mod ranges;

// The dense canvas: a byte for each cell of an area, in memory that the caller lends.
#![tactic(auto)]

pub mod area;
pub mod dense;

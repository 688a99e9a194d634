// Cells, operations and kinds, and what a symmetry of the plane is.
#![tactic(auto)]

pub mod cell;
pub mod fold;
pub mod kinds;
pub mod rectangle;
pub mod symmetry;
pub mod window;

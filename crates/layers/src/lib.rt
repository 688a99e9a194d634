// Layers over a symmetry: shift, recast and counterchange, each a symmetry itself.
#![tactic(auto)]

pub mod counterchange;
pub mod layer;
pub mod matrix;
pub mod recast;
pub mod refused;
pub mod shift;
pub mod vector;

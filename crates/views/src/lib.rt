// What a canvas shows under a symmetry: the ink of a cell, and windows.
#![tactic(auto)]

pub mod refusal;
pub mod show;
pub mod tints;
pub mod window;

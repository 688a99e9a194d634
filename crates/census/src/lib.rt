// Which classes meet a part of the plane: the repeat of a tabled group, or a window under any symmetry.
#![tactic(auto)]

pub mod fault;
pub mod repeats;
pub mod windows;

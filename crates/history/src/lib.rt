// Histories of a sheet as data, and what comes of replaying one.
#![tactic(auto)]

pub mod calls;
mod makes;
pub mod replay;
mod rooms;

// The sparse canvas: a record for each held cell, in a table that the caller lends.
#![tactic(auto)]

pub mod record;
pub mod sparse;

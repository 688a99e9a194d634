// An ordered shelf: records in the order of their keys, in a table that the caller lends.
#![tactic(auto)]

pub mod record;
pub mod refusal;
pub mod shelf;
pub mod slices;

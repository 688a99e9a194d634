// The dye book: names and their inks, in a table that the caller lends.
#![tactic(auto)]

pub mod book;
pub mod name;
pub mod record;
pub mod refusal;

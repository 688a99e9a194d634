// Catalogue cards, and pictures in text of the classes that meet a window.
#![tactic(auto)]

pub mod card;
pub mod picture;

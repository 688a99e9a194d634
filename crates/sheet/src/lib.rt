// Sheets: strokes are laid on an open sheet, and either kind of sheet shows its cells.
#![tactic(auto)]

mod laying;
pub mod mark;
pub mod refusal;
pub mod sheet;
mod strokes;

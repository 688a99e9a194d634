// Tests of cells, the canvases and the dye book.
#![tactic(auto)]

#[cfg(test)]
mod books;
#[cfg(test)]
mod canvases;
#[cfg(test)]
mod cells;
#[cfg(test)]
mod inks;
#[cfg(test)]
mod models;

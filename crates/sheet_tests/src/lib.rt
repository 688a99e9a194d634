// Tests of lines, sheets, windows and histories.
#![tactic(auto)]

#[cfg(test)]
mod histories;
#[cfg(test)]
mod lent;
#[cfg(test)]
mod limits;
#[cfg(test)]
mod sheets;
#[cfg(test)]
mod strokes;
#[cfg(test)]
mod windows;

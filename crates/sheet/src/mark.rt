// What a stroke lays.

// What a stroke lays at each of its cells.
#[derive(Clone, Copy, PartialEq, Eq, Debug)]
pub struct Mark {
    pub ink: u8,
}

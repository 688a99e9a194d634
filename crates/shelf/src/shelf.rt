// The ordered shelf.
ghost use Rattle.std.specs.Prelude.{◌≤◌, length, take};
ghost use Rattle.shelf.specs.Keys.{Sorted};

use super::record::Record;

// Records in the order of their keys, in a lent table: the first `count` are held, and the others are free.
#[derive(Drop)]
pub struct Shelf<'a, R: Record> {
    records: &'a mut [R],
    count: usize,
    ghost fits: { count ≤ length records.now },
    ghost sorted: { Sorted R.Record.keys (take count records.now) },
}

pub mod calls;

// What a shelf does.
ghost use Rattle.std.specs.Prelude.{◌≡◌, ◌≤◌, [], length};

use super::super::record::Record;
use super::super::refusal::ShelfRefused;
use super::super::slices;
use super::Shelf;

impl<'a, R: Record> Shelf<'a, R> {
    ghost use Rattle.shelf.specs.Held.{Inserts, Removes, held, size, table};
    ghost use Rattle.shelf.specs.Keys.{found};

    // An empty shelf over the caller's records.
    pub fn over(records: &'a mut [R]) -> Shelf<'a, R>
        ensures held { held result ≡ [] }
        ensures table { table result ≡ records.old }
    {
        Shelf { records, count: 0 }
    }

    // The records that are held.
    fn held(&self) -> &[R]
        ensures { result.now ≡ held self.now }
    {
        &self.records[..self.count]
    }

    // How many records are held.
    pub fn len(&self) -> usize
        ensures is { result ≡ length (held self.now) }
        ensures within { result ≤ size self.now }
    {
        self.held().len()
    }

    // How many records the table has.
    pub fn size(&self) -> usize
        ensures { result ≡ size self.now }
    {
        self.records.len()
    }

    // The record of a key, if there is one.
    pub fn find(&self, key: R::Key) -> Option<R>
        ensures { result ≡ found R.Record.keys key (held self.now) }
    {
        slices::find(self.held(), key)
    }

    // Gives a record the place of its key, over that of the same key if there is one.
    pub fn insert(&mut self, item: R) -> Result<(), ShelfRefused>
        ensures { Inserts item self.old self.new result }
    {
        self.count = slices::insert(self.records, self.count, item)?;
        Ok(())
    }

    // Takes out the record of a key, if there is one, and answers it.
    pub fn remove(&mut self, key: R::Key) -> Option<R>
        ensures { Removes key self.old self.new result }
    {
        let item = slices::remove(self.records, self.count, key)?;
        self.count -= 1;
        Some(item)
    }

    // Holds none: every record is free, and as it was.
    pub fn clear(&mut self)
        ensures held { held self.new ≡ [] }
        ensures table { table self.new ≡ table self.old }
    {
        self.count = 0;
    }
}

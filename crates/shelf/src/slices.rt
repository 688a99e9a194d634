// Search, insertion and removal in a slice of records.
ghost use Rattle.std.specs.Prelude.{◌≡◌, ◌<◌, ◌≤◌, length, take, MatchOption, MatchResult};
ghost use Rattle.shelf.specs.Changes.{Absent, Refused as Unmoved, Removed, Stored};
ghost use Rattle.shelf.specs.Keys.{Sorted, found, located, rank};

use super::record::Record;
use super::refusal::ShelfRefused;
use std::cmp::Ordering;

// How many of the records have a key before the given one, by halving.
pub fn place<R: Record>(records: &[R], key: R::Key) -> usize
    ensures most { result ≤ length records.now }
    ensures is { Sorted R.Record.keys records.now → result ≡ rank R.Record.keys key records.now }
{
    records.partition_point(|record| R::precedes(record.key(), key))
}

// The place of the record with the key, or else the place that it would have.
pub fn search<R: Record>(records: &[R], key: R::Key) -> Result<usize, usize>
    ensures within { MatchResult result (λ i. i < length records.now) (λ i. i ≤ length records.now) }
    ensures is { Sorted R.Record.keys records.now → result ≡ located R.Record.keys key records.now }
{
    records.binary_search_by(|record| {
        let held = record.key();
        if R::precedes(key, held) {
            Ordering::Greater
        } else if R::precedes(held, key) {
            Ordering::Less
        } else {
            Ordering::Equal
        }
    })
}

// The record of a key, if there is one.
pub fn find<R: Record>(records: &[R], key: R::Key) -> Option<R>
    ensures { Sorted R.Record.keys records.now → result ≡ found R.Record.keys key records.now }
{
    let at = search(records, key).ok()?;
    Some(records[at])
}

// Gives a record the place of its key among the first `count`, over that of the same key if there is one, and answers how many are held then.
pub(crate) fn insert<R: Record>(
    records: &mut [R],
    count: usize,
    item: R,
) -> Result<usize, ShelfRefused>
    requires fits { count ≤ length records.old }
    requires sorted { Sorted R.Record.keys (take count records.old) }
    ensures { MatchResult result (λ n. Stored R.Record.keys item count records.old records.new n) (λ _. Unmoved R.Record.keys item count records.old records.new) }
{
    match search(&records[0..count], item.key()) {
        Ok(at) => {
            records[at] = item;
            Ok(count)
        }
        Err(at) => {
            if count == records.len() {
                return Err(ShelfRefused::Full);
            }
            records.copy_within(at..count, at + 1);
            records[at] = item;
            Ok(count + 1)
        }
    }
}

// Takes the record of a key out of the first `count`, if there is one.
pub(crate) fn remove<R: Record>(records: &mut [R], count: usize, key: R::Key) -> Option<R>
    requires fits { count ≤ length records.old }
    requires sorted { Sorted R.Record.keys (take count records.old) }
    ensures { MatchOption result (Absent R.Record.keys key count records.old records.new) (λ x. Removed R.Record.keys key count records.old records.new x) }
{
    let Ok(at) = search(&records[0..count], key) else {
        return None;
    };
    let item = records[at];
    records.copy_within(at + 1..count, at);
    Some(item)
}

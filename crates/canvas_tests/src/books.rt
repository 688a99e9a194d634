// The dye book.
use dyes::book::DyeBook;
use dyes::record::DyeRecord;
use dyes::refusal::DyeRefused;
use std::process::Abort;

// Adds each name, and expects its ink, or the number of the refusal.
fn adds(rt: &impl Abort, book: &mut DyeBook, all: &[(&str, Result<u8, u8>)]) {
    for (text, expected) in all {
        assert_eq!(rt; book.add(text).map_err(|why| why.number()), *expected);
    }
}

// Names of one to eight letters get the next ink, and keep it.
#[test]
fn names(rt: HostRuntime) {
    let mut records = [DyeRecord::blank(); 20];
    let mut book = DyeBook::over(&mut records);
    adds(
        &rt,
        &mut book,
        &[
            ("rose", Ok(1)),
            ("ash", Ok(2)),
            ("rosewood", Ok(3)),
            ("ros", Ok(4)),
            ("rose", Ok(1)),
        ],
    );
    adds(
        &rt,
        &mut book,
        &[
            ("", Err(17)),
            ("ultramari", Err(17)),
            ("Ash", Err(17)),
            ("as h", Err(17)),
            ("a{", Err(17)),
            ("a`", Err(17)),
        ],
    );
    assert_eq!(rt; book.lookup("rosewood"), Some(3));
    assert_eq!(rt; book.lookup("ros"), Some(4));
    assert_eq!(rt; book.lookup("rosew"), None);
    assert_eq!(rt; book.lookup("ROSE"), None);
    assert_eq!(rt; book.lookup(""), None);
    assert_eq!(rt; book.lookup("rosewoods"), None);
    assert_eq!(rt; book.count(), 4);
}

// The sixteenth name is refused, though the table has room; a known name and a malformed one are not told so.
#[test]
fn sixteen_names(rt: HostRuntime) {
    let mut records = [DyeRecord::blank(); 20];
    let mut book = DyeBook::over(&mut records);
    adds(
        &rt,
        &mut book,
        &[
            ("o", Ok(1)),
            ("n", Ok(2)),
            ("m", Ok(3)),
            ("l", Ok(4)),
            ("k", Ok(5)),
            ("j", Ok(6)),
            ("i", Ok(7)),
            ("h", Ok(8)),
        ],
    );
    adds(
        &rt,
        &mut book,
        &[
            ("g", Ok(9)),
            ("f", Ok(10)),
            ("e", Ok(11)),
            ("d", Ok(12)),
            ("c", Ok(13)),
            ("b", Ok(14)),
            ("a", Ok(15)),
        ],
    );
    adds(
        &rt,
        &mut book,
        &[("p", Err(18)), ("P", Err(17)), ("h", Ok(8))],
    );
    assert_eq!(rt; book.lookup("a"), Some(15));
    assert_eq!(rt; book.lookup("p"), None);
}

// A book has no more names than its table has records.
#[test]
fn small_tables(rt: HostRuntime) {
    let mut records = [DyeRecord::blank(); 2];
    let mut book = DyeBook::over(&mut records);
    adds(
        &rt,
        &mut book,
        &[
            ("zinc", Ok(1)),
            ("lead", Ok(2)),
            ("tin", Err(18)),
            ("zinc", Ok(1)),
        ],
    );
    let mut none: [DyeRecord; 0] = [];
    let mut empty = DyeBook::over(&mut none);
    adds(&rt, &mut empty, &[("zinc", Err(18)), ("Zinc", Err(17))]);
    assert_eq!(rt; DyeRefused::Malformed.number(), 17);
    assert_eq!(rt; DyeRefused::Full.number(), 18);
}

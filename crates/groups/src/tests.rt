// Worked cases of the rules for numbers, symbols, periods and spans.
use super::rules::GroupRefused;
use super::tabled::Tabled;
use plane::cell::Cell;
use plane::symmetry::Symmetry;
use std::test::Fail;

// The number of the refusal, if there is one.
fn refusal(made: Result<Tabled, GroupRefused>) -> Option<u8> {
    made.err().map(|why| why.number())
}

#[test]
fn numbers_and_symbols(rt: HostRuntime) {
    for (number, expected) in [
        (0, Some(11)),
        (1, None),
        (17, None),
        (18, Some(11)),
        (-1, Some(11)),
        (i64::MIN, Some(11)),
        (i64::MAX, Some(11)),
    ] {
        assert_eq!(rt; refusal(Tabled::numbered(number, 6, 6)), expected);
    }
    for (symbol, expected) in [
        ("p1", None),
        ("p31m", None),
        ("", Some(11)),
        ("P4", Some(11)),
        ("p", Some(11)),
        ("p1 ", Some(11)),
        ("p6mm", None),
    ] {
        assert_eq!(rt; refusal(Tabled::named(symbol, 6, 6)), expected);
    }
    assert_eq!(rt; refusal(Tabled::named("none", 0, 0)), Some(11));
}

#[test]
fn periods(rt: HostRuntime) {
    let cases = [
        (1, 1, 128, None),
        (1, 0, 4, Some(12)),
        (1, 4, 0, Some(12)),
        (1, 129, 4, Some(12)),
        (1, 4, 129, Some(12)),
        (1, -4, 4, Some(12)),
        (1, i64::MIN, 4, Some(12)),
        (1, 4, i64::MAX, Some(12)),
        (4, 5, 6, None),
        (4, 6, 5, Some(12)),
        (5, 6, 5, Some(12)),
        (5, 5, 6, Some(12)),
        (5, 6, 4, None),
        (7, 6, 5, None),
        (7, 5, 6, Some(12)),
        (8, 5, 6, Some(12)),
        (8, 6, 5, Some(12)),
        (8, 6, 4, None),
        (9, 5, 6, Some(12)),
        (9, 6, 5, Some(12)),
        (9, 6, 4, None),
        (9, 3, 3, Some(12)),
        (10, 5, 5, None),
        (10, 5, 6, Some(12)),
        (12, 5, 5, Some(12)),
        (12, 6, 6, None),
        (17, 96, 96, None),
        (17, 96, 95, Some(12)),
    ];
    for (number, p, q, expected) in cases {
        assert_eq!(rt; refusal(Tabled::numbered(number, p, q)), expected);
    }
}

#[test]
fn spans(rt: HostRuntime) -> Result<(), Fail> {
    let group = Tabled::numbered(1, 128, 128)?;
    for (x, y, column) in [
        (1_000_000, 0, 64),
        (-1_000_000, 0, 64),
        (0, 1_000_000, 0),
        (0, -1_000_000, 0),
    ] {
        assert_eq!(rt; group.fold(Cell { x, y })?.home.x, column);
    }
    for (x, y) in [
        (1_000_001, 0),
        (-1_000_001, 0),
        (0, 1_000_001),
        (0, -1_000_001),
        (i64::MIN, 0),
        (i64::MAX, 0),
        (0, i64::MIN),
        (0, i64::MAX),
    ] {
        assert_eq!(rt;
            group.fold(Cell { x, y }).map_err(|why| why.number()),
            Err(2)
        );
    }
    Ok(())
}

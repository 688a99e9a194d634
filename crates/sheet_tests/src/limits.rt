// Lines at their limits.
use lines::line::Line;
use plane::cell::Cell;
use std::test::Fail;

// How many cells the line between two cells has, or the number of the refusal.
fn cells(from: Cell, to: Cell) -> Result<u16, u8> {
    Line::between(from, to)
        .map(|line| line.cells())
        .map_err(|why| why.number())
}

// A line of 4,096 cells stands, and a longer one is refused with 6, in every direction and at the ends of 64 bits.
#[test]
fn lengths(rt: HostRuntime) {
    for (x, y, u, v, expected) in [
        (0, 0, 0, 0, Ok(1)),
        (0, 0, 4095, 4095, Ok(4096)),
        (0, 0, -4095, 7, Ok(4096)),
        (0, 0, 4096, 0, Err(6)),
        (0, 0, 3, -4096, Err(6)),
        (i64::MIN, i64::MAX, i64::MIN + 4095, i64::MAX, Ok(4096)),
        (i64::MAX, i64::MIN, i64::MAX, i64::MIN + 4096, Err(6)),
        (i64::MIN, i64::MIN, i64::MAX, i64::MAX, Err(6)),
        (i64::MAX, 0, i64::MIN, 0, Err(6)),
        (0, i64::MAX, 0, i64::MIN, Err(6)),
    ] {
        assert_eq!(rt; cells(Cell { x, y }, Cell { x: u, y: v }), expected);
    }
}

// Steps of a line by columns, of one by rows that goes back, and past the last cell.
#[test]
fn steps(rt: HostRuntime) -> Result<(), Fail> {
    for (x, y, u, v, i, column, row) in [
        (0, 0, 2, 1, 1, 1, 1),
        (2, 1, 0, 0, 1, 1, 0),
        (0, 0, -3, 8, 4, -2, 4),
        (5, 5, 2, 8, 2, 3, 7),
        (0, 0, 4095, -4094, 4095, 4095, -4094),
        (0, 0, 2, 1, 3, 2, 1),
    ] {
        let line = Line::between(Cell { x, y }, Cell { x: u, y: v })?;
        let at = line.cell(i);
        assert_eq!(rt; (at.x, at.y), (column, row));
    }
    Ok(())
}

// Single canvases at their limits.
use canvas::canvas::Canvas;
use canvas::refusal::PutRefused;
use dense::dense::DenseCanvas;
use plane::cell::Cell;
use shelf::refusal::ShelfRefused;
use sparse::record::CellRecord;
use sparse::sparse::SparseCanvas;
use std::process::Abort;
use std::test::Fail;

// A put of an ink, and what it should answer, with the number of a refusal.
#[derive(Clone, Copy)]
struct Put(i64, i64, u8, Result<(), u8>);

// A cell and the ink that it should have.
#[derive(Clone, Copy)]
struct Ink(i64, i64, u8);

// Puts each in turn.
fn puts<C: Canvas>(rt: &impl Abort, canvas: &mut C, all: &[Put]) {
    for &Put(x, y, ink, expected) in all {
        assert_eq!(rt;
            canvas.put(Cell { x, y }, ink).map_err(|why| why.number()),
            expected
        );
    }
}

// Looks at each.
fn looks<C: Canvas>(rt: &impl Abort, canvas: &C, all: &[Ink]) {
    for &Ink(x, y, ink) in all {
        assert_eq!(rt; canvas.look(Cell { x, y }), ink);
    }
}

const BLANK: CellRecord = CellRecord { x: 0, y: 0, ink: 0 };

// A full canvas refuses a new cell and takes ink 0 there, changes the ink of a held cell, frees a seat by ink 0 and takes again.
#[test]
fn full_sparse(rt: HostRuntime) {
    let mut records = [BLANK; 3];
    let mut canvas = SparseCanvas::over(&mut records);
    puts(
        &rt,
        &mut canvas,
        &[
            Put(5, -2, 1, Ok(())),
            Put(-5, 7, 2, Ok(())),
            Put(5, -3, 3, Ok(())),
        ],
    );
    puts(
        &rt,
        &mut canvas,
        &[
            Put(0, 0, 4, Err(5)),
            Put(0, 0, 0, Ok(())),
            Put(0, 0, 16, Err(1)),
            Put(5, -2, 9, Ok(())),
        ],
    );
    assert_eq!(rt; canvas.held(), 3);
    looks(
        &rt,
        &canvas,
        &[Ink(5, -2, 9), Ink(-5, 7, 2), Ink(5, -3, 3), Ink(0, 0, 0)],
    );
    puts(
        &rt,
        &mut canvas,
        &[
            Put(-5, 7, 0, Ok(())),
            Put(0, 0, 4, Ok(())),
            Put(-5, 7, 2, Err(5)),
        ],
    );
    looks(&rt, &canvas, &[Ink(-5, 7, 0), Ink(0, 0, 4)]);
    canvas.clear();
    assert_eq!(rt; canvas.held(), 0);
    looks(&rt, &canvas, &[Ink(0, 0, 0), Ink(5, -2, 0)]);
    puts(&rt, &mut canvas, &[Put(-5, 7, 2, Ok(()))]);
}

// A dense canvas has a seat for each of its cells, and none outside its frame. Later bytes stay as they were.
#[test]
fn full_dense(rt: HostRuntime) {
    let mut bytes = [7; 5];
    let mut canvas = DenseCanvas::over(&mut bytes, 2, 10, -1);
    puts(
        &rt,
        &mut canvas,
        &[
            Put(10, -1, 1, Ok(())),
            Put(11, -1, 2, Ok(())),
            Put(10, 0, 3, Ok(())),
            Put(11, 0, 15, Ok(())),
        ],
    );
    assert_eq!(rt; canvas.held(), 4);
    puts(
        &rt,
        &mut canvas,
        &[
            Put(10, 1, 1, Err(4)),
            Put(9, 0, 1, Err(4)),
            Put(12, 0, 0, Err(4)),
            Put(10, -2, 16, Err(1)),
        ],
    );
    puts(
        &rt,
        &mut canvas,
        &[Put(10, 0, 12, Ok(())), Put(11, -1, 0, Ok(()))],
    );
    assert_eq!(rt; canvas.held(), 3);
    looks(
        &rt,
        &canvas,
        &[
            Ink(10, -1, 1),
            Ink(11, -1, 0),
            Ink(10, 0, 12),
            Ink(11, 0, 15),
            Ink(12, 0, 0),
        ],
    );
    assert_eq!(rt; bytes, [1, 0, 12, 15, 7]);
}

// Making a canvas and clearing it set the bytes of its cells to 0, and no other.
#[test]
fn cleared_bytes(rt: HostRuntime) {
    let mut bytes = [9; 5];
    {
        let mut canvas = DenseCanvas::over(&mut bytes, 2, 0, 0);
        assert_eq!(rt; canvas.held(), 0);
        looks(&rt, &canvas, &[Ink(0, 0, 0), Ink(1, 1, 0)]);
        puts(&rt, &mut canvas, &[Put(1, 1, 3, Ok(()))]);
        canvas.clear();
        assert_eq!(rt; canvas.held(), 0);
    }
    assert_eq!(rt; bytes, [0, 0, 0, 0, 9]);
}

// The frame of a sparse canvas ends where 32 bits end.
#[test]
fn far_sparse(rt: HostRuntime) {
    let mut records = [BLANK; 4];
    let mut canvas = SparseCanvas::over(&mut records);
    puts(
        &rt,
        &mut canvas,
        &[
            Put(2147483647, -2147483648, 1, Ok(())),
            Put(-2147483648, 2147483647, 2, Ok(())),
        ],
    );
    puts(
        &rt,
        &mut canvas,
        &[
            Put(2147483648, 0, 3, Err(4)),
            Put(-2147483649, 0, 3, Err(4)),
            Put(0, 2147483648, 3, Err(4)),
        ],
    );
    puts(
        &rt,
        &mut canvas,
        &[
            Put(0, -2147483649, 0, Err(4)),
            Put(i64::MAX, i64::MIN, 3, Err(4)),
        ],
    );
    looks(
        &rt,
        &canvas,
        &[
            Ink(2147483647, -2147483648, 1),
            Ink(-2147483648, 2147483647, 2),
            Ink(i64::MIN, i64::MAX, 0),
        ],
    );
}

// A dense canvas at the last corner reaches past 32 bits.
#[test]
fn far_dense(rt: HostRuntime) {
    let mut bytes = [1; 4];
    let mut canvas = DenseCanvas::over(&mut bytes, 2, 2147483647, 2147483647);
    puts(
        &rt,
        &mut canvas,
        &[
            Put(2147483648, 2147483648, 5, Ok(())),
            Put(2147483649, 2147483648, 5, Err(4)),
        ],
    );
    puts(
        &rt,
        &mut canvas,
        &[
            Put(i64::MAX, i64::MAX, 5, Err(4)),
            Put(i64::MIN, i64::MIN, 5, Err(4)),
        ],
    );
    looks(
        &rt,
        &canvas,
        &[Ink(2147483648, 2147483648, 5), Ink(i64::MIN, i64::MAX, 0)],
    );
}

// No memory at all.
#[test]
fn no_memory(rt: HostRuntime) {
    let mut bytes: [u8; 0] = [];
    let mut dense = DenseCanvas::over(&mut bytes, 3, 0, 0);
    puts(
        &rt,
        &mut dense,
        &[
            Put(0, 0, 1, Err(4)),
            Put(0, 0, 0, Err(4)),
            Put(0, 0, 16, Err(1)),
        ],
    );
    assert_eq!(rt; dense.held(), 0);
    let mut records: [CellRecord; 0] = [];
    let mut sparse = SparseCanvas::over(&mut records);
    puts(
        &rt,
        &mut sparse,
        &[
            Put(0, 0, 1, Err(5)),
            Put(0, 0, 0, Ok(())),
            Put(0, 0, 16, Err(1)),
        ],
    );
    looks(&rt, &sparse, &[Ink(0, 0, 0)]);
}

// A width below 1 counts as 1, and one above 128 as 128.
#[test]
fn widths(rt: HostRuntime) {
    let mut bytes = [0; 300];
    {
        let mut canvas = DenseCanvas::over(&mut bytes, 0, 0, 0);
        puts(
            &rt,
            &mut canvas,
            &[
                Put(0, 127, 1, Ok(())),
                Put(0, 128, 1, Err(4)),
                Put(1, 0, 1, Err(4)),
            ],
        );
    }
    {
        let mut canvas = DenseCanvas::over(&mut bytes, -5, 0, 0);
        puts(
            &rt,
            &mut canvas,
            &[Put(0, 127, 1, Ok(())), Put(1, 0, 1, Err(4))],
        );
    }
    let mut canvas = DenseCanvas::over(&mut bytes, 129, 0, 0);
    puts(
        &rt,
        &mut canvas,
        &[
            Put(127, 1, 1, Ok(())),
            Put(128, 0, 1, Err(4)),
            Put(0, 2, 1, Err(4)),
        ],
    );
}

// A table of more than 65,536 records has 65,536 seats.
#[test]
fn wide_table(rt: HostRuntime) -> Result<(), Fail> {
    let mut records = vec![in rt.alloc(); BLANK; 65540]?;
    let mut canvas = SparseCanvas::over(records.as_mut_slice());
    for i in 0..65536 {
        puts(&rt, &mut canvas, &[Put(i % 256, i / 256, 3, Ok(()))]);
    }
    puts(
        &rt,
        &mut canvas,
        &[Put(0, 256, 3, Err(5)), Put(255, 255, 4, Ok(()))],
    );
    assert_eq!(rt; canvas.held(), 65536);
    looks(
        &rt,
        &canvas,
        &[Ink(255, 255, 4), Ink(0, 256, 0), Ink(0, 0, 3)],
    );
    Ok(())
}

// The numbers of the refusals.
#[test]
fn refusals(rt: HostRuntime) {
    assert_eq!(rt; PutRefused::Ink.number(), 1);
    assert_eq!(rt; PutRefused::Frame.number(), 4);
    assert_eq!(rt; PutRefused::Seats.number(), 5);
    assert_eq!(rt; ShelfRefused::Full.number(), 5);
}

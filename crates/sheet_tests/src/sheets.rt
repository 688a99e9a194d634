// Sheets: opening, showing, closing and quoting.
use canvas::canvas::Canvas;
use dense::dense::DenseCanvas;
use groups::tabled::Tabled;
use plane::cell::Cell;
use plane::symmetry::Symmetry;
use sheet::sheet::{ClosedSheet, OpenSheet, Quote, Sheet};
use std::process::Abort;
use std::test::Fail;

// Cells, and what each shows after the dots of the tests: an ink, or the number of the refusal.
const SHOWN: [(Cell, Result<u8, u8>); 6] = [
    (Cell { x: 1, y: 1 }, Ok(3)),
    (Cell { x: 3, y: 3 }, Ok(3)),
    (Cell { x: 1, y: 2 }, Ok(0)),
    (
        Cell {
            x: 1_000_000,
            y: -1_000_000,
        },
        Ok(5),
    ),
    (Cell { x: 1_000_001, y: 0 }, Err(2)),
    (Cell { x: 0, y: i64::MIN }, Err(2)),
];

// Looks at each of the cells.
fn looks<T: Sheet, S: Symmetry, C: Canvas>(rt: &impl Abort, sheet: &T, symmetry: &S, canvas: &C) {
    for (at, expected) in SHOWN {
        let shown = sheet.show(symmetry, canvas, at);
        assert_eq!(rt; shown.map_err(|why| why.number()), expected);
    }
}

// Makes two dots that are laid and one that is refused, and looks.
fn draw<S: Symmetry, C: Canvas>(
    rt: &impl Abort,
    sheet: &mut OpenSheet,
    symmetry: &S,
    canvas: &mut C,
) -> Result<(), Fail> {
    assert_eq!(rt; canvas.held(), 0);
    assert_eq!(rt; sheet.dot(symmetry, canvas, Cell { x: 3, y: 3 }, 3)?, 1);
    assert_eq!(rt; sheet.dot(symmetry, canvas, Cell { x: 4, y: 4 }, 5)?, 1);
    assert!(rt;
        sheet
            .dot(symmetry, canvas, Cell { x: 1, y: 1 }, 16)
            .is_err()
    );
    looks(rt, sheet, symmetry, canvas);
    Ok(())
}

// A sheet opens on a cleared canvas and shows what was laid.
#[test]
fn opened(rt: HostRuntime) -> Result<(), Fail> {
    let symmetry = Tabled::numbered(2, 4, 4)?;
    let mut bytes = [0; 16];
    let mut canvas = DenseCanvas::over(&mut bytes, 4, 0, 0);
    canvas.put(Cell { x: 1, y: 2 }, 9)?;
    let mut sheet = OpenSheet::open(&mut canvas);
    let result = draw(&rt, &mut sheet, &symmetry, &mut canvas);
    let strokes = sheet.leave();
    result?;
    assert_eq!(rt; strokes, 2);
    Ok(())
}

// Looks, clears the canvas, and quotes.
fn view<S: Symmetry, C: Canvas>(
    rt: &impl Abort,
    sheet: &ClosedSheet,
    symmetry: &S,
    canvas: &mut C,
) -> Result<(), Fail> {
    looks(rt, sheet, symmetry, canvas);
    canvas.clear();
    assert_eq!(rt;
        sheet.quote(),
        Quote {
            held: 2,
            strokes: 3,
        }
    );
    Ok(())
}

// A closed sheet shows what was laid, and quotes the held cells and the strokes as at closing.
#[test]
fn closed(rt: HostRuntime) -> Result<(), Fail> {
    let symmetry = Tabled::numbered(2, 4, 4)?;
    let mut bytes = [0; 16];
    let mut canvas = DenseCanvas::over(&mut bytes, 4, 0, 0);
    let mut open = OpenSheet::open(&mut canvas);
    let _ = open.dot(&symmetry, &mut canvas, Cell { x: 1, y: 1 }, 4);
    let _ = open.dot(&symmetry, &mut canvas, Cell { x: 3, y: 3 }, 3);
    let _ = open.dot(&symmetry, &mut canvas, Cell { x: 0, y: 0 }, 5);
    let sheet = open.close(&canvas);
    let result = view(&rt, &sheet, &symmetry, &mut canvas);
    let last = sheet.leave();
    result?;
    assert_eq!(rt; (last.held, last.strokes), (2, 3));
    Ok(())
}

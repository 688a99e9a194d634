// Windows: which refusal comes first, and the bytes that are written.
use super::lent::{BLANK, PALETTE};
use canvas::canvas::Canvas;
use groups::tabled::Tabled;
use layers::counterchange::Counterchange;
use plane::cell::Cell;
use plane::rectangle::Rectangle;
use plane::symmetry::Symmetry;
use sheet::sheet::{OpenSheet, Sheet};
use sparse::sparse::SparseCanvas;
use std::process::Abort;
use std::test::Fail;

// A window by its corner and sides, how many bytes of palette and of output it is given, and the number of the refusal that is expected.
#[derive(Clone, Copy)]
struct Refused(i64, i64, i64, i64, usize, usize, u8);

// Asks for each window.
fn refuses<S: Symmetry, C: Canvas>(
    rt: &impl Abort,
    sheet: &OpenSheet,
    symmetry: &S,
    canvas: &C,
    output: &mut [u8],
    all: &[Refused],
) {
    for case in all {
        let Refused(x, y, width, height, inks, room, number) = *case;
        let palette = &PALETTE[0..inks.min(49)];
        let end = room.min(output.len());
        let part = &mut output[0..end];
        let rectangle = Rectangle {
            corner: Cell { x, y },
            width,
            height,
        };
        let drawn = sheet.window(symmetry, canvas, rectangle, palette, part);
        assert_eq!(rt; drawn.map_err(|why| why.number()), Err(number));
    }
}

// Each refusal comes before the later ones: a side, the span, the palette, the output. The output stays as it was.
#[test]
fn order(rt: HostRuntime) -> Result<(), Fail> {
    let symmetry = Tabled::numbered(1, 4, 4)?;
    let mut records = [BLANK; 1];
    let mut canvas = SparseCanvas::over(&mut records);
    let mut output = [7; 16];
    let all = [
        Refused(0, 0, 0, 1, 48, 16, 8),
        Refused(0, 0, 1, 129, 48, 0, 8),
        Refused(0, 0, i64::MAX, 1, 47, 16, 8),
        Refused(1_000_001, 0, 1, i64::MIN, 48, 16, 8),
        Refused(1_000_000, 0, 2, 1, 48, 16, 2),
        Refused(0, -1_000_001, 1, 2, 49, 16, 2),
        Refused(i64::MAX, i64::MIN, 128, 128, 48, 0, 2),
        Refused(0, 0, 1, 1, 47, 16, 10),
        Refused(0, 0, 1, 1, 49, 13, 10),
        Refused(0, 0, 1, 1, 48, 13, 9),
        Refused(999_873, 999_873, 128, 128, 48, 16, 9),
    ];
    let sheet = OpenSheet::open(&mut canvas);
    refuses(&rt, &sheet, &symmetry, &canvas, &mut output, &all);
    sheet.leave();
    assert_eq!(rt; output, [7; 16]);
    Ok(())
}

// An open and a closed sheet draw the same picture. Later bytes of the output stay.
#[test]
fn pictures(rt: HostRuntime) -> Result<(), Fail> {
    let symmetry = Counterchange::over(Tabled::numbered(3, 6, 6)?);
    let mut records = [BLANK; 2];
    let mut canvas = SparseCanvas::over(&mut records);
    let mut one = [b'.'; 31];
    let mut other = [b'.'; 31];
    let rectangle = Rectangle {
        corner: Cell { x: 4, y: 2 },
        width: 3,
        height: 2,
    };
    let lent: &[u8] = PALETTE;
    let palette = &lent[0..48];
    let mut open = OpenSheet::open(&mut canvas);
    let _ = open.dot(&symmetry, &mut canvas, Cell { x: 1, y: 2 }, 1);
    let _ = open.dot(&symmetry, &mut canvas, Cell { x: 0, y: 3 }, 15);
    let drawn = open.window(&symmetry, &canvas, rectangle, palette, &mut one);
    let closed = open.close(&canvas);
    let viewed = closed.window(&symmetry, &canvas, rectangle, palette, &mut other);
    closed.leave();
    assert_eq!(rt; drawn?, 29);
    assert_eq!(rt; viewed?, 29);
    let picture = *b"P6\n3 2\n255\n000222000000000fff..";
    assert_eq!(rt; one, picture);
    assert_eq!(rt; other, picture);
    Ok(())
}

// Strokes: which refusal comes first, where a stroke stops, and what it leaves.
use super::lent::BLANK;
use canvas::canvas::Canvas;
use dense::dense::DenseCanvas;
use groups::tabled::Tabled;
use layers::counterchange::Counterchange;
use plane::cell::Cell;
use plane::symmetry::Symmetry;
use sheet::sheet::OpenSheet;
use sparse::sparse::SparseCanvas;
use std::process::Abort;
use std::test::Fail;

// A dot, or a line by its ends.
#[derive(Clone, Copy)]
enum Shape {
    Dot(i64, i64),
    Line(i64, i64, i64, i64),
}

// How many cells a stroke lays, or the number of its refusal and how many were laid before it.
type Outcome = Result<u16, (u8, u16)>;

// A shape in an ink, and what should come of it.
#[derive(Clone, Copy)]
struct Stroke(Shape, u8, Outcome);

// Makes a stroke.
fn made<S: Symmetry, C: Canvas>(
    sheet: &mut OpenSheet,
    symmetry: &S,
    canvas: &mut C,
    shape: Shape,
    ink: u8,
) -> Outcome {
    let answer = match shape {
        Shape::Dot(x, y) => sheet.dot(symmetry, canvas, Cell { x, y }, ink),
        Shape::Line(x, y, u, v) => {
            sheet.line(symmetry, canvas, Cell { x, y }, Cell { x: u, y: v }, ink)
        }
    };
    answer.map_err(|stopped| (stopped.refusal.number(), stopped.laid))
}

// Makes each stroke in turn.
fn make<S: Symmetry, C: Canvas>(
    rt: &impl Abort,
    sheet: &mut OpenSheet,
    symmetry: &S,
    canvas: &mut C,
    all: &[Stroke],
) -> Result<(), Fail> {
    for stroke in all {
        let Stroke(shape, ink, outcome) = *stroke;
        assert_eq!(rt; made(sheet, symmetry, canvas, shape, ink), outcome);
    }
    Ok(())
}

// Opens a sheet, makes each stroke, and expects so many strokes and held cells.
fn drawn<S: Symmetry, C: Canvas>(
    rt: &impl Abort,
    symmetry: &S,
    canvas: &mut C,
    all: &[Stroke],
    strokes: u16,
    held: u32,
) -> Result<(), Fail> {
    let mut sheet = OpenSheet::open(canvas);
    let result = make(rt, &mut sheet, symmetry, canvas, all);
    let had = sheet.leave();
    result?;
    assert_eq!(rt; (had, canvas.held()), (strokes, held));
    Ok(())
}

// Looks at each cell of a row, from a column on.
fn row<C: Canvas>(rt: &impl Abort, canvas: &C, x: i64, y: i64, inks: &[u8]) {
    let mut column = x;
    for ink in inks {
        assert_eq!(rt; canvas.look(Cell { x: column, y }), *ink);
        column = column.wrapping_add(1);
    }
}

// Each refusal comes before the later ones: an ink, the span, the length, a clash, the seats.
#[test]
fn order_on_a_full_canvas(rt: HostRuntime) -> Result<(), Fail> {
    let symmetry = Counterchange::over(Tabled::numbered(3, 6, 6)?);
    let mut records = [BLANK; 1];
    let mut canvas = SparseCanvas::over(&mut records);
    let all = [
        Stroke(Shape::Dot(1, 2), 1, Ok(1)),
        // an ink, and the span, and the length
        Stroke(Shape::Dot(1_000_001, 2), 16, Err((1, 0))),
        Stroke(Shape::Line(2, 2, 4098, 2), 255, Err((1, 0))),
        Stroke(Shape::Dot(2, 2), 16, Err((1, 0))),
        // the span at either end, and the length, a clash or the seats
        Stroke(Shape::Line(2, 2, 2, -1_000_001), 1, Err((2, 0))),
        Stroke(Shape::Line(i64::MAX, i64::MIN, 2, 2), 1, Err((2, 0))),
        Stroke(Shape::Line(999_999, 2, 1_000_001, 2), 1, Err((2, 0))),
        Stroke(Shape::Line(999_998, 2, 1_000_001, 2), 15, Err((2, 0))),
        // the length, and a clash or the seats
        Stroke(Shape::Line(3, 2, 4099, 2), 1, Err((6, 0))),
        Stroke(Shape::Line(2, 2, 2, 4098), 1, Err((6, 0))),
        // a clash, and the seats
        Stroke(Shape::Dot(999_999, 2), 1, Err((3, 0))),
        Stroke(Shape::Line(3, 2, 2, 2), 14, Err((3, 0))),
        // the seats alone
        Stroke(Shape::Dot(3, 2), 15, Err((5, 0))),
        Stroke(Shape::Line(2, 2, 4097, 2), 1, Err((5, 0))),
        // bare cells need none
        Stroke(Shape::Line(2, 2, 4097, 2), 0, Ok(4096)),
    ];
    drawn(&rt, &symmetry, &mut canvas, &all, 2, 0)
}

// Each refusal comes before the frame.
#[test]
fn order_outside_the_frame(rt: HostRuntime) -> Result<(), Fail> {
    let symmetry = Counterchange::over(Tabled::numbered(3, 6, 6)?);
    let mut bytes = [0; 1];
    let mut canvas = DenseCanvas::over(&mut bytes, 1, 1, 2);
    let all = [
        Stroke(Shape::Dot(2, 2), 16, Err((1, 0))),
        Stroke(Shape::Line(2, 2, 1_000_001, 2), 1, Err((2, 0))),
        Stroke(Shape::Line(2, 2, 4098, 2), 1, Err((6, 0))),
        Stroke(Shape::Dot(3, 2), 1, Err((3, 0))),
        Stroke(Shape::Dot(3, 2), 15, Err((4, 0))),
        Stroke(Shape::Dot(2, 2), 0, Err((4, 0))),
        Stroke(Shape::Dot(5, 2), 1, Ok(1)),
    ];
    drawn(&rt, &symmetry, &mut canvas, &all, 1, 1)?;
    row(&rt, &canvas, 1, 2, &[2]);
    Ok(())
}

// Where a line stops at a clash, at the frame and for want of a seat, the cells before it remain laid, and it counts.
#[test]
fn stops(rt: HostRuntime) -> Result<(), Fail> {
    let symmetry = Counterchange::over(Tabled::numbered(3, 6, 6)?);
    let mut records = [BLANK; 3];
    let mut canvas = SparseCanvas::over(&mut records);
    let all = [
        Stroke(Shape::Line(1, 2, 5, 2), 1, Err((3, 2))),
        Stroke(Shape::Line(4, 2, 1, 5), 3, Err((3, 1))),
        Stroke(Shape::Line(2, 3, 2, 5), 5, Err((5, 1))),
        Stroke(Shape::Line(2, 4, 2, 5), 5, Err((5, 0))),
    ];
    drawn(&rt, &symmetry, &mut canvas, &all, 3, 3)?;
    row(&rt, &canvas, 1, 2, &[1, 4, 0, 0]);
    row(&rt, &canvas, 2, 3, &[5]);
    let mut bytes = [0; 4];
    let mut framed = DenseCanvas::over(&mut bytes, 2, 0, 0);
    let plain = Tabled::numbered(1, 6, 6)?;
    let all = [
        Stroke(Shape::Line(0, 0, 5, 0), 9, Err((4, 2))),
        Stroke(Shape::Line(2, 1, 0, 1), 9, Err((4, 0))),
    ];
    drawn(&rt, &plain, &mut framed, &all, 1, 2)?;
    row(&rt, &framed, 0, 0, &[9, 9, 0]);
    Ok(())
}

// The longest lines are laid whole, up to the ends of the span.
#[test]
fn longest(rt: HostRuntime) -> Result<(), Fail> {
    let symmetry = Tabled::numbered(1, 64, 64)?;
    let mut records = [BLANK; 128];
    let mut canvas = SparseCanvas::over(&mut records);
    let all = [
        Stroke(Shape::Line(0, 3, 4095, 3), 7, Ok(4096)),
        Stroke(Shape::Line(4096, 3, 0, 3), 7, Err((6, 0))),
        Stroke(
            Shape::Line(1_000_000, -1_000_000, 995_905, -1_000_000),
            8,
            Ok(4096),
        ),
        Stroke(
            Shape::Line(-1_000_000, 1_000_000, -995_905, 995_905),
            0,
            Ok(4096),
        ),
    ];
    drawn(&rt, &symmetry, &mut canvas, &all, 3, 126)?;
    row(&rt, &canvas, 0, 3, &[7, 7, 7]);
    Ok(())
}

// Makes one dot so many times, and then each stroke.
fn many<S: Symmetry, C: Canvas>(
    rt: &impl Abort,
    sheet: &mut OpenSheet,
    symmetry: &S,
    canvas: &mut C,
    times: u16,
    all: &[Stroke],
) -> Result<(), Fail> {
    for _ in 0..times {
        make(
            rt,
            sheet,
            symmetry,
            canvas,
            &[Stroke(Shape::Dot(1, 2), 1, Ok(1))],
        )?;
    }
    make(rt, sheet, symmetry, canvas, all)
}

// The 65,535th stroke stands, and the next is refused with 7 before anything else; strokes that laid nothing did not count.
#[test]
fn full_sheet(rt: HostRuntime) -> Result<(), Fail> {
    let symmetry = Counterchange::over(Tabled::numbered(3, 6, 6)?);
    let mut records = [BLANK; 1];
    let mut canvas = SparseCanvas::over(&mut records);
    let mut sheet = OpenSheet::open(&mut canvas);
    let all = [
        Stroke(Shape::Dot(3, 2), 1, Err((3, 0))),
        Stroke(Shape::Dot(2, 2), 1, Err((5, 0))),
        Stroke(Shape::Dot(5, 2), 4, Ok(1)),
        Stroke(Shape::Dot(1, 2), 1, Err((7, 0))),
        Stroke(Shape::Dot(1, 2), 16, Err((7, 0))),
        Stroke(Shape::Dot(1_000_001, 2), 1, Err((7, 0))),
        Stroke(Shape::Line(1, 2, 4097, 2), 1, Err((7, 0))),
        Stroke(Shape::Dot(3, 2), 1, Err((7, 0))),
        Stroke(Shape::Dot(2, 2), 1, Err((7, 0))),
    ];
    let result = many(&rt, &mut sheet, &symmetry, &mut canvas, 65_534, &all);
    let had = sheet.leave();
    result?;
    assert_eq!(rt; had, 65_535);
    row(&rt, &canvas, 1, 2, &[3, 0]);
    Ok(())
}

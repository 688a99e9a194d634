// Replaying histories.
use super::lent::PALETTE;
use dense::dense::DenseCanvas;
use groups::tabled::Tabled;
use history::calls::{Answer, Drawing, Drawn, Look, Viewed, Viewing, Window, left_open};
use history::replay::replay;
use layers::layer::Layer;
use pile::base::Base;
use pile::pile::Pile;
use plane::cell::Cell;
use plane::rectangle::Rectangle;
use std::alloc::Global;
use std::test::Fail;

// An answer in plain numbers: how many cells were laid, the ink, how many bytes were written, or the held cells and the strokes of a quote. A refusal is its number, that of a stroke with how many cells were laid before it.
#[derive(Clone, Copy, PartialEq, Eq, Debug)]
enum Told {
    Laid(Result<u16, (u8, u16)>),
    Ink(Result<u8, u8>),
    Bytes(Result<usize, u8>),
    Quote(u32, u16),
}

fn plain(answer: Answer) -> Told {
    match answer {
        Answer::Stroked(laid) => {
            Told::Laid(laid.map_err(|stopped| (stopped.refusal.number(), stopped.laid)))
        }
        Answer::Shown(ink) => Told::Ink(ink.map_err(|why| why.number())),
        Answer::Windowed(bytes) => Told::Bytes(bytes.map_err(|why| why.number())),
        Answer::Quoted(quote) => Told::Quote(quote.held, quote.strokes),
    }
}

// pm, 6 by 6, counterchanged, as a pile.
fn mirrors(heap: Global) -> Result<Pile, Fail> {
    let mut pile = Pile::over(Base::Tabled(Tabled::numbered(3, 6, 6)?), heap);
    match pile.push(Layer::Counterchange) {
        Ok(()) => Ok(pile),
        Err(_) => Err(Fail::new("a counterchange was refused")),
    }
}

// A window of one cell, with so many bytes of the output.
fn pixel(x: i64, y: i64, output: usize) -> Look {
    Look::Window(Window {
        rectangle: Rectangle {
            corner: Cell { x, y },
            width: 1,
            height: 1,
        },
        palette: 48,
        output,
    })
}

// A history that is left open: its answers, and the bytes of its windows one after the other.
#[test]
fn open_at_the_end(rt: HostRuntime) -> Result<(), Fail> {
    let symmetry = mirrors(rt.alloc())?;
    let mut bytes = [0; 24];
    let mut canvas = DenseCanvas::over(&mut bytes, 4, 0, 0);
    let mut drawing = [
        Drawn::of(Drawing::Dot {
            at: Cell { x: 1, y: 2 },
            ink: 1,
        }),
        Drawn::of(Drawing::Look(Look::Show(Cell { x: 5, y: 2 }))),
        Drawn::of(Drawing::Look(pixel(5, 2, 14))),
        Drawn::of(Drawing::Line {
            from: Cell { x: 1, y: 2 },
            to: Cell { x: 5, y: 2 },
            ink: 15,
        }),
        Drawn::of(Drawing::Look(pixel(4, 2, 16))),
        Drawn::of(Drawing::Look(pixel(4, 2, 14))),
    ];
    let mut output = [b'.'; 32];
    replay(
        &symmetry,
        &mut canvas,
        PALETTE,
        &mut drawing,
        left_open(),
        &mut output,
    );
    for (answer, expected) in [
        (drawing[0].answer, Told::Laid(Ok(1))),
        (drawing[1].answer, Told::Ink(Ok(2))),
        (drawing[2].answer, Told::Bytes(Ok(14))),
        (drawing[3].answer, Told::Laid(Ok(5))),
        (drawing[4].answer, Told::Bytes(Ok(14))),
        (drawing[5].answer, Told::Bytes(Err(9))),
    ] {
        assert_eq!(rt; answer.map(plain), Some(expected));
    }
    assert_eq!(rt; output, *b"P6\n1 1\n255\n222P6\n1 1\n255\nfff....");
    Ok(())
}

// A history that closes: looks and quotes after its strokes.
#[test]
fn closed_at_the_end(rt: HostRuntime) -> Result<(), Fail> {
    let symmetry = mirrors(rt.alloc())?;
    let mut bytes = [0; 24];
    let mut canvas = DenseCanvas::over(&mut bytes, 4, 0, 0);
    let mut drawing = [
        Drawn::of(Drawing::Line {
            from: Cell { x: 1, y: 2 },
            to: Cell { x: 5, y: 2 },
            ink: 3,
        }),
        Drawn::of(Drawing::Dot {
            at: Cell { x: 1, y: 2 },
            ink: 16,
        }),
    ];
    let mut viewing = [
        Viewed::of(Viewing::Quote),
        Viewed::of(Viewing::Look(Look::Show(Cell { x: 4, y: 2 }))),
        Viewed::of(Viewing::Look(Look::Show(Cell { x: 0, y: 1_000_001 }))),
        Viewed::of(Viewing::Look(pixel(0, 0, 13))),
    ];
    let mut output = [b'.'; 32];
    replay(
        &symmetry,
        &mut canvas,
        PALETTE,
        &mut drawing,
        Some(&mut viewing),
        &mut output,
    );
    for (answer, expected) in [
        (drawing[0].answer, Told::Laid(Err((3, 2)))),
        (drawing[1].answer, Told::Laid(Err((1, 0)))),
        (viewing[0].answer, Told::Quote(2, 1)),
        (viewing[1].answer, Told::Ink(Ok(4))),
        (viewing[2].answer, Told::Ink(Err(2))),
        (viewing[3].answer, Told::Bytes(Err(9))),
    ] {
        assert_eq!(rt; answer.map(plain), Some(expected));
    }
    assert_eq!(rt; output, [b'.'; 32]);
    Ok(())
}

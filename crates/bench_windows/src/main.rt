// Times windows of 128 by 128 under p6mm with a repeat of 96 by 96, over a dense canvas that holds lines and dots. The time goes to standard error.
#![tactic(auto)]

use anyhow::anyhow;
use canvas::canvas::Canvas;
use dense::dense::DenseCanvas;
use groups::tabled::Tabled;
use plane::cell::Cell;
use plane::rectangle::Rectangle;
use plane::symmetry::Symmetry;
use sheet::sheet::{ClosedSheet, OpenSheet, Sheet};
use std::time::Instant;

const WINDOWS: u8 = 200;

// The time of all windows in microseconds, and a checksum of their bytes.
#[derive(Clone, Copy)]
struct Drawn {
    micros: u128,
    sum: u64,
}

// The cell so many steps from a start.
fn cell(x: i16, y: i16, right: i8, down: i8, steps: u8) -> Cell {
    Cell {
        x: x as i64 + right as i64 * steps as i64,
        y: y as i64 + down as i64 * steps as i64,
    }
}

// Lays eight lines and forty dots.
fn draw<S: Symmetry, C: Canvas>(sheet: &mut OpenSheet, symmetry: &S, canvas: &mut C) {
    for i in 0..8 {
        let from = cell(0, 0, 13, 5, i);
        let to = cell(90, 80, -7, -3, i);
        let _ = sheet.line(symmetry, canvas, from, to, i + 1);
    }
    for i in 0..40 {
        let at = cell(0, 0, 17, 29, i);
        let _ = sheet.dot(symmetry, canvas, at, i % 15 + 1);
    }
}

// Adds bytes to a checksum.
fn summed(sum: u64, bytes: &[u8]) -> u64 {
    bytes.iter().fold(sum, |sum, byte| {
        sum.wrapping_mul(31).wrapping_add(u64::from(*byte))
    })
}

// Draws every window over the bytes of the one before.
fn view<S: Symmetry, C: Canvas>(
    rt: &HostRuntime,
    sheet: &ClosedSheet,
    symmetry: &S,
    canvas: &C,
    output: &mut [u8],
) -> anyhow::Result<Drawn> {
    let palette = *b"...ZaAYbBXcCWdDVeEUfFTgGShHRiIQjJPkKOlLNmMMnNLoO";
    let mut micros: u128 = 0;
    let mut sum: u64 = 0;
    for i in 0..WINDOWS {
        let rectangle = Rectangle {
            corner: cell(-500, 300, 7, -5, i),
            width: 128,
            height: 128,
        };
        let start = Instant::now(rt)?;
        let answer = sheet.window(symmetry, canvas, rectangle, &palette, output);
        micros = micros.saturating_add(start.elapsed(rt)?.as_micros());
        if answer.is_ok() {
            sum = summed(sum, output);
        }
    }
    Ok(Drawn { micros, sum })
}

fn main(rt: HostRuntime) -> anyhow::Result<()> {
    let Ok(symmetry) = Tabled::numbered(17, 96, 96) else {
        return Err(anyhow!("the group was refused"));
    };
    let mut bytes = vec![in rt.alloc(); 0; 9_216]?;
    let mut output = vec![in rt.alloc(); 0; 49_167]?;
    let mut canvas = DenseCanvas::over(bytes.as_mut_slice(), 96, 0, 0);
    let mut open = OpenSheet::open(&mut canvas);
    draw(&mut open, &symmetry, &mut canvas);
    let closed = open.close(&canvas);
    let result = view(&rt, &closed, &symmetry, &canvas, output.as_mut_slice());
    let quote = closed.leave();
    let drawn = result?;
    let micros = drawn.micros / u128::from(WINDOWS);
    let sum = drawn.sum;
    let held = quote.held;
    eprintln!(rt; "window: {micros} us")?;
    println!(rt; "windows {WINDOWS}, held {held}, checksum {sum}")?;
    Ok(())
}

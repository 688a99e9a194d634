// Times a sparse canvas of 65,536 seats: fills it in random order, then looks each cell up. The times go to standard error.
#![tactic(auto)]

use canvas::canvas::Canvas;
use plane::cell::Cell;
use sparse::record::CellRecord;
use sparse::sparse::SparseCanvas;
use std::time::Instant;

const SEATS: u32 = 65_536;

// A permutation of the numbers below 65,536 that mixes them well.
fn shuffled(i: u32) -> u32 {
    let a = i.wrapping_mul(40_503).wrapping_add(12_345) & 0xffff;
    let b = a ^ (a >> 7);
    let c = b.wrapping_mul(25_173) & 0xffff;
    c ^ (c >> 9)
}

fn cell(i: u32) -> Cell {
    let k = shuffled(i);
    Cell {
        x: i64::from(k % 256),
        y: i64::from(k / 256 % 65_536),
    }
}

fn fill<C: Canvas>(canvas: &mut C) -> u32 {
    let mut refused: u32 = 0;
    for i in 0..SEATS {
        if canvas.put(cell(i), (i % 15 + 1) as u8).is_err() {
            refused = refused.saturating_add(1);
        }
    }
    refused
}

fn total<C: Canvas>(canvas: &C) -> u64 {
    let mut sum: u64 = 0;
    for i in 0..SEATS {
        sum = sum.saturating_add(u64::from(canvas.look(cell(i))));
    }
    sum
}

fn main(rt: HostRuntime) -> anyhow::Result<()> {
    let empty = CellRecord { x: 0, y: 0, ink: 0 };
    let mut table = vec![in rt.alloc(); empty; 65_536]?;
    let mut canvas = SparseCanvas::over(table.as_mut_slice());
    let start = Instant::now(&rt)?;
    let refused = fill(&mut canvas);
    let filled = start.elapsed(&rt)?.as_micros();
    let again = Instant::now(&rt)?;
    let sum = total(&canvas);
    let looked = again.elapsed(&rt)?.as_micros();
    let held = canvas.held();
    eprintln!(rt; "sparse canvas: fill {filled} us, look {looked} us")?;
    println!(rt; "held {held}, refused {refused}, sum of inks {sum}")?;
    Ok(())
}

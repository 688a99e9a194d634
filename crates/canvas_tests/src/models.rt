// Canvases against a plain model, on random puts and looks.
use canvas::canvas::Canvas;
use canvas::refusal::PutRefused;
use dense::dense::DenseCanvas;
use plane::cell::Cell;
use sparse::record::CellRecord;
use sparse::sparse::SparseCanvas;
use std::alloc::Global;
use std::collections::BTreeMap;
use std::ops::RangeInclusive;
use std::process::Abort;
use std::test::Fail;

// A map from row and column to ink, with the frame and the seats of a canvas.
#[derive(Drop)]
struct Model {
    inks: BTreeMap<(i64, i64), u8>,
    columns: RangeInclusive<i64>,
    rows: RangeInclusive<i64>,
    seats: usize,
}

impl Model {
    fn look(&self, at: Cell) -> u8 {
        self.inks.get(&(at.y, at.x)).copied().unwrap_or(0)
    }

    // Puts an ink, and answers as a canvas does.
    fn put(&mut self, at: Cell, ink: u8) -> Result<Result<(), PutRefused>, Fail> {
        if ink > 15 {
            return Ok(Err(PutRefused::Ink));
        }
        if !self.columns.contains(&at.x) || !self.rows.contains(&at.y) {
            return Ok(Err(PutRefused::Frame));
        }
        if ink == 0 {
            let _ = self.inks.remove(&(at.y, at.x));
            return Ok(Ok(()));
        }
        if self.look(at) == 0 && self.inks.len() >= self.seats {
            return Ok(Err(PutRefused::Seats));
        }
        let _ = self.inks.insert((at.y, at.x), ink)?;
        Ok(Ok(()))
    }
}

// The next of a run of numbers that look random.
fn stirred(seed: u64) -> u64 {
    seed.wrapping_mul(6364136223846793005)
        .wrapping_add(1442695040888963407)
}

// One put and one look, by the bits of the random number.
fn step<C: Canvas>(
    rt: &impl Abort,
    canvas: &mut C,
    model: &mut Model,
    seed: u64,
) -> Result<(), Fail> {
    let x = model
        .columns
        .start()
        .wrapping_add((seed >> 20) as i64 % 40)
        .wrapping_sub(2);
    let y = model
        .rows
        .start()
        .wrapping_add((seed >> 30) as i64 % 40)
        .wrapping_sub(2);
    let ink = ((seed >> 40) % 17) as u8;
    let at = Cell { x, y };
    assert_eq!(rt; canvas.put(at, ink), model.put(at, ink)?);
    let other = Cell { x: y, y: x };
    assert_eq!(rt; canvas.look(at), model.look(at));
    assert_eq!(rt; canvas.look(other), model.look(other));
    assert!(rt; canvas.held() as usize == model.inks.len());
    Ok(())
}

fn compared<C: Canvas>(
    rt: &impl Abort,
    canvas: &mut C,
    model: &mut Model,
    turns: u32,
) -> Result<(), Fail> {
    let mut seed = 20;
    for _ in 0..turns {
        seed = stirred(seed);
        step(rt, canvas, model, seed)?;
    }
    Ok(())
}

#[test]
fn dense_like_a_map(rt: HostRuntime) -> Result<(), Fail> {
    let mut bytes = [3; 1000];
    let mut canvas = DenseCanvas::over(&mut bytes, 31, -7, 12);
    let mut model = Model {
        inks: BTreeMap::new(rt.alloc()),
        columns: -7..=23,
        rows: 12..=43,
        seats: 992,
    };
    compared(&rt, &mut canvas, &mut model, 12000)
}

#[test]
fn sparse_like_a_map(rt: HostRuntime) -> Result<(), Fail> {
    let mut records = [CellRecord { x: 1, y: 1, ink: 1 }; 500];
    let mut canvas = SparseCanvas::over(&mut records);
    let mut model = Model {
        inks: BTreeMap::new(rt.alloc()),
        columns: -2147483648..=2147483647,
        rows: -2147483648..=2147483647,
        seats: 500,
    };
    compared(&rt, &mut canvas, &mut model, 12000)
}

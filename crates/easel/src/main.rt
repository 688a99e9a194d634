// Shows two canvases at work. Each line of the input is a cell and an ink; it is put on a dense and on a sparse canvas.
// Tells what each refuses, what each holds at the end, and where the two differ.
#![tactic(auto)]

mod request;
mod trial;

use canvas::canvas::Canvas;
use dense::dense::DenseCanvas;
use plane::cell::Cell;
use request::Request;
use sparse::record::CellRecord;
use sparse::sparse::SparseCanvas;
use std::io;

// Puts on one canvas, and tells what it answers.
fn put_on<C: Canvas>(
    rt: &HostRuntime,
    name: &str,
    canvas: &mut C,
    request: Request,
) -> io::Result<()> {
    let x = request.at.x;
    let y = request.at.y;
    let ink = request.ink;
    match trial::answer(canvas, request) {
        Ok(()) => println!(rt; "{name} takes ink {ink} at {x} {y}"),
        Err(why) => println!(rt; "{name} refuses ink {ink} at {x} {y} with {why}"),
    }
}

// Tells how many cells a canvas holds, and which of those that were asked for.
fn tell_held<C: Canvas>(
    rt: &HostRuntime,
    name: &str,
    canvas: &C,
    cells: &[Cell],
) -> io::Result<()> {
    let held = canvas.held();
    println!(rt; "{name} holds {held}")?;
    for at in cells {
        let ink = canvas.look(*at);
        let x = at.x;
        let y = at.y;
        if ink != 0 {
            println!(rt; "  ink {ink} at {x} {y}")?;
        }
    }
    Ok(())
}

// Tells where two canvases differ, among the cells that were asked for.
fn tell_differences<C: Canvas, D: Canvas>(
    rt: &HostRuntime,
    one: &C,
    other: &D,
    cells: &[Cell],
) -> io::Result<()> {
    for at in cells {
        if trial::differ(one, other, *at) {
            let first = one.look(*at);
            let second = other.look(*at);
            let x = at.x;
            let y = at.y;
            println!(rt; "at {x} {y} dense has {first}, sparse {second}")?;
        }
    }
    Ok(())
}

fn main(rt: HostRuntime) -> io::Result<()> {
    let mut bytes = [0; 32];
    let mut records = [CellRecord { x: 0, y: 0, ink: 0 }; 5];
    let mut dense = DenseCanvas::over(&mut bytes, 8, -2, -2);
    let mut sparse = SparseCanvas::over(&mut records);
    let mut cells = Vec::new(rt.alloc());
    for line in rt.lines(rt.alloc()) {
        let text = line?;
        match text.as_str().parse::<Request>() {
            Ok(request) => {
                put_on(&rt, "dense", &mut dense, request)?;
                put_on(&rt, "sparse", &mut sparse, request)?;
                if !cells.as_slice().contains(&request.at) {
                    cells.push(request.at)?;
                }
            }
            Err(_) => println!(rt; "not a cell and an ink: {text}")?,
        }
    }
    tell_held(&rt, "dense", &dense, cells.as_slice())?;
    tell_held(&rt, "sparse", &sparse, cells.as_slice())?;
    tell_differences(&rt, &dense, &sparse, cells.as_slice())
}

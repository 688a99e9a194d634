// Lines by their ends.
ghost use Rattle.std.specs.Prelude.{◌≡◌, ◌<◌, ◌≤◌, length, ◌-ℤ◌, MatchResult, slice_index_or, unsigned_abs};
ghost use Rattle.std.specs.Iterator.{YieldsFirst, item_count};
ghost use Rattle.lines.specs.Lines.{Joins, line_cells, moved, reach, stands, top_length};

use super::refusal::LineRefused;
use plane::cell::Cell;
use std::marker::Model;

// A line of at most 4,096 cells: it takes `steps` steps from its first cell to its last.
#[derive(Clone, Copy)]
pub struct Line {
    from: Cell,
    to: Cell,
    steps: u16,
    ghost short: { steps ≤ 4095 },
    ghost whole: { steps ≡ reach from to },
}

// The cells of a line that are left, from its first to its last.
#[derive(Drop)]
pub struct LineCells {
    line: Line,
    step: u16,
}

impl Model for LineCells {
    ghost use Rattle.std.specs.Prelude.{List, drop};
    ghost use Rattle.plane.specs.declared.cell.Cell.{Cell};
    ghost use Rattle.lines.specs.Lines.{line_cells};

    ghost Value = { List Cell };

    ghost view = { λ s. drop s.step (line_cells s.line.from s.line.to) };
}

impl Iterator for LineCells {
    type Item = Cell;

    ghost next_gives = { YieldsFirst (λ rest. rest) };

    ghost remaining = { item_count (λ rest. rest) };

    fn next(&mut self) -> Option<Cell> {
        if self.step >= self.line.cells() {
            return None;
        }
        let at = self.line.cell(self.step);
        self.step += 1;
        Some(at)
    }
}

// How far a coordinate of difference `d` has moved at step `i` of a line of `a` steps.
fn moved(a: u16, d: u16, i: u16) -> u16
    requires { (d ≤ a) × ((i ≤ a) × (a ≤ 4095)) }
    ensures value { result ≡ moved a d i }
    ensures bound { result ≤ d }
{
    if d == a {
        i
    } else {
        let a = u32::from(a);
        ((2 * u32::from(i) * u32::from(d) + a) / (2 * a)) as u16
    }
}

// Where a coordinate that goes from `u` to `v` stands at step `i` of a line of `a` steps.
fn stands(a: u16, u: i64, v: i64, i: u16) -> i64
    requires { (unsigned_abs (v -ℤ u) ≤ a) × ((i ≤ a) × (a ≤ 4095)) }
    ensures { result ≡ stands a u v i }
{
    let far = i64::from(moved(a, v.abs_diff(u) as u16, i));
    if u <= v { u + far } else { u - far }
}

impl Line {
    // The line from one cell to another, if it has no more than 4,096 cells.
    pub fn between(from: Cell, to: Cell) -> Result<Line, LineRefused>
        ensures answer { MatchResult result (λ line. (line.from ≡ from) × (line.to ≡ to) × (length (line_cells from to) ≤ top_length)) (λ why. (why ≡ LineRefused.TooLong) × (top_length < length (line_cells from to))) }
        ensures joins { Joins from to (line_cells from to) }
    {
        let wide = to.x.abs_diff(from.x);
        let high = to.y.abs_diff(from.y);
        let steps = wide.max(high);
        if steps > 4095 {
            return Err(LineRefused::TooLong);
        }
        Ok(Line {
            from,
            to,
            steps: steps as u16,
        })
    }

    // How many cells it has.
    pub fn cells(&self) -> u16
        ensures { result ≡ length (line_cells self.now.from self.now.to) }
    {
        self.steps + 1
    }

    // The cell at a place among them, from 0; past their end, the last one.
    pub fn cell(&self, i: u16) -> Cell
        ensures { result ≡ slice_index_or (line_cells self.now.from self.now.to) i self.now.to }
    {
        if i > self.steps {
            return self.to;
        }
        let x = stands(self.steps, self.from.x, self.to.x, i);
        let y = stands(self.steps, self.from.y, self.to.y, i);
        Cell { x, y }
    }

    // Its cells, from the first to the last.
    pub fn iter(&self) -> LineCells
        ensures { result ≡ line_cells self.now.from self.now.to }
    {
        LineCells {
            line: *self,
            step: 0,
        }
    }
}

// The home and the kinds of a cell under a tabled group.
ghost use Rattle.std.specs.Prelude.{◌≡◌, ◌/◌, ◌≤◌, pos, ◌+ℤ◌, ◌*ℤ◌};
ghost use Rattle.plane.specs.Cells.{Within};
ghost use Rattle.groups.specs.Lists.{some};
ghost use Rattle.groups.specs.Table.{rows};
ghost use Rattle.groups.specs.Tabled.{reduced, image, home_in, carries, kinds_in};

use super::super::position::Position;
use super::Tabled;
use ints::division::floor_mod;
use ints::products::dot;
use plane::cell::Cell;
use plane::kinds::Kinds;

// A cell within the span of a group.
#[derive(Clone, Copy)]
pub(super) struct Near {
    pub(super) tabled: Tabled,
    pub(super) at: Cell,
    ghost near: { Within 1_000_000 at },
}

impl Tabled {
    // The place of a cell in the repeat.
    fn reduced(self, at: Cell) -> Cell
        ensures { result ≡ reduced self.p self.q at }
    {
        Cell {
            x: floor_mod(at.x, self.p.into()),
            y: floor_mod(at.y, self.q.into()),
        }
    }
}

impl Near {
    // A coordinate of an image: a x + b y, moved by so many halves of the period.
    fn along(self, a: i8, b: i8, halves: i8, period: u32) -> i64
        requires { period ≤ 128 }
        ensures { result ≡ a *ℤ self.at.x +ℤ b *ℤ self.at.y +ℤ halves *ℤ pos (period / 2) }
    {
        dot(a.into(), self.at.x, b.into(), self.at.y) + i64::from(halves) * i64::from(period / 2)
    }

    // The image of the cell under a position, in the repeat.
    fn image(self, by: Position) -> Cell
        ensures { result ≡ image self.tabled.p self.tabled.q self.at by }
    {
        let image = Cell {
            x: self.along(by.a, by.b, by.s, self.tabled.p),
            y: self.along(by.c, by.d, by.t, self.tabled.q),
        };
        self.tabled.reduced(image)
    }

    // The least image of the cell in the repeat.
    pub(super) fn home(self) -> Cell
        ensures { result ≡ home_in self.tabled.group.number self.tabled.p self.tabled.q self.at }
    {
        let mut best = self.tabled.reduced(self.at);
        for row in self.tabled.group.rows() {
            best = best.min(self.image(Position::from(*row)));
        }
        best
    }

    // Whether a position that is improper, or one that is proper, carries the cell to another in the repeat.
    fn carries(self, home: Cell, improper: bool) -> bool
        ensures { result ≡ some (carries self.tabled.p self.tabled.q self.at home improper) (rows self.tabled.group.number) }
    {
        for row in self.tabled.group.rows() {
            let by = Position::from(*row);
            if by.is_improper() == improper && self.image(by) == home {
                return true;
            }
        }
        false
    }

    // The kinds of the operations that carry the cell to its home.
    pub(super) fn kinds(self, home: Cell) -> Kinds
        requires { home ≡ home_in self.tabled.group.number self.tabled.p self.tabled.q self.at }
        ensures { result ≡ kinds_in self.tabled.group.number self.tabled.p self.tabled.q self.at }
    {
        Kinds {
            even_proper: self.carries(home, false),
            even_improper: self.carries(home, true),
            odd_proper: false,
            odd_improper: false,
        }
    }
}

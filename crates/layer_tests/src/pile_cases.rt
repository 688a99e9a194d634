// Worked cases of piles.
use super::answers::{BOTH, EVEN, ODD, at_home};
use groups::tabled::Tabled;
use lattice::oblique::Oblique;
use lattice::vectors::Vectors;
use layers::layer::Layer;
use layers::matrix::Matrix;
use layers::refused::LayerRefused;
use layers::vector::Vector;
use pile::base::Base;
use pile::pile::Pile;
use pile::refused::PileRefused;
use plane::cell::Cell;
use plane::fold::{Extent, FoldRefused};
use plane::symmetry::Symmetry;
use std::test::Fail;

const AGAINST_RULES: PileRefused = PileRefused::Layer(LayerRefused::AgainstRules);

const NO_ROOM: PileRefused = PileRefused::Layer(LayerRefused::NoRoom);

const UNIT: Vectors = Vectors {
    ax: 1,
    ay: 0,
    bx: 0,
    by: 1,
};

fn shift(u: i64, v: i64) -> Layer {
    Layer::Shift(Vector { u, v })
}

fn recast(a: i64, b: i64, c: i64, d: i64) -> Layer {
    Layer::Recast(Matrix { a, b, c, d })
}

#[test]
fn four_layers(rt: HostRuntime) -> Result<(), Fail> {
    let mut pile = Pile::over(Base::Tabled(Tabled::numbered(6, 8, 7)?), rt.alloc());
    for layer in [
        shift(0, 0),
        recast(2, 5, 1, 2),
        shift(-6, -4),
        Layer::Counterchange,
    ] {
        assert_eq!(rt; pile.push(layer), Ok(()));
    }
    for (x, y, expected) in [
        (33_707, 44_431, at_home(15, 5, ODD)),
        (13, 10, at_home(4, 0, BOTH)),
        (0, 62_494, at_home(8, 2, ODD)),
        (-14, -4, at_home(-1, -2, BOTH)),
        (i64::MAX, -62_495, Err(FoldRefused::OffSpan)),
        (i64::MIN, i64::MAX, Err(FoldRefused::OffSpan)),
    ] {
        assert_eq!(rt; pile.fold(Cell { x, y }), expected);
    }
    Ok(())
}

#[test]
fn two_recasts(rt: HostRuntime) -> Result<(), Fail> {
    let mut pile = Pile::over(Base::Tabled(Tabled::numbered(11, 64, 64)?), rt.alloc());
    for layer in [
        recast(3, -2, 1, -1),
        shift(665, -854),
        recast(-5, 1, -6, 1),
        Layer::Counterchange,
    ] {
        assert_eq!(rt; pile.push(layer), Ok(()));
    }
    for (x, y, expected) in [
        (1304, 1142, at_home(-4520, -5258, EVEN)),
        (-11, 4, at_home(-4299, -4988, BOTH)),
        (0, 3853, Err(FoldRefused::OffSpan)),
    ] {
        assert_eq!(rt; pile.fold(Cell { x, y }), expected);
    }
    Ok(())
}

// All parities are as at first.
#[test]
fn counterchanged_twice(rt: HostRuntime) -> Result<(), Fail> {
    let group = Tabled::numbered(12, 6, 6)?;
    let mut pile = Pile::over(Base::Tabled(group), rt.alloc());
    for layer in [Layer::Counterchange, Layer::Counterchange] {
        assert_eq!(rt; pile.push(layer), Ok(()));
    }
    assert_eq!(rt; pile.extent(), group.extent());
    for (x, y) in [(0, 0), (1, 2), (5, 2), (3, 3), (-7, 11)] {
        assert_eq!(rt; pile.fold(Cell { x, y }), group.fold(Cell { x, y }));
    }
    Ok(())
}

// The span shrinks to 15 in four recasts; the fifth is refused, and the pile stays as it was.
#[test]
fn span_shrinks_to_nothing(rt: HostRuntime) -> Result<(), Fail> {
    let mut pile = Pile::over(Base::Tabled(Tabled::numbered(1, 4, 4)?), rt.alloc());
    let unit = recast(1, 0, 0, 1);
    for (layer, expected) in [
        (unit, Ok(())),
        (unit, Ok(())),
        (unit, Ok(())),
        (unit, Ok(())),
        (unit, Err(NO_ROOM)),
        (recast(9, 0, 0, 1), Err(AGAINST_RULES)),
        (shift(15, 0), Err(NO_ROOM)),
        (shift(1001, 0), Err(AGAINST_RULES)),
    ] {
        assert_eq!(rt; pile.push(layer), expected);
    }
    assert_eq!(rt;
        pile.extent(),
        Extent {
            span: 15,
            hem: 8_388_608
        }
    );
    assert_eq!(rt; pile.push(shift(0, -14)), Ok(()));
    assert_eq!(rt;
        pile.extent(),
        Extent {
            span: 1,
            hem: 8_388_622
        }
    );
    Ok(())
}

// The hem of a lattice grows beyond its bound before its span is spent.
#[test]
fn hem_beyond_its_bound(rt: HostRuntime) -> Result<(), Fail> {
    let mut pile = Pile::over(Base::Oblique(Oblique::over(UNIT)?), rt.alloc());
    let turn = recast(0, 1, 1, 0);
    for (layer, expected) in [
        (turn, Ok(())),
        (turn, Ok(())),
        (turn, Ok(())),
        (turn, Err(NO_ROOM)),
    ] {
        assert_eq!(rt; pile.push(layer), expected);
    }
    assert_eq!(rt;
        pile.extent(),
        Extent {
            span: 244,
            hem: 536_870_912
        }
    );
    assert_eq!(rt; pile.fold(Cell { x: 244, y: -244 }), at_home(0, 0, EVEN));
    assert_eq!(rt; pile.fold(Cell { x: 245, y: 0 }), Err(FoldRefused::OffSpan));
    Ok(())
}

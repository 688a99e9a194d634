// Worked cases of the generic layers.
use super::answers::{BOTH, EVEN, ODD, at_home};
use groups::tabled::Tabled;
use layers::counterchange::Counterchange;
use layers::matrix::Matrix;
use layers::recast::Recast;
use layers::refused::{LayerRefused, Refused};
use layers::shift::Shift;
use layers::vector::Vector;
use plane::cell::Cell;
use plane::fold::{Extent, FoldRefused};
use plane::symmetry::Symmetry;
use std::test::Fail;

const SHEAR: Matrix = Matrix {
    a: 1,
    b: 1,
    c: 0,
    d: 1,
};

// Why a layer is refused, if it is.
fn refusal<L: Drop, S: Drop>(made: Result<L, Refused<S>>) -> Option<LayerRefused> {
    made.err().map(|refused| refused.why)
}

#[test]
fn bounds_of_a_shift(rt: HostRuntime) -> Result<(), Fail> {
    let group = Tabled::numbered(1, 4, 4)?;
    for (u, v, why) in [
        (1000, -1000, None),
        (1001, 0, Some(LayerRefused::AgainstRules)),
        (0, -1001, Some(LayerRefused::AgainstRules)),
        (i64::MIN, 0, Some(LayerRefused::AgainstRules)),
        (0, i64::MAX, Some(LayerRefused::AgainstRules)),
    ] {
        assert_eq!(rt; refusal(Shift::over(group, Vector { u, v })), why);
    }
    Ok(())
}

#[test]
fn bounds_of_a_matrix(rt: HostRuntime) -> Result<(), Fail> {
    let group = Tabled::numbered(1, 4, 4)?;
    for (a, b, c, d, why) in [
        (8, 7, -7, -6, None),
        (-8, -7, 7, 6, None),
        (9, 1, -1, 0, Some(LayerRefused::AgainstRules)),
        (1, 0, 9, 1, Some(LayerRefused::AgainstRules)),
        (1, 0, 0, 2, Some(LayerRefused::AgainstRules)),
        (0, 0, 0, 0, Some(LayerRefused::AgainstRules)),
        (
            i64::MIN,
            i64::MAX,
            i64::MAX,
            i64::MIN,
            Some(LayerRefused::AgainstRules),
        ),
    ] {
        assert_eq!(rt; refusal(Recast::over(group, Matrix { a, b, c, d })), why);
    }
    Ok(())
}

// A refused layer gives the symmetry below back.
#[test]
fn below_comes_back(rt: HostRuntime) -> Result<(), Fail> {
    let group = Tabled::numbered(10, 4, 4)?;
    let before = group.fold(Cell { x: 5, y: 3 });
    match Recast::over(
        group,
        Matrix {
            a: 1,
            b: 1,
            c: 1,
            d: 1,
        },
    ) {
        Ok(_) => Err(Fail::new("a matrix of determinant 0 was accepted")),
        Err(refused) => {
            assert_eq!(rt; refused.below.fold(Cell { x: 5, y: 3 }), before);
            Ok(())
        },
    }
}

#[test]
fn recast_p4(rt: HostRuntime) -> Result<(), Fail> {
    let Ok(symmetry) = Recast::over(Tabled::numbered(10, 4, 4)?, SHEAR) else {
        return Err(Fail::new("refused"));
    };
    assert_eq!(rt;
        symmetry.extent(),
        Extent {
            span: 62_500,
            hem: 2048
        }
    );
    for (x, y, expected) in [
        (5, 3, at_home(3, 1, EVEN)),
        (46_845, 35_070, at_home(3, 1, EVEN)),
        (-62_501, -62_500, Err(FoldRefused::OffSpan)),
    ] {
        assert_eq!(rt; symmetry.fold(Cell { x, y }), expected);
    }
    Ok(())
}

// Over pm the mirrors turn odd: (1, 2) and (5, 2) have one home with opposite parities, and (3, 2) is neutral.
#[test]
fn counterchanged_pm(rt: HostRuntime) -> Result<(), Fail> {
    let symmetry = Counterchange::over(Tabled::numbered(3, 6, 6)?);
    for (x, y, expected) in [
        (1, 2, at_home(1, 2, EVEN)),
        (5, 2, at_home(1, 2, ODD)),
        (7, 2, at_home(1, 2, EVEN)),
        (3, 2, at_home(3, 2, BOTH)),
    ] {
        assert_eq!(rt; symmetry.fold(Cell { x, y }), expected);
    }
    Ok(())
}

#[test]
fn shift_over_recast(rt: HostRuntime) -> Result<(), Fail> {
    let Ok(recast) = Recast::over(Tabled::numbered(10, 4, 4)?, SHEAR) else {
        return Err(Fail::new("refused"));
    };
    let Ok(symmetry) = Shift::over(recast, Vector { u: 1, v: 2 }) else {
        return Err(Fail::new("refused"));
    };
    assert_eq!(rt;
        symmetry.extent(),
        Extent {
            span: 62_498,
            hem: 2050
        }
    );
    assert_eq!(rt; symmetry.fold(Cell { x: 6, y: 5 }), at_home(4, 3, EVEN));
    Ok(())
}

#[test]
fn recast_over_shift(rt: HostRuntime) -> Result<(), Fail> {
    let Ok(shift) = Shift::over(Tabled::numbered(10, 4, 4)?, Vector { u: 1, v: 2 }) else {
        return Err(Fail::new("refused"));
    };
    let Ok(symmetry) = Recast::over(shift, SHEAR) else {
        return Err(Fail::new("refused"));
    };
    assert_eq!(rt;
        symmetry.extent(),
        Extent {
            span: 62_499,
            hem: 2080
        }
    );
    assert_eq!(rt; symmetry.fold(Cell { x: 8, y: 5 }), at_home(6, 3, EVEN));
    Ok(())
}

// Worked cases of oblique lattices.
use super::answers::{EVEN, at_home};
use lattice::oblique::Oblique;
use lattice::reduced::{Reduced, reduce};
use lattice::refused::LatticeRefused;
use lattice::vectors::Vectors;
use plane::cell::Cell;
use plane::fold::{Extent, FoldRefused};
use plane::symmetry::Symmetry;
use std::test::Fail;

#[test]
fn reductions(rt: HostRuntime) {
    for (ax, ay, bx, by, p, b, d) in [
        (4, 2, 1, 3, 10, 7, 1),
        (256, 256, -256, 256, 512, 256, 256),
        (0, 256, 256, 0, 256, 0, 256),
        (-256, 255, 255, -256, 511, 1, 1),
        (5, 7, 3, 0, 3, 2, 7),
        (-241, -202, -167, 108, 29881, 12724, 2),
    ] {
        assert_eq!(rt; reduce(Vectors { ax, ay, bx, by }), Ok(Reduced { p, b, d }));
    }
}

// A long entry is told first, then parallel vectors.
#[test]
fn refusals(rt: HostRuntime) {
    for (ax, ay, bx, by, why) in [
        (257, 0, 257, 0, LatticeRefused::TooLong),
        (0, -257, 1, 0, LatticeRefused::TooLong),
        (i64::MIN, 0, 0, i64::MAX, LatticeRefused::TooLong),
        (2, 4, 1, 2, LatticeRefused::Parallel),
        (0, 0, 1, 2, LatticeRefused::Parallel),
        (256, -256, -256, 256, LatticeRefused::Parallel),
    ] {
        assert_eq!(rt; reduce(Vectors { ax, ay, bx, by }), Err(why));
    }
}

#[test]
fn homes(rt: HostRuntime) -> Result<(), Fail> {
    let symmetry = Oblique::over(Vectors {
        ax: 4,
        ay: 2,
        bx: 1,
        by: 3,
    })?;
    assert_eq!(rt;
        symmetry.extent(),
        Extent {
            span: 1_000_000,
            hem: 131_072
        }
    );
    for (x, y, expected) in [
        (5, 2, at_home(1, 0, EVEN)),
        (-479_773, 797_526, at_home(5, 0, EVEN)),
        (-9, -999_999, at_home(4, 0, EVEN)),
        (1_000_001, -9, Err(FoldRefused::OffSpan)),
        (i64::MIN, i64::MAX, Err(FoldRefused::OffSpan)),
    ] {
        assert_eq!(rt; symmetry.fold(Cell { x, y }), expected);
    }
    let wide = Oblique::over(Vectors {
        ax: 256,
        ay: -256,
        bx: 256,
        by: 256,
    })?;
    assert_eq!(rt; wide.fold(Cell { x: -37, y: -22 }), at_home(219, 234, EVEN));
    Ok(())
}

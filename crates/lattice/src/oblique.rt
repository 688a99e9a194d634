// Oblique symmetries.
ghost use Rattle.std.specs.Prelude.{◌≡◌, true, false, IfOk, Some, None, MatchResult};
ghost use Rattle.plane.specs.declared.cell.Cell.{Cell as Place};
ghost use Rattle.lattice.specs.Lattice.{small, parallel, refusal};
ghost use Rattle.lattice.specs.Reduction.{Reduces, reduction};
ghost use Rattle.lattice.specs.Oblique.{oblique};
ghost use Rattle.lattice.specs.Theorems.{OneInBox};
ghost use Rattle.lattice.specs.Grouping.{oblique_laws};

use super::reduced::{Reduced, reduce};
use super::refused::LatticeRefused;
use super::vectors::Vectors;
use plane::cell::Cell;
use plane::fold::{Extent, Fold, FoldRefused};
use plane::kinds::Kinds;
use plane::symmetry::Symmetry;

// The symmetry of the translations by whole combinations of two vectors.
#[derive(Clone, Copy)]
pub struct Oblique {
    vectors: Vectors,
    reduced: Reduced,
    ghost short: { small vectors ≡ true },
    ghost apart: { parallel vectors ≡ false },
    ghost found: { (reduced.p ≡ (reduction vectors).p) × (reduced.b ≡ (reduction vectors).b) × (reduced.d ≡ (reduction vectors).d) },
}

impl Oblique {
    // The oblique symmetry of two vectors, or why they are refused.
    pub fn over(vectors: Vectors) -> Result<Oblique, LatticeRefused>
        ensures outcome { MatchResult result (λ s. (s.vectors ≡ vectors) × (refusal s.vectors ≡ None)) (λ why. refusal vectors ≡ Some why) }
        ensures reduced { IfOk result (λ s. Reduces s.vectors s.reduced) }
        ensures homes { IfOk result (λ s. (p : Place) → OneInBox s.vectors s.reduced p) }
    {
        let reduced = reduce(vectors)?;
        Ok(Oblique { vectors, reduced })
    }

    // The reduction of its lattice.
    pub fn reduced(&self) -> Reduced
        ensures { result ≡ reduction self.now.vectors }
    {
        self.reduced
    }
}

impl Symmetry for Oblique {
    ghost meaning = { λ s. oblique s.vectors };

    ghost lawful = { λ s. oblique_laws s.vectors s.short s.apart };

    fn extent(&self) -> Extent {
        Extent {
            span: 1_000_000,
            hem: 131_072,
        }
    }

    fn fold(&self, at: Cell) -> Result<Fold, FoldRefused> {
        if !at.is_within(1_000_000) {
            return Err(FoldRefused::OffSpan);
        }
        let kinds = Kinds {
            even_proper: true,
            even_improper: false,
            odd_proper: false,
            odd_improper: false,
        };
        Ok(Fold {
            home: self.reduced.home(at),
            kinds,
        })
    }
}

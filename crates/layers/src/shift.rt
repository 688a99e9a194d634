// A symmetry shifted by (u, v).
ghost use Rattle.std.specs.Prelude.{◌≡◌, IfOk};
ghost use Rattle.plane.specs.Meaning.{Alike, extent_of};
ghost use Rattle.layers.specs.Refusals.{made_over};
ghost use Rattle.layers.specs.Shift.{moved_by, shift_extent, shifted};
ghost use Rattle.layers.specs.Shifting.{shift_laws};

use super::layer::{Layer, extent_of_layer, fold_of_layer};
use super::refused::Refused;
use super::vector::Vector;
use plane::cell::Cell;
use plane::fold::{Extent, Fold, FoldRefused};
use plane::symmetry::Symmetry;

// The symmetry below, shifted.
#[derive(Drop)]
pub struct Shift<S> {
    below: S,
    by: Vector,
}

impl<S: Symmetry> Shift<S> {
    // The symmetry shifted by the vector, or the refusal with the symmetry as it was.
    pub fn over(below: S, by: Vector) -> Result<Shift<S>, Refused<S>>
        ensures outcome { result ≡ made_over (shift_extent by (extent_of (S.Symmetry.meaning below))) (record { below = below; by = by }) below }
        ensures alike { IfOk result (λ s. Alike (shifted s.by (S.Symmetry.meaning s.below)) (moved_by by (S.Symmetry.meaning below))) }
    {
        match by.extent_over(below.extent()) {
            Ok(_) => Ok(Shift { below, by }),
            Err(why) => Err(Refused { below, why }),
        }
    }
}

impl<S: Symmetry> Symmetry for Shift<S> {
    ghost meaning = { λ s. shifted s.by (S.Symmetry.meaning s.below) };

    ghost lawful = { λ s. shift_laws (S.Symmetry.meaning s.below) (S.Symmetry.lawful s.below) s.by };

    fn extent(&self) -> Extent {
        extent_of_layer(Layer::Shift(self.by), &self.below)
    }

    fn fold(&self, at: Cell) -> Result<Fold, FoldRefused> {
        fold_of_layer(Layer::Shift(self.by), &self.below, at)
    }
}

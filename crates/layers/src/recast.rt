// A symmetry recast by a matrix.
ghost use Rattle.std.specs.Prelude.{◌≡◌, IfOk};
ghost use Rattle.plane.specs.Meaning.{Alike, extent_of};
ghost use Rattle.layers.specs.Refusals.{made_over};
ghost use Rattle.layers.specs.Recast.{recast_by, recast_extent, recasted};
ghost use Rattle.layers.specs.Recasting.{recast_laws};

use super::layer::{Layer, extent_of_layer, fold_of_layer};
use super::matrix::Matrix;
use super::refused::Refused;
use plane::cell::Cell;
use plane::fold::{Extent, Fold, FoldRefused};
use plane::symmetry::Symmetry;

// The symmetry below, recast.
#[derive(Drop)]
pub struct Recast<S> {
    below: S,
    by: Matrix,
}

impl<S: Symmetry> Recast<S> {
    // The symmetry recast by the matrix, or the refusal with the symmetry as it was.
    pub fn over(below: S, by: Matrix) -> Result<Recast<S>, Refused<S>>
        ensures outcome { result ≡ made_over (recast_extent by (extent_of (S.Symmetry.meaning below))) (record { below = below; by = by }) below }
        ensures alike { IfOk result (λ s. Alike (recasted s.by (S.Symmetry.meaning s.below)) (recast_by by (S.Symmetry.meaning below))) }
    {
        match by.extent_over(below.extent()) {
            Ok(_) => Ok(Recast { below, by }),
            Err(why) => Err(Refused { below, why }),
        }
    }
}

impl<S: Symmetry> Symmetry for Recast<S> {
    ghost meaning = { λ s. recasted s.by (S.Symmetry.meaning s.below) };

    ghost lawful = { λ s. recast_laws (S.Symmetry.meaning s.below) (S.Symmetry.lawful s.below) s.by };

    fn extent(&self) -> Extent {
        extent_of_layer(Layer::Recast(self.by), &self.below)
    }

    fn fold(&self, at: Cell) -> Result<Fold, FoldRefused> {
        fold_of_layer(Layer::Recast(self.by), &self.below, at)
    }
}

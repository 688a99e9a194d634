// A symmetry counterchanged.
ghost use Rattle.std.specs.Prelude.{◌≡◌};
ghost use Rattle.plane.specs.Meaning.{Alike};
ghost use Rattle.layers.specs.Counterchange.{counterchanged};
ghost use Rattle.layers.specs.Exchanging.{counterchange_laws};

use super::layer::{Layer, extent_of_layer, fold_of_layer};
use plane::cell::Cell;
use plane::fold::{Extent, Fold, FoldRefused};
use plane::symmetry::Symmetry;

// The symmetry below, counterchanged.
#[derive(Drop)]
pub struct Counterchange<S> {
    below: S,
}

impl<S: Symmetry> Counterchange<S> {
    // The symmetry counterchanged. It is never refused.
    pub fn over(below: S) -> Counterchange<S>
        ensures outcome { result ≡ record { below = below } }
        ensures alike { Alike (counterchanged (S.Symmetry.meaning result.below)) (counterchanged (S.Symmetry.meaning below)) }
    {
        Counterchange { below }
    }
}

impl<S: Symmetry> Symmetry for Counterchange<S> {
    ghost meaning = { λ s. counterchanged (S.Symmetry.meaning s.below) };

    ghost lawful = { λ s. counterchange_laws (S.Symmetry.meaning s.below) (S.Symmetry.lawful s.below) };

    fn extent(&self) -> Extent {
        extent_of_layer(Layer::Counterchange, &self.below)
    }

    fn fold(&self, at: Cell) -> Result<Fold, FoldRefused> {
        fold_of_layer(Layer::Counterchange, &self.below, at)
    }
}

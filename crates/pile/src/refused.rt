// Why a pile does not grow.
ghost use Rattle.std.specs.Prelude.{◌≡◌};
ghost use Rattle.pile.specs.declared.refused.PileRefused.TheVariants.{Layer as OfLayer, NoMemory as OutOfMemory};

use layers::refused::LayerRefused;
use std::alloc::AllocFailed;

// Why a layer is not added to a pile.
#[derive(Clone, Copy, PartialEq, Eq, Debug)]
pub enum PileRefused {
    // The layer is refused.
    Layer(LayerRefused),
    // There is no memory for it.
    NoMemory,
}

impl From<LayerRefused> for PileRefused {
    ghost from_gives = { λ why refused. refused ≡ OfLayer why };

    fn from(why: LayerRefused) -> PileRefused {
        PileRefused::Layer(why)
    }
}

impl<T: Drop> From<AllocFailed<T>> for PileRefused {
    ghost from_gives = { λ _ refused. refused ≡ OutOfMemory };

    fn from(_: AllocFailed<T>) -> PileRefused {
        PileRefused::NoMemory
    }
}

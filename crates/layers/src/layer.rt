// A layer of any kind.
ghost use Rattle.std.specs.Prelude.{◌≡◌, true};
ghost use Rattle.plane.specs.Cells.{Within};
ghost use Rattle.plane.specs.Meaning.{extent_of, folded};
ghost use Rattle.layers.specs.Counterchange.{exchanged};
ghost use Rattle.layers.specs.Layer.{keeps, layer_extent, layered, down, up, recounted, lowered, raised};

use super::matrix::Matrix;
use super::refused::LayerRefused;
use super::vector::Vector;
use plane::cell::Cell;
use plane::fold::{Extent, Fold, FoldRefused};
use plane::kinds::Kinds;
use plane::symmetry::Symmetry;

// What a layer does to the symmetry below it.
#[derive(Clone, Copy)]
pub enum Layer {
    // Every operation moved by the vector.
    Shift(Vector),
    // Every operation seen through the matrix.
    Recast(Matrix),
    // The parity of every improper operation changed.
    Counterchange,
}

// The kinds after a counterchange.
fn exchange(kinds: Kinds) -> Kinds
    ensures { result ≡ exchanged kinds }
{
    Kinds {
        even_proper: kinds.even_proper,
        even_improper: kinds.odd_improper,
        odd_proper: kinds.odd_proper,
        odd_improper: kinds.even_improper,
    }
}

impl Layer {
    // The extent of the layer over a symmetry of the extent given, or why it is refused there.
    pub fn extent_over(self, below: Extent) -> Result<Extent, LayerRefused>
        ensures { result ≡ layer_extent self below }
    {
        match self {
            Layer::Shift(vector) => vector.extent_over(below),
            Layer::Recast(matrix) => matrix.extent_over(below),
            Layer::Counterchange => Ok(below),
        }
    }

    // The cell that is folded below in place of `at`.
    fn down(self, at: Cell) -> Cell
        requires { keeps self ≡ true × Within 1_000_000_000_000 at }
        ensures { result ≡ down self at }
    {
        match self {
            Layer::Shift(vector) => vector.reverse().moved(at),
            Layer::Recast(matrix) => matrix.inverse().applied(at),
            Layer::Counterchange => at,
        }
    }

    // The home that comes from the home below.
    fn up(self, home: Cell) -> Cell
        requires { keeps self ≡ true × Within 1_000_000_000_000 home }
        ensures { result ≡ up self home }
    {
        match self {
            Layer::Shift(vector) => vector.moved(home),
            Layer::Recast(matrix) => matrix.applied(home),
            Layer::Counterchange => home,
        }
    }

    // The kinds that come from the kinds below.
    fn recount(self, kinds: Kinds) -> Kinds
        ensures { result ≡ recounted self kinds }
    {
        match self {
            Layer::Shift(_) | Layer::Recast(_) => kinds,
            Layer::Counterchange => exchange(kinds),
        }
    }

    // The cell to fold below in place of `at`, or a refusal where `at` is off the layer's span.
    pub fn lower(self, below: Extent, at: Cell) -> Result<Cell, FoldRefused>
        ensures { result ≡ lowered self below at }
    {
        let Ok(own) = self.extent_over(below) else {
            return Ok(at);
        };
        if !at.is_within(own.span) {
            return Err(FoldRefused::OffSpan);
        }
        Ok(self.down(at))
    }

    // The layer's fold of a cell, from the fold below of the lowered cell.
    pub fn raise(self, below: Extent, found: Fold) -> Fold
        ensures { result ≡ raised self below found }
    {
        if self.extent_over(below).is_err() || !found.home.is_within(below.hem) {
            return found;
        }
        Fold {
            home: self.up(found.home),
            kinds: self.recount(found.kinds),
        }
    }
}

// The extent of a layer that is held over a symmetry.
pub fn extent_of_layer<S: Symmetry>(layer: Layer, below: &S) -> Extent
    ensures { result ≡ extent_of (layered layer (S.Symmetry.meaning below.now)) }
{
    let extent = below.extent();
    layer.extent_over(extent).unwrap_or(extent)
}

// The fold of a layer that is held over a symmetry.
pub fn fold_of_layer<S: Symmetry>(layer: Layer, below: &S, at: Cell) -> Result<Fold, FoldRefused>
    ensures { result ≡ folded (layered layer (S.Symmetry.meaning below.now)) at }
{
    let extent = below.extent();
    let lowered = layer.lower(extent, at)?;
    let found = below.fold(lowered)?;
    Ok(layer.raise(extent, found))
}

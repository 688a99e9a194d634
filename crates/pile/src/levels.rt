// The levels of a pile.
ghost use Rattle.std.specs.Prelude.{◌≡◌};
ghost use Rattle.pile.specs.Levels.{level_extent, top_extent, lowered_through, raised_through};

use layers::layer::Layer;
use plane::cell::Cell;
use plane::fold::{Extent, Fold, FoldRefused};

// A layer, with the extent of what is below it.
#[derive(Clone, Copy)]
pub(crate) struct Level {
    pub(crate) layer: Layer,
    pub(crate) below: Extent,
}

impl Level {
    // The extent of the pile up to this level.
    fn extent(self) -> Extent
        ensures { result ≡ level_extent self }
    {
        self.layer.extent_over(self.below).unwrap_or(self.below)
    }
}

// The extent of the highest level, or that of the base where there is none.
pub(crate) fn extent_of_top(levels: &[Level], base: Extent) -> Extent
    ensures { result ≡ top_extent levels.now base }
{
    levels.last().map_or(base, |level| level.extent())
}

// The cell that is folded in the base in place of `at`, or a refusal where a level refuses.
pub(crate) fn lower_through(levels: &[Level], at: Cell) -> Result<Cell, FoldRefused>
    ensures { result ≡ lowered_through levels.now at }
{
    let mut cell = at;
    for level in levels.iter().rev() {
        cell = level.layer.lower(level.below, cell)?;
    }
    Ok(cell)
}

// The fold of the pile, from the fold of the base.
pub(crate) fn raise_through(levels: &[Level], found: Fold) -> Fold
    ensures { result ≡ raised_through levels.now found }
{
    let mut fold = found;
    for level in levels {
        fold = level.layer.raise(level.below, fold);
    }
    fold
}

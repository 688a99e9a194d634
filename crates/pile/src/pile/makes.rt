// How a pile is made, and how it grows.
ghost use Rattle.std.specs.Prelude.{◌≡◌, [], MatchResult};
ghost use Rattle.plane.specs.Meaning.{Alike};
ghost use Rattle.layers.specs.Layer.{laid};
ghost use Rattle.pile.specs.Base.{based};
ghost use Rattle.pile.specs.Piles.{levels_of, pile_meaning};
ghost use Rattle.pile.specs.Pushes.{Accepted, Refuses, with_level};

use super::super::base::Base;
use super::super::levels::Level;
use super::super::refused::PileRefused;
use super::Pile;
use layers::layer::Layer;
use plane::symmetry::Symmetry;
use std::alloc::Global;

impl Pile {
    // The pile of a base with no layers.
    pub fn over(base: Base, heap: Global) -> Pile
        ensures outcome { (result.base ≡ base) × (levels_of result ≡ []) }
        ensures alike { Alike (pile_meaning result) (based base) }
    {
        Pile {
            base,
            levels: Vec::new(heap),
        }
    }

    // Adds a layer on top. Where it is refused, or there is no memory, the pile stays as it was.
    pub fn push(&mut self, layer: Layer) -> Result<(), PileRefused>
        ensures base { self.new.base ≡ self.old.base }
        ensures outcome { MatchResult result (λ _. Accepted layer (pile_meaning self.old) × (levels_of self.new ≡ with_level (levels_of self.old) layer (pile_meaning self.old))) (λ why. Refuses layer (pile_meaning self.old) why × (levels_of self.new ≡ levels_of self.old)) }
        ensures alike { MatchResult result (λ _. Alike (pile_meaning self.new) (laid layer (pile_meaning self.old))) (λ _. Alike (pile_meaning self.new) (pile_meaning self.old)) }
    {
        let below = self.extent();
        layer.extent_over(below)?;
        self.levels.push(Level { layer, below })?;
        Ok(())
    }
}

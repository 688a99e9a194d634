// Why a layer is refused.
ghost use Rattle.std.specs.Prelude.{◌≡◌};
ghost use Rattle.layers.specs.Refusals.{layer_number, judged};

use plane::fold::Extent;

// Why a layer is refused.
#[derive(Clone, Copy, PartialEq, Eq, Debug)]
pub enum LayerRefused {
    // A shift beyond 1000, a matrix entry beyond 8, or a determinant that is neither 1 nor -1.
    AgainstRules,
    // The span would be below 1, or the hem above 1,000,000,000.
    NoRoom,
}

impl LayerRefused {
    // The refusal's number.
    pub fn number(self) -> u8
        ensures { result ≡ layer_number self }
    {
        match self {
            LayerRefused::AgainstRules => 15,
            LayerRefused::NoRoom => 16,
        }
    }
}

// A refusal, with the symmetry below as it was.
#[derive(Drop)]
pub struct Refused<S> {
    pub below: S,
    pub why: LayerRefused,
}

// The extent that a layer would have, or why it is refused: first if it is against the rules, then for want of room.
pub(crate) fn judge(fair: bool, span: u32, hem: u64) -> Result<Extent, LayerRefused>
    ensures { result ≡ judged fair (record { span = span; hem = hem }) }
{
    if !fair {
        return Err(LayerRefused::AgainstRules);
    }
    if span < 1 || hem > 1_000_000_000 {
        return Err(LayerRefused::NoRoom);
    }
    Ok(Extent {
        span,
        hem: hem as u32,
    })
}

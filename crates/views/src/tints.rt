// What the kinds of a cell do to an ink.
ghost use Rattle.std.specs.Prelude.{◌≡◌};
ghost use Rattle.views.specs.Tints.{all_odd, clash, tinted};

use canvas::ink::counterpart;
use plane::kinds::Kinds;

// Whether all kinds are odd.
fn all_odd(kinds: Kinds) -> bool
    ensures { result ≡ all_odd kinds }
{
    !(kinds.even_proper || kinds.even_improper)
}

// Whether a cell of these kinds cannot have the ink.
pub fn clash(kinds: Kinds, ink: u8) -> bool
    ensures { result ≡ clash kinds ink }
{
    let neutral = (kinds.even_proper || kinds.even_improper)
        && (kinds.odd_proper || kinds.odd_improper);
    neutral && counterpart(ink) != ink
}

// The ink, or its counterpart if all kinds are odd.
pub fn tint(kinds: Kinds, ink: u8) -> u8
    ensures { result ≡ tinted (all_odd kinds) ink }
{
    if all_odd(kinds) {
        counterpart(ink)
    } else {
        ink
    }
}

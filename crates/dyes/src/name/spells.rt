// How names are spelled, and their order.
ghost use Rattle.std.specs.Prelude.{◌≡◌};
ghost use Rattle.dyes.specs.Names.{TextsOrdered, blank_name, lexical, spelled, well_formed};

use super::super::refusal::DyeRefused;
use super::DyeName;
use std::str::FromStr;

impl DyeName {
    // No name: every byte is 0.
    pub(crate) fn blank() -> DyeName
        ensures { result ≡ blank_name }
    {
        DyeName { letters: [0; 8] }
    }

    // Whether the name is before the other.
    pub fn precedes(self, other: DyeName) -> bool
        ensures is { result ≡ lexical self.letters other.letters }
        ensures texts { TextsOrdered }
    {
        self.cmp(&other).is_lt()
    }
}

// Whether the bytes are one to eight letters.
fn is_well_formed(bytes: &[u8]) -> bool
    ensures { result ≡ well_formed bytes.now }
{
    !bytes.is_empty() && bytes.len() <= 8 && bytes.iter().all(|b| b.is_ascii_lowercase())
}

// The name that a text spells.
impl FromStr for DyeName {
    type Err = DyeRefused;

    ghost from_str_gives = { λ text name. name ≡ spelled text };

    fn from_str(text: &str) -> Result<DyeName, DyeRefused> {
        let bytes = text.as_bytes();
        if !is_well_formed(bytes) {
            return Err(DyeRefused::Malformed);
        }
        let mut letters = [0; 8];
        letters[..bytes.len()].copy_from_slice(bytes);
        Ok(DyeName { letters })
    }
}

// Inks: 0 is bare, and 1 to 15 are the inks that a cell may have.
ghost use Rattle.std.specs.Prelude.{◌≡◌};
ghost use Rattle.canvas.specs.Inks.{Pairing, counterpart};

// The ink that an ink is exchanged with: 1 with 2, 3 with 4, up to 13 with 14. Bare, 15 and any larger number are their own.
pub fn counterpart(ink: u8) -> u8
    ensures is { result ≡ counterpart ink }
    ensures pairs { Pairing counterpart }
{
    match ink {
        1..=14 if ink % 2 == 1 => ink + 1,
        1..=14 => ink - 1,
        _ => ink,
    }
}

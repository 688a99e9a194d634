// Numbers within bounds.
ghost use Rattle.std.specs.Prelude.{◌≡◌, true, false, MatchOption, nat_le, unsigned_abs};
ghost use Rattle.ints.specs.Ranges.{from_one_to, natural};

// Whether a number is at most `bound` either way from 0.
pub fn is_at_most(x: i64, bound: u32) -> bool
    ensures { result ≡ nat_le (unsigned_abs x) bound }
{
    x.unsigned_abs() <= u64::from(bound)
}

// The number, if it is from 1 to `top`.
pub fn from_one_to(top: u32, x: i64) -> Option<u32>
    ensures { MatchOption result (from_one_to top (natural x) ≡ false) (λ n. (n ≡ natural x) × (from_one_to top (natural x) ≡ true)) }
{
    u32::try_from(x).ok().filter(|n| (1..=top).contains(n))
}

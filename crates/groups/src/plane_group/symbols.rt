// The symbols of the plane groups.
ghost use Rattle.std.specs.Prelude.{◌≡◌, MatchOption};
ghost use Rattle.groups.specs.Symbols.{symbol_of, number_named};

use super::PlaneGroup;

// The symbols in the order of the groups' numbers.
const SYMBOLS: [&str; 17] = [
    "p1", "p2", "pm", "pg", "cm", "p2mm", "p2mg", "p2gg", "c2mm", "p4", "p4mm", "p4gm", "p3",
    "p3m1", "p31m", "p6", "p6mm",
];

impl PlaneGroup {
    // The group with that symbol.
    pub fn named(text: &str) -> Option<PlaneGroup>
        ensures { MatchOption result (number_named text.now ≡ 0) (λ group. group.number ≡ number_named text.now) }
    {
        let index = SYMBOLS.iter().position(|symbol| *symbol == text)?;
        Some(PlaneGroup {
            number: index as u32 + 1,
        })
    }

    // The group's symbol.
    pub fn symbol(self) -> &'static str
        ensures { result.now ≡ symbol_of self.number }
    {
        SYMBOLS[self.number as usize - 1]
    }
}

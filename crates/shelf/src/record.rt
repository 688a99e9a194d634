// What a shelf keeps.
ghost use Rattle.std.specs.Prelude.{◌≡◌};
ghost use Rattle.shelf.specs.Keys.{Keys, TotalOrder};

// A record with a key.
pub trait Record: Copy {
    type Key: Copy;

    // The key of a record, and which of two keys is before the other.
    ghost keys: { Keys Self Self.Key };

    // The key.
    fn key(&self) -> Self::Key
        ensures { result ≡ keys.key self.now };

    // Whether the first of two keys is before the second.
    fn precedes(first: Self::Key, second: Self::Key) -> bool
        ensures { result ≡ keys.before first second };

    // The keys are in a total order.
    ghost total: { TotalOrder keys };
}

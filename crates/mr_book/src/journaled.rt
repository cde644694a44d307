/// An entry of a journal.
pub trait Authored {
    ghost use Rattle.std.specs.Prelude.{ℕ};

    // The number of who made it.
    ghost author: { Self → ℕ };
}

/// A value with a list of entries, which only grows.
pub trait Journaled {
    ghost use Rattle.std.specs.Prelude.{◌≡◌, List, length};

    type Entry: Authored;

    // The list.
    ghost entries: { Self → List Self.Entry };

    /// The list's length.
    fn count(&self) -> u64
        ensures { result ≡ length (entries self.now) };
}

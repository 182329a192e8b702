//! Files that have a name to be reported by.
ghost use Rattle.std.specs.Prelude.{◌≡◌, ℕ, List};

/// A file of a run, which has a name to be reported by.
pub trait Named {
    /// The name.
    ghost name: { Self → List ℕ };

    /// The name.
    fn name(&self) -> &str
        // The name is the one that the file has.
        ensures { result.now ≡ name self.now };
}

impl Named for &str {
    ghost name = { λ text. text.now };

    fn name(&self) -> &str {
        self
    }
}

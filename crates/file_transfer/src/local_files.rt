//! Local files.
ghost use Rattle.std.specs.Prelude.{◌≡◌, ◌≤◌, List, Option, ℕ, length, IfOk, IfSome, OnOk, OnErr};
ghost use Rattle.chaos_file.specs.declared.limits.TheConstants.{MAX_FILE};
ghost use Rattle.file_transfer.specs.Copied.{WrittenFile, written_after};

use std::io;

/// The files of this side.
pub trait LocalFiles {
    /// The files that were written so far, in order. `None` where that isn't known.
    ghost written: { Self → Option (List WrittenFile) };

    /// What a file of this name has, where that is known.
    ghost held: { Self → List ℕ → Option (List ℕ) };

    /// Makes sure that the file of this name can be written: nothing changes.
    ///
    /// # Errors
    /// Those of the system, and where something else than a file has the name.
    fn check(&mut self, name: &str) -> io::Result<()>
        // To make sure that a file can be written writes none.
        ensures { written self.new ≡ written self.old };

    /// Writes a file of this name whole, in place of one that has it.
    ///
    /// # Errors
    /// Those of the system: nothing changes then, and nothing is left.
    fn keep(&mut self, name: &str, bytes: &[u8]) -> io::Result<()>
        // A file is written whole.
        ensures written { OnOk result
            (written self.new ≡ written_after name.now bytes.now (written self.old)) }
        // Otherwise nothing is written.
        ensures failed { OnErr result (written self.new ≡ written self.old) };

    /// All bytes of a file, or None where they are more than a file of FILE may have.
    ///
    /// # Errors
    /// Those of the system.
    fn read(&mut self, name: &str) -> io::Result<Option<Vec<u8>>>
        // What is read is no more than a file of FILE may have.
        ensures fits { IfOk result (λ o. IfSome o (λ v. length v.items ≤ MAX_FILE)) }
        // What is read is all that the file has, where that is known.
        ensures whole { IfOk result
            (λ o. IfSome o (λ v. IfSome (held self.old name.now) (λ all. v.items ≡ all))) };
}

//! Where files are kept.
ghost use Rattle.std.specs.Prelude.{◌≡◌, ◌≤◌, ℕ, List, length, Option, IfSome};
ghost use Rattle.chaos_packet.specs.Count.{Rose};
ghost use Rattle.chaos_file.specs.Store.{Files, Gives, Gets, Puts, Removes, Renames};

use crate::file_bytes::FileBytes;
use std::alloc::Global;
use std::io;

/// What a `get` finds.
#[derive(Drop)]
pub enum Got {
    /// The file's bytes, as they are now.
    Bytes(FileBytes),
    /// No file has the path.
    Absent,
    /// The file has more bytes than the limit.
    TooBig,
    /// The store failed, and its count of failures rose.
    Failed,
    /// There was no memory for the bytes.
    NoMemory,
}

/// Whether a path that was put had a file before.
#[derive(Clone, Copy, Debug, PartialEq, Eq)]
pub enum Placed {
    /// No file had the path.
    New,
    /// A file had the path, and the bytes replaced its bytes.
    Replaced,
}

/// How a `put` went.
#[derive(Clone, Copy, Debug, PartialEq, Eq)]
pub enum Stored {
    /// The bytes are the path's whole content.
    Done(Placed),
    /// The store failed, and its count of failures rose. The files stay.
    Failed,
    /// There was no memory. The files stay.
    NoMemory,
}

/// How a `remove` went.
#[derive(Clone, Copy, Debug, PartialEq, Eq)]
pub enum Removed {
    /// The file is gone.
    Done,
    /// No file has the path.
    Absent,
    /// The store failed, and its count of failures rose. The files stay.
    Failed,
    /// There was no memory. The files stay.
    NoMemory,
}

/// How a `rename` went.
#[derive(Clone, Copy, Debug, PartialEq, Eq)]
pub enum Renamed {
    /// The file has moved.
    Done,
    /// No file has the old path.
    Absent,
    /// A file has the new path already.
    Exists,
    /// The store failed, and its count of failures rose. The files stay.
    Failed,
    /// There was no memory. The files stay.
    NoMemory,
}

/// Why a store failed.
#[derive(Clone, Copy, Debug)]
pub enum Cause<'a> {
    /// The store is only read, and the call would change a file.
    ReadOnly,
    /// The system refused something.
    System(&'a io::Error),
}

/// Keeps files under paths.
///
/// Every store answers `Failed` only where its count of failures rose in that call. An honest store
/// keeps its files as a map from path to bytes: each call answers by this map, changes it as it
/// answers, and leaves it where it failed or found no memory.
pub trait Store {
    /// The files, where the store is known to be honest; a store that claims nothing has None.
    ghost contents: { Self → Option Files };

    /// The bytes that a `get` of a path may give within a limit. What is known of a store's answers
    /// beside the limit is said here; a store that says nothing allows all.
    ghost may_give: { Self → List ℕ → ℕ → List ℕ → Type 0 };

    /// How many calls have failed so far.
    ghost count: { Self → ℕ };

    /// The bytes of a path's file, where they are at most `limit`.
    fn get(&mut self, alloc: Global, path: &[u8], limit: usize) -> Got
        // It fails only where the count of failures rose.
        ensures failed { result ≡ Got.Failed → Rose (count self.old) (count self.new) }
        // It gives no more bytes than it is asked for.
        ensures limit { Gives (λ bytes. length bytes ≤ limit) result }
        // It gives bytes such as `may_give` allows.
        ensures gives { Gives (may_give self.old path.now limit) result }
        // An honest store gives the file that its map has at the path, and stays as it was.
        ensures files { IfSome (contents self.old)
            (Gets path.now limit result (contents self.new)) };

    /// Makes these bytes the whole content of a path, new or replaced.
    fn put(&mut self, alloc: Global, path: &[u8], bytes: &[u8]) -> Stored
        // It fails only where the count of failures rose.
        ensures failed { result ≡ Stored.Failed → Rose (count self.old) (count self.new) }
        // The bytes become the whole file at the path of an honest store, and `Done` says whether
        // they replaced a file. A call that fails or finds no memory leaves all files.
        ensures files { IfSome (contents self.old)
            (Puts path.now bytes.now result (contents self.new)) };

    /// Takes a path's file out.
    fn remove(&mut self, alloc: Global, path: &[u8]) -> Removed
        // It fails only where the count of failures rose.
        ensures failed { result ≡ Removed.Failed → Rose (count self.old) (count self.new) }
        // The path is taken out of the map of an honest store. A call that fails or finds no memory
        // leaves all files.
        ensures files { IfSome (contents self.old) (Removes path.now result (contents self.new)) };

    /// Moves a file to a path that no file has. The old path is looked for first, so that two equal
    /// paths are `Exists` or `Absent`.
    fn rename(&mut self, alloc: Global, old: &[u8], new: &[u8]) -> Renamed
        // It fails only where the count of failures rose.
        ensures failed { result ≡ Renamed.Failed → Rose (count self.old) (count self.new) }
        // The file moves to the new path in the map of an honest store, where no file has it. A
        // call that fails or finds no memory leaves all files.
        ensures files { IfSome (contents self.old)
            (Renames old.now new.now result (contents self.new)) };

    /// How many calls have failed so far. The count stays at the greatest `u64`.
    fn failures(&self) -> u64
        // It is the count of failures.
        ensures { result ≡ count self.now };

    /// Why the last call failed, where the store knows more than that it failed. Ask right after
    /// the call. No clause says what the system refused.
    fn cause(&self) -> Option<Cause<'_>> {
        None
    }
}

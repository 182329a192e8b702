//! Files in a folder of the system.
ghost use Rattle.std.specs.Prelude.{◌≡◌, ◌≤◌, true, false, length, None, IfOk};
ghost use Rattle.chaos_packet.specs.Count.{Rose, with_failure};
ghost use Rattle.chaos_file.specs.Names.{is_path};
ghost use Rattle.chaos_file.specs.Store.{Gives, failures_after_get, failures_after_put, failures_after_remove, failures_after_rename};

mod answers;
mod folder;
mod held;

use crate::names::is_path;
use crate::store::{Cause, Got, Removed, Renamed, Store, Stored};
use answers::{got_as, removed_as, renamed_as, stored_as};
use folder::Folder;
use std::alloc::Global;
use std::fs::File;
use std::io;
use std::marker::Model;
use std::rt::Files;

/// A store that keeps each file as a file of one folder, under its path as name. Contracts see its
/// count of failures.
///
/// What the system keeps in the folder no clause can say, so this store claims no contents. It
/// answers `Failed` for what the system refuses, but for a file that isn't there and for memory;
/// for a path that isn't legal; and where a path's name in the folder is no file, as a folder, a
/// link, a fifo, a socket or a device: none is opened, followed, moved, replaced or taken away. So
/// no path leads out of the folder, and no call waits for anybody but the disk. What the system
/// said is the call's [`cause`](Store::cause).
///
/// A `put` writes the file `.new` of the folder, flushes it to the disk, renames it over the path
/// and flushes the folder, so that a path has its old content or its new one whole, and one that
/// was answered `Done` survives a loss of power. A file that is replaced leaves its mode to the new
/// one. What was left at `.new` is taken away first, and never followed. A `put` that failed left
/// its path as it was and nothing at `.new`, unless it was the folder's flush that failed.
///
/// A folder has one store at a time: its store holds the system's lock on the folder, and a second
/// one isn't opened. The lock keeps other stores out and no other program.
///
/// The store holds the folder that it opened, whatever comes to have the folder's name. Each call
/// asks first whether the name still leads to that folder, and fails where it doesn't: the folder
/// was renamed or removed, a disk was mounted over it, or its disk was unmounted. Once the name
/// leads there again, the calls go on. What a call does, it does in the folder that is held; where
/// the system has no `/proc/self/fd`, it does so by the folder's name, right after that question.
///
/// A `put` waits for two flushes, which is what it costs: some milliseconds each, as the disk is.
/// The other calls flush nothing, so that a loss of power may undo a `remove` or a `rename`. Each
/// call takes memory for the joined paths, and `get` for the file's bytes.
#[derive(Drop)]
pub struct DirStore<R> {
    folder: Folder<R>,
    failures: u64,
    /// What the system said in the last call, where it refused something.
    fault: Option<io::Error>,
}

impl<R> Model for DirStore<R> {
    ghost use Rattle.std.specs.Prelude.{ℕ};

    ghost Value = { ℕ };

    ghost view = { λ s. s.failures };
}

impl<R: Drop + Files<File = File>> DirStore<R> {
    /// The store of a folder that is there and has no other, without failures; else the system's
    /// fault, which is `ResourceBusy` where another has it. What a put left that was never ended is
    /// taken away.
    pub fn open(rt: R, folder: String) -> io::Result<DirStore<R>>
        // No failure is counted yet.
        ensures { IfOk result (λ s. s ≡ 0) }
    {
        Ok(DirStore {
            folder: Folder::open(rt, folder)?,
            failures: 0,
            fault: None,
        })
    }
}

impl<R: Files> DirStore<R> {
    fn note_failure(&mut self)
        ensures { self.new ≡ with_failure self.old }
    {
        self.failures = self.failures.saturating_add(1);
    }
}

impl<R: Files> Store for DirStore<R> {
    // It claims no files, so that no call's `files` says anything.
    ghost contents = { λ _. None };

    ghost may_give = { λ _ _ _ _. Unit {0} };

    ghost count = { λ s. s };

    fn get(&mut self, alloc: Global, path: &[u8], limit: usize) -> Got
        // It fails only where the count of failures rose. Of what the folder keeps nothing is said.
        ensures failed { result ≡ Got.Failed → Rose self.old self.new }
        ensures files { Unit {0} }
        // A failure is counted exactly where it answers Failed.
        ensures counted { self.new ≡ failures_after_get result self.old }
        // A path that isn't legal is answered Failed.
        ensures illegal { is_path path.now ≡ false → result ≡ Got.Failed }
        // It gives no more bytes than it is asked for.
        ensures limit { Gives (λ bytes. length bytes ≤ limit) result }
        ensures gives { Gives (λ _. Unit {0}) result }
    {
        self.fault = None;
        let got = if is_path(path) {
            got_as(self.folder.get(alloc, path, limit), &mut self.fault)
        } else {
            Got::Failed
        };
        if matches!(&got, Got::Failed) {
            self.note_failure();
        }
        got
    }

    fn put(&mut self, alloc: Global, path: &[u8], bytes: &[u8]) -> Stored
        // It fails only where the count of failures rose. Of what the folder keeps nothing is said.
        ensures failed { result ≡ Stored.Failed → Rose self.old self.new }
        ensures files { Unit {0} }
        // A failure is counted exactly where it answers Failed.
        ensures counted { self.new ≡ failures_after_put result self.old }
        // A path that isn't legal is answered Failed.
        ensures illegal { is_path path.now ≡ false → result ≡ Stored.Failed }
    {
        self.fault = None;
        let stored = if is_path(path) {
            stored_as(self.folder.put(alloc, path, bytes), &mut self.fault)
        } else {
            Stored::Failed
        };
        if stored == Stored::Failed {
            self.note_failure();
        }
        stored
    }

    fn remove(&mut self, alloc: Global, path: &[u8]) -> Removed
        // It fails only where the count of failures rose. Of what the folder keeps nothing is said.
        ensures failed { result ≡ Removed.Failed → Rose self.old self.new }
        ensures files { Unit {0} }
        // A failure is counted exactly where it answers Failed.
        ensures counted { self.new ≡ failures_after_remove result self.old }
        // A path that isn't legal is answered Failed.
        ensures illegal { is_path path.now ≡ false → result ≡ Removed.Failed }
    {
        self.fault = None;
        let removed = if is_path(path) {
            removed_as(self.folder.remove(alloc, path), &mut self.fault)
        } else {
            Removed::Failed
        };
        if removed == Removed::Failed {
            self.note_failure();
        }
        removed
    }

    fn rename(&mut self, alloc: Global, old: &[u8], new: &[u8]) -> Renamed
        // It fails only where the count of failures rose. Of what the folder keeps nothing is said.
        ensures failed { result ≡ Renamed.Failed → Rose self.old self.new }
        ensures files { Unit {0} }
        // A failure is counted exactly where it answers Failed.
        ensures counted { self.new ≡ failures_after_rename result self.old }
        // A rename from or to a path that isn't legal is answered Failed.
        ensures illegal_old { is_path old.now ≡ false → result ≡ Renamed.Failed }
        ensures illegal_new { is_path new.now ≡ false → result ≡ Renamed.Failed }
    {
        self.fault = None;
        let renamed = if is_path(old) && is_path(new) {
            renamed_as(self.folder.rename(alloc, old, new), &mut self.fault)
        } else {
            Renamed::Failed
        };
        if renamed == Renamed::Failed {
            self.note_failure();
        }
        renamed
    }

    fn failures(&self) -> u64 {
        self.failures
    }

    fn cause(&self) -> Option<Cause<'_>> {
        self.fault.as_ref().map(Cause::System)
    }
}

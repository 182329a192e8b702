//! Files in memory.
ghost use Rattle.std.specs.Prelude.{◌≡◌, ◌≤◌, ◌<◌, true, [], ◌∷◌, ◌++◌, Some, None, IfSome, length, find, position, option_map, vec_len, vec_capacity, OnOk, OnErr, IfOk};
ghost use Rattle.std.specs.FinMap as map;
ghost use Rattle.chaos_file.specs.Store.{Files, Found, is_there, look_for, placed_in, with_moved, Gets, Puts, Removes, Renames};
ghost use Rattle.chaos_file.specs.Entries.{is_at, files_of, others, with_path};

use crate::file_bytes::FileBytes;
use crate::store::{Got, Placed, Removed, Renamed, Store, Stored};
use std::alloc::{AllocError, Global};
use std::marker::Model;

/// A path and the bytes of its file.
#[derive(Drop)]
struct Entry {
    path: FileBytes,
    bytes: FileBytes,
}

impl Model for Entry {
    ghost use Rattle.chaos_file.specs.Entries as entries;

    ghost Value = { entries.Entry };

    ghost view = { λ e. (e.path, e.bytes) };
}

/// A store that keeps its files in memory, which contracts see as the map of its files. It is
/// always honest, and never fails.
///
/// A call looks at each path in turn. `get` and `put` copy the file's bytes once, `rename` the new
/// path alone; they take the memory for it before they change anything.
#[derive(Drop)]
pub struct MemStore {
    entries: Vec<Entry>,
}

impl Model for MemStore {
    ghost use Rattle.chaos_file.specs.Store.{Files};
    ghost use Rattle.std.specs.FinMap as map;
    ghost use Rattle.std.specs.Coded.{coded_list, coded_ℕ};
    ghost use Rattle.chaos_file.specs.Entries.{files_of};

    ghost Value = { Files };

    ghost coded = { map.code (coded_list coded_ℕ) (coded_list coded_ℕ) };

    ghost view = { λ s. files_of s.entries.items };
}

impl Entry {
    fn is_at(&self, path: &[u8]) -> bool
        ensures { result ≡ is_at path.now self.now }
    {
        path == self.path.as_slice()
    }

    fn bytes(&self) -> &[u8]
        ensures { result.now ≡ self.now.1 }
    {
        self.bytes.as_slice()
    }
}

/// A copy of these bytes.
fn copied(alloc: Global, bytes: &[u8]) -> Result<FileBytes, AllocError>
    ensures { IfOk result (λ c. c ≡ bytes.now) }
{
    let mut copy = FileBytes::new();
    copy.append(alloc, bytes)?;
    Ok(copy)
}

fn make_entry(alloc: Global, path: &[u8], bytes: &[u8]) -> Result<Entry, AllocError>
    ensures { IfOk result (λ e. e ≡ (path.now, bytes.now)) }
{
    Ok(Entry {
        path: copied(alloc, path)?,
        bytes: copied(alloc, bytes)?,
    })
}

/// The bytes of a path's first entry.
fn lookup<'a>(entries: &'a [Entry], path: &[u8]) -> Option<&'a [u8]>
    ensures { option_map (λ b. b.now) result
        ≡ option_map (λ e. e.1) (find (is_at path.now) entries.now) }
{
    match entries.iter().find(|e| e.is_at(path)) {
        Some(e) => Some(e.bytes()),
        None => None,
    }
}

/// Takes a path's entries out.
fn drop_at(entries: &mut Vec<Entry>, path: &[u8])
    ensures items { entries.new.items ≡ others path.now entries.old.items }
    ensures len { vec_len entries.new ≤ vec_len entries.old }
    ensures capacity { vec_capacity entries.new ≡ vec_capacity entries.old }
{
    entries.retain(|e| !e.is_at(path));
}

/// The place of a path's first entry.
fn place_of(entries: &[Entry], path: &[u8]) -> Option<usize>
    ensures value { result ≡ position (is_at path.now) entries.now }
    ensures within { IfSome result (λ place. place < length entries.now) }
{
    entries.iter().position(|e| e.is_at(path))
}

/// Gives the entry at a place another path, and takes out the other entries of its old one.
fn move_entry(entries: &mut Vec<Entry>, place: usize, old: &[u8], path: FileBytes)
    requires { place < length entries.old.items }
    ensures { entries.new.items ≡ others old.now (with_path entries.old.items place path) }
{
    let entry = &mut entries.as_mut_slice()[place];
    entry.path = path;
    drop_at(entries, old);
}

/// Takes a path's entries out, and puts one in.
fn replace(entries: &mut Vec<Entry>, path: &[u8], entry: Entry) -> Result<(), AllocError>
    ensures ok { OnOk result (entries.new.items ≡ others path.now entries.old.items ++ entry ∷ []) }
    ensures err { OnErr result (entries.new.items ≡ entries.old.items) }
{
    entries.reserve(1)?;
    drop_at(entries, path);
    entries.push_reserved(entry);
    Ok(())
}

impl MemStore {
    /// A store without files. It takes no memory yet.
    #[tactic(auto, using(crate::proofs::Files::files_none))]
    pub fn new(alloc: Global) -> Self
        // No path has a file.
        ensures { result ≡ map.empty }
    {
        MemStore {
            entries: Vec::new(alloc),
        }
    }

    #[tactic(auto, using(crate::proofs::Files::get_found))]
    fn lookup(&self, path: &[u8]) -> Option<&[u8]>
        ensures { option_map (λ b. b.now) result ≡ map.get self.now path.now }
    {
        lookup(self.entries.as_slice(), path)
    }

    /// Whether a put of this path replaces a file.
    fn placed(&self, path: &[u8]) -> Placed
        ensures { result ≡ placed_in self.now path.now }
    {
        match self.lookup(path) {
            Some(_) => Placed::Replaced,
            None => Placed::New,
        }
    }

    #[tactic(auto, using(crate::proofs::Files::files_set))]
    fn set(&mut self, alloc: Global, path: &[u8], bytes: &[u8]) -> Result<(), AllocError>
        ensures ok { OnOk result (self.new ≡ map.insert self.old path.now bytes.now) }
        ensures err { OnErr result (self.new ≡ self.old) }
    {
        let entry = make_entry(alloc, path, bytes)?;
        replace(&mut self.entries, path, entry)
    }

    #[tactic(auto, using(crate::proofs::Files::files_dropped))]
    fn take_out(&mut self, path: &[u8])
        ensures { self.new ≡ map.remove self.old path.now }
    {
        drop_at(&mut self.entries, path);
    }

    /// Moves a file to a path that has none. Its bytes stay where they lie.
    fn move_file(&mut self, old: &[u8], path: FileBytes)
        requires free { map.get self.old path ≡ None }
        requires there { is_there self.old old.now ≡ true }
        ensures { self.new ≡ with_moved self.old old.now path }
    {
        if let Some(place) = place_of(self.entries.as_slice(), old) {
            move_entry(&mut self.entries, place, old, path);
        }
    }
}

impl Store for MemStore {
    ghost contents = { λ s. Some s };

    ghost may_give = { λ s path limit bytes. look_for s path limit ≡ Found bytes };

    ghost count = { λ _. 0 };

    fn get(&mut self, alloc: Global, path: &[u8], limit: usize) -> Got {
        match self.lookup(path) {
            None => Got::Absent,
            Some(bytes) if bytes.len() > limit => Got::TooBig,
            Some(bytes) => match copied(alloc, bytes) {
                Ok(copy) => Got::Bytes(copy),
                Err(_) => Got::NoMemory,
            },
        }
    }

    fn put(&mut self, alloc: Global, path: &[u8], bytes: &[u8]) -> Stored {
        let placed = self.placed(path);
        match self.set(alloc, path, bytes) {
            Ok(()) => Stored::Done(placed),
            Err(_) => Stored::NoMemory,
        }
    }

    // It takes no memory, so that there always is some.
    fn remove(&mut self, _alloc: Global, path: &[u8]) -> Removed
        // It never fails, and takes no memory.
        ensures failed { ¬ (result ≡ Removed.Failed) }
        ensures memory { ¬ (result ≡ Removed.NoMemory) }
        // The path is taken out of the map, where it is there.
        ensures files { Removes path.now result (Some self.new) self.old }
    {
        if self.lookup(path).is_none() {
            return Removed::Absent;
        }
        self.take_out(path);
        Removed::Done
    }

    fn rename(&mut self, alloc: Global, old: &[u8], new: &[u8]) -> Renamed {
        if self.lookup(old).is_none() {
            return Renamed::Absent;
        }
        if self.lookup(new).is_some() {
            return Renamed::Exists;
        }
        match copied(alloc, new) {
            Ok(path) => {
                self.move_file(old, path);
                Renamed::Done
            }
            Err(_) => Renamed::NoMemory,
        }
    }

    fn failures(&self) -> u64 {
        0
    }
}

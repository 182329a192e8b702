//! One folder of the system, and what is done to its files: only legal paths get here.
ghost use Rattle.std.specs.Prelude.{◌≡◌, ◌<◌, ◌≤◌, None, true, length, IfOk, IfSome};
ghost use Rattle.chaos_file.specs.Names.{is_path};

use super::held::Held;
use crate::store::Placed;
use crate::whole::write_whole;
use std::alloc::Global;
use std::fs::{File, Metadata, OpenFile};
use std::io::{ErrorKind, Read};
use std::rt::Files;
use std::{fs, io};

/// The name under which a file is written before it is renamed. It is no legal path.
const NEW: &str = ".new";

/// A folder of the system, which is this store's alone: no other that asks for its lock gets it as
/// long as this is there.
#[derive(Drop)]
pub(crate) struct Folder<R> {
    rt: R,
    /// The folder itself, locked.
    held: Held,
    /// Where a file is written before it has its path.
    fresh: String,
}

/// Reads what a file has, or None where that is more than the limit: one byte more than it is read
/// at most.
fn read_within<F: Read + Drop>(alloc: Global, file: F, limit: usize) -> io::Result<Option<Vec<u8>>>
    ensures fits { IfOk result (λ o. IfSome o (λ v. length v.items ≤ limit)) }
    // What is answered is all that the file has.
    ensures whole { IfOk result
        (λ o. IfSome o (λ v. IfSome (F.remaining file) (λ all. v.items ≡ all))) }
    // It has more than the limit only where it has.
    ensures much { IfOk result
        (λ o. o ≡ None → IfSome (F.remaining file) (λ all. limit < length all)) }
{
    let mut bytes = Vec::new(alloc);
    file.take((limit as u64).saturating_add(1))
        .read_to_end(&mut bytes)?;
    if bytes.len() > limit {
        return Ok(None);
    }
    Ok(Some(bytes))
}

/// What is named is to be a file: a folder, a link, a fifo, a socket and a device are refused.
fn require_file(info: &Metadata) -> io::Result<()> {
    if info.is_file() {
        Ok(())
    } else {
        Err(io::Error::new(ErrorKind::InvalidInput, "it is no file"))
    }
}

/// Whether what is put at a place replaces the file there, where there is one.
fn placed_over(file: &Option<Metadata>) -> Placed {
    match file {
        Some(_) => Placed::Replaced,
        None => Placed::New,
    }
}

impl<R: Drop + Files<File = File>> Folder<R> {
    /// The folder of this path, where there is one and nobody else has locked it. What was left of
    /// a file that was never put is taken away.
    pub(crate) fn open(rt: R, name: String) -> io::Result<Folder<R>> {
        let held = Held::open(&rt, name)?;
        let mut fresh = held.way.clone()?;
        fresh.push_str("/")?;
        fresh.push_str(NEW)?;
        let folder = Folder { rt, held, fresh };
        // what can't be taken away is told by each put
        let _ = folder.clear_fresh();
        Ok(folder)
    }
}

impl<R: Files> Folder<R> {
    /// Where the file of a legal path lies.
    fn place(&self, alloc: Global, path: &[u8]) -> io::Result<String>
        requires { is_path path.now ≡ true }
    {
        let way = self.held.way.as_str();
        match str::from_utf8(path) {
            Ok(name) => Ok(format!(in alloc; "{way}/{name}")?),
            Err(_) => Err(io::Error::from(ErrorKind::InvalidInput)),
        }
    }

    /// The bytes of a file, or None where they are more than the limit.
    pub(crate) fn get(
        &self,
        alloc: Global,
        path: &[u8],
        limit: usize,
    ) -> io::Result<Option<Vec<u8>>>
        requires { is_path path.now ≡ true }
        ensures { IfOk result (λ o. IfSome o (λ v. length v.items ≤ limit)) }
    {
        self.held.require_name(&self.rt, alloc)?;
        let file = self.open_file(self.place(alloc, path)?.as_str())?;
        read_within(alloc, file, limit)
    }

    /// Opens a file of the folder, and nothing else: the kind is asked before the open, since the
    /// open of a fifo would wait for its writer, and again of what was opened.
    fn open_file(&self, place: &str) -> io::Result<R::File> {
        require_file(&self.rt.symlink_metadata(place)?)?;
        let file = fs::open(&self.rt, place)?;
        require_file(&file.metadata()?)?;
        Ok(file)
    }

    /// The file at this place, where there is one.
    fn file_at(&self, place: &str) -> io::Result<Option<Metadata>> {
        match self.rt.symlink_metadata(place) {
            Ok(info) => {
                require_file(&info)?;
                Ok(Some(info))
            }
            Err(e) if e.kind() == ErrorKind::NotFound => Ok(None),
            Err(e) => Err(e),
        }
    }

    /// Writes a file whole, and then gives it its path. The bytes are on the disk before the path
    /// leads to them, and the path is on the disk at the end. What may be refused is tried before
    /// the path changes, but for the last flush. Where the path didn't change, what was written is
    /// taken away. A file that is replaced leaves its mode to the new one. The result says whether
    /// there was one.
    pub(crate) fn put(&self, alloc: Global, path: &[u8], bytes: &[u8]) -> io::Result<Placed>
        requires { is_path path.now ≡ true }
    {
        self.held.require_name(&self.rt, alloc)?;
        let place = self.place(alloc, path)?;
        let replaced = self.file_at(place.as_str())?;
        let placed = placed_over(&replaced);
        self.clear_fresh()?;
        write_whole(
            &self.rt,
            self.fresh.as_str(),
            place.as_str(),
            replaced.map(|info| info.permissions()),
            bytes,
        )?;
        self.held.flush()?;
        Ok(placed)
    }

    /// Takes away what was left of a put, where there is such: a link itself, and never what it
    /// leads to.
    fn clear_fresh(&self) -> io::Result<()> {
        match fs::remove_file(&self.rt, self.fresh.as_str()) {
            Err(e) if e.kind() != ErrorKind::NotFound => Err(e),
            _ => Ok(()),
        }
    }

    /// Takes a file out.
    pub(crate) fn remove(&self, alloc: Global, path: &[u8]) -> io::Result<()>
        requires { is_path path.now ≡ true }
    {
        self.held.require_name(&self.rt, alloc)?;
        let place = self.place(alloc, path)?;
        require_file(&self.rt.symlink_metadata(place.as_str())?)?;
        fs::remove_file(&self.rt, place.as_str())
    }

    /// Moves a file where the new path is free, and says whether it was. The old path is looked for
    /// first.
    pub(crate) fn rename(&self, alloc: Global, old: &[u8], new: &[u8]) -> io::Result<bool>
        requires old { is_path old.now ≡ true }
        requires new { is_path new.now ≡ true }
    {
        self.held.require_name(&self.rt, alloc)?;
        let from = self.place(alloc, old)?;
        let to = self.place(alloc, new)?;
        require_file(&self.rt.symlink_metadata(from.as_str())?)?;
        if self.file_at(to.as_str())?.is_some() {
            return Ok(false);
        }
        fs::rename(&self.rt, from.as_str(), to.as_str())?;
        Ok(true)
    }
}

//! A folder that is held open: its lock, and a way to its files that a change of names doesn't
//! touch.
use crate::printed::PrintedName;
use std::alloc::Global;
use std::fs::{File, Files, Metadata, TryLockError};
use std::io::ErrorKind;
use std::os::fd::AsRawFd;
use std::os::unix::fs::MetadataExt;
use std::{fs, io};

/// The system's folder of names that lead to what this process has open, each by its descriptor's
/// number.
const DESCRIPTORS: &str = "/proc/self/fd";

/// What distinguishes one folder from another. No other folder has the same while this folder is
/// open.
#[derive(Clone, Copy, PartialEq, Eq)]
struct Identity {
    device: u64,
    inode: u64,
}

impl Identity {
    fn of(info: &Metadata) -> Self {
        Identity {
            device: info.dev(),
            inode: info.ino(),
        }
    }
}

/// A folder that is open and locked, and the name by which it was opened.
#[derive(Drop)]
pub(crate) struct Held {
    name: String,
    /// A name that leads to the folder that is open, whatever has its own name, where the system
    /// has such a name; else its own.
    pub(crate) way: String,
    file: File,
    identity: Identity,
}

/// What is named is to be a folder.
fn require_folder(info: &Metadata) -> io::Result<()> {
    if info.is_dir() {
        Ok(())
    } else {
        Err(io::Error::from(ErrorKind::NotADirectory))
    }
}

/// Locks a folder that is open, where nobody else has locked it.
fn lock(folder: &File) -> io::Result<()> {
    folder.try_lock().map_err(|fault| match fault {
        TryLockError::WouldBlock => io::Error::new(
            ErrorKind::ResourceBusy,
            "it is in use by another server",
        ),
        TryLockError::Error(fault) => fault,
    })
}

/// Whether a name leads to this folder.
fn leads_to<R: Files>(rt: &R, name: &str, identity: Identity) -> io::Result<bool> {
    match rt.metadata(name) {
        Ok(info) => Ok(Identity::of(&info) == identity),
        Err(fault) if fault.kind() == ErrorKind::NotFound => Ok(false),
        Err(fault) => Err(fault),
    }
}

/// A way to a folder that is open: by its descriptor where that leads to it, else by its name.
fn way_to<R: Files>(rt: &R, file: &File, identity: Identity, name: &String) -> io::Result<String> {
    let number = file.as_raw_fd();
    let way = format!(in *name.allocator(); "{DESCRIPTORS}/{number}")?;
    if matches!(leads_to(rt, way.as_str(), identity), Ok(true)) {
        Ok(way)
    } else {
        Ok(name.clone()?)
    }
}

impl Held {
    /// Opens the folder of this name and locks it, where there is one and nobody else has locked
    /// it.
    pub(crate) fn open<R: Files<File = File>>(rt: &R, name: String) -> io::Result<Held> {
        require_folder(&rt.metadata(name.as_str())?)?;
        let file = fs::open(rt, name.as_str())?;
        lock(&file)?;
        let identity = Identity::of(&file.metadata()?);
        let way = way_to(rt, &file, identity, &name)?;
        Ok(Held {
            name,
            way,
            file,
            identity,
        })
    }

    /// The folder's name is to lead to it still. It doesn't where the folder was renamed or
    /// removed, also where a new one has its name, and where a disk was mounted over it or the disk
    /// that it is on was unmounted.
    pub(crate) fn require_name<R: Files>(&self, rt: &R, alloc: Global) -> io::Result<()> {
        if leads_to(rt, self.name.as_str(), self.identity)? {
            return Ok(());
        }
        let name = PrintedName(self.name.as_str());
        let text = format!(in alloc; "the folder is no longer at {name}")?;
        Err(io::Error::other(text.as_str()))
    }

    /// Flushes the folder to the disk.
    pub(crate) fn flush(&self) -> io::Result<()> {
        self.file.sync_all()
    }
}

//! Local files that are written whole.
use crate::kind::kind_of;
use chaos_file::write_whole;
use file_copy::last_name;
use std::alloc::Global;
use std::fs::{File, Metadata, OpenFile};
use std::io::ErrorKind;
use std::rt::Files;
use std::{fs, io};

/// The folder that a path leads to.
fn folder_of(path: &str) -> &str {
    match path.rsplit_once('/') {
        Some(("", _)) => "/",
        Some((folder, _)) => folder,
        None => ".",
    }
}

/// The name beside a file's under which it is written: hidden, and with a mark of who writes it.
fn part_of(alloc: Global, path: &str, mark: u16) -> io::Result<String> {
    let folder = folder_of(path);
    let name = last_name(path);
    Ok(format!(in alloc; "{folder}/.{name}.{mark}.part")?)
}

/// The file that has a name, where one has it. A folder, a link, a fifo, a socket and a device are
/// refused, since a rename would take their place.
fn replaced_at<R: Files>(rt: &R, path: &str) -> io::Result<Option<Metadata>> {
    match rt.symlink_metadata(path) {
        Ok(info) if info.is_file() => Ok(Some(info)),
        Ok(info) => Err(io::Error::new(ErrorKind::InvalidInput, kind_of(&info))),
        Err(e) if e.kind() == ErrorKind::NotFound => Ok(None),
        Err(e) => Err(e),
    }
}

/// Makes sure that a file of this name can be written: its name beside is taken for a moment, and
/// nothing is left.
pub(crate) fn check_whole<R: Files>(
    rt: &R,
    alloc: Global,
    path: &str,
    mark: u16,
) -> io::Result<()> {
    let _replaced = replaced_at(rt, path)?;
    let part = part_of(alloc, path, mark)?;
    let _ = fs::remove_file(rt, part.as_str());
    let _file = File::create_new(rt, part.as_str())?;
    fs::remove_file(rt, part.as_str())
}

/// Writes a file whole: beside its place first, under a name with a dot in front and this mark;
/// then it is flushed, and then it gets its name, in place of a file that had it, whose mode it
/// has. So no half file ever has the name. The mark is one that no other writer of this folder has.
///
/// # Errors
/// Those of the system, and where it is longer than the process may write: then what had the name
/// has it still, but where the last flush of the folder failed; and nothing is left beside it, but
/// where that could not be removed either.
pub(crate) fn write_at<R: Files>(
    rt: &R,
    alloc: Global,
    path: &str,
    mark: u16,
    bytes: &[u8],
) -> io::Result<()> {
    let part = part_of(alloc, path, mark)?;
    let replaced = replaced_at(rt, path)?;
    let folder = fs::open(rt, folder_of(path))?;
    let _ = fs::remove_file(rt, part.as_str());
    let mode = replaced.map(|info| info.permissions());
    write_whole(rt, part.as_str(), path, mode, bytes)?;
    folder.sync_all()
}

//! Local files that are read.
use crate::kind::kind_of;
use std::alloc::Global;
use std::fs::Metadata;
use std::io::ErrorKind;
use std::os::unix::fs::{FileTypeExt, MetadataExt};
use std::rt::Files;
use std::{fs, io};

/// So many links are followed from a name to a pipe: the system's own names need two.
const MAX_LINKS: usize = 8;

/// Whether a name is one of the system's for a pipe that this process has open, as `/dev/fd/63` of
/// a shell's `<(..)` and `/dev/stdin`: it is a link, whose text is no path and names the pipe.
fn leads_to_pipe<R: Files>(rt: &R, alloc: Global, name: &str, info: &Metadata) -> io::Result<bool> {
    let inode = info.ino();
    let pipe = format!(in alloc; "pipe:[{inode}]")?;
    let mut place = String::from_str(alloc, name)?;
    for _ in 0..MAX_LINKS {
        let Ok(target) = rt.read_link(alloc, place.as_str()) else {
            return Ok(false);
        };
        place = target.into_string();
        if !place.starts_with('/') {
            break;
        }
    }
    Ok(place.as_str() == pipe.as_str())
}

/// What is named is to be a file, or a pipe that this process has open. Nothing else is opened: who
/// opens a fifo waits for whoever writes into it, and a device may do as it likes.
///
/// # Errors
/// The system's, and what has the name where that is neither.
fn require_source<R: Files>(rt: &R, alloc: Global, name: &str) -> io::Result<()> {
    let info = rt.metadata(name)?;
    if info.is_file() {
        return Ok(());
    }
    let kind = kind_of(&info);
    if info.is_dir() {
        return Err(io::Error::new(ErrorKind::IsADirectory, kind));
    }
    if info.file_type().is_fifo() && leads_to_pipe(rt, alloc, name, &info)? {
        return Ok(());
    }
    let text = format!(in alloc; "{kind}; - reads standard input")?;
    Err(io::Error::new(ErrorKind::InvalidInput, text.as_str()))
}

/// Opens a local file to be read, as [`require_source`] allows.
pub(crate) fn open_source<R: Files>(rt: &R, alloc: Global, name: &str) -> io::Result<R::File> {
    require_source(rt, alloc, name)?;
    fs::open(rt, name)
}

//! Files of the system that are written whole.
use libc::getrlimit;
use libc::types::rlimit;
use std::fs::{File, OpenFile, Permissions};
use std::io::Write;
use std::rt::Files;
use std::{fs, io};

/// The number of the process's limit on the size of a file that it writes.
const RLIMIT_FSIZE: i32 = 1;

/// The system's number of the fault that a file is too large.
const EFBIG: i32 = 27;

/// The most bytes that the process may write into a file: as many as there are numbers for where
/// that can't be had.
fn most_bytes() -> u64 {
    let mut limit = rlimit {
        rlim_cur: u64::MAX,
        rlim_max: u64::MAX,
    };
    let _status = getrlimit(RLIMIT_FSIZE, &mut limit);
    limit.rlim_cur
}

/// A file of more bytes than the process may write is refused: the system would end the process at
/// its write.
///
/// # Errors
/// The system's fault for a file that is too large. The limit is the system's, so nothing is
/// promised of it.
pub fn require_room(bytes: u64) -> io::Result<()> {
    if bytes > most_bytes() {
        return Err(io::Error::from_raw_os_error(EFBIG));
    }
    Ok(())
}

/// Writes a file whole under a fresh name, where nothing is, flushes it to the disk, and then gives
/// it its place, also in place of a file that is there, whose mode the caller may hand in. So no
/// half file ever has the place.
///
/// # Errors
/// Those of the system, and where the file is longer than the process may write: then what had the
/// place has it still, and nothing is left under the fresh name, but where it could not be removed
/// either.
pub fn write_whole<R: Files>(
    rt: &R,
    fresh: &str,
    place: &str,
    mode: Option<Permissions>,
    bytes: &[u8],
) -> io::Result<()> {
    require_room(bytes.len() as u64)?;
    let mut file = File::create_new(rt, fresh)?;
    let with_mode = match mode {
        Some(mode) => file.set_permissions(mode),
        None => Ok(()),
    };
    // The first step that fails is the last, and the fresh file goes.
    let placed = with_mode
        .and_then(|()| file.write_all(bytes))
        .and_then(|()| file.sync_all())
        .and_then(|()| fs::rename(rt, fresh, place));
    if placed.is_err() {
        let _ = fs::remove_file(rt, fresh);
    }
    placed
}

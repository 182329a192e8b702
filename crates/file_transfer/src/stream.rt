//! Standard output in the place of a file.
use chaos_file::require_room;
use std::io::Write;
use std::rt::Files;
use std::{fs, io};

/// The name by which standard output is looked at.
pub(crate) const STDOUT: &str = "/dev/stdout";

/// How many bytes the file has that standard output leads into, where it leads into one.
fn file_len<R: Files>(rt: &R) -> Option<u64> {
    match fs::metadata(rt, STDOUT) {
        Ok(info) if info.is_file() => Some(info.len()),
        _ => None,
    }
}

/// Where standard output leads into a file, so many bytes more than the process may write are
/// refused: the system would end the process at its write. They are taken to go behind what the
/// file has.
fn require_room_behind<R: Files>(rt: &R, bytes: &[u8]) -> io::Result<()> {
    match file_len(rt) {
        Some(len) => require_room(len.saturating_add(bytes.len() as u64)),
        None => Ok(()),
    }
}

/// Writes to standard output.
///
/// # Errors
/// Those of the system, and where a file that it leads into would be longer than the process may
/// write: then nothing is written.
pub(crate) fn write_stream<R: Files + Print>(rt: &R, bytes: &[u8]) -> io::Result<()> {
    require_room_behind(rt, bytes)?;
    let mut writer = io::writer(rt);
    writer.write_all(bytes)?;
    writer.flush()
}

/// Makes sure that standard output can be written: it is asked to take nothing.
pub(crate) fn check_stream<R: Print>(rt: &R) -> io::Result<()> {
    let _count = io::writer(rt).write(&[])?;
    Ok(())
}

//! What a folder of the system answers, as the answers of a store.
ghost use Rattle.std.specs.Prelude.{◌≡◌, Some};
ghost use Rattle.std.specs.IoError.{error_kind};
ghost use Rattle.chaos_file.specs.Folder.{got_as, refused_as, removed_as, renamed_as, stored_as};

use crate::file_bytes::FileBytes;
use crate::store::{Got, Placed, Removed, Renamed, Stored};
use std::io;
use std::io::ErrorKind;

/// What a fault of the system stands for, by its kind. It is kept.
fn refused_as<T: Drop>(
    fault: io::Error,
    absent: T,
    no_memory: T,
    failed: T,
    kept: &mut Option<io::Error>,
) -> T
    ensures answer { result ≡ refused_as absent no_memory failed (error_kind fault) }
    ensures kept { kept.new ≡ Some fault }
{
    let kind = fault.kind();
    *kept = Some(fault);
    match kind {
        ErrorKind::NotFound => absent,
        ErrorKind::OutOfMemory => no_memory,
        _ => failed,
    }
}

/// The answer to a get.
pub(super) fn got_as(found: io::Result<Option<Vec<u8>>>, kept: &mut Option<io::Error>) -> Got
    ensures { result ≡ got_as found }
{
    match found {
        Ok(Some(bytes)) => Got::Bytes(FileBytes::from_vec(bytes)),
        Ok(None) => Got::TooBig,
        Err(fault) => refused_as(fault, Got::Absent, Got::NoMemory, Got::Failed, kept),
    }
}

/// The answer to a put, which says whether a file was replaced.
pub(super) fn stored_as(end: io::Result<Placed>, kept: &mut Option<io::Error>) -> Stored
    ensures { result ≡ stored_as end }
{
    match end {
        Ok(placed) => Stored::Done(placed),
        Err(fault) => refused_as(
            fault,
            Stored::Failed,
            Stored::NoMemory,
            Stored::Failed,
            kept,
        ),
    }
}

/// The answer to a removal.
pub(super) fn removed_as(end: io::Result<()>, kept: &mut Option<io::Error>) -> Removed
    ensures { result ≡ removed_as end }
{
    match end {
        Ok(()) => Removed::Done,
        Err(fault) => refused_as(
            fault,
            Removed::Absent,
            Removed::NoMemory,
            Removed::Failed,
            kept,
        ),
    }
}

/// The answer to a rename, which says whether the new path was free.
pub(super) fn renamed_as(end: io::Result<bool>, kept: &mut Option<io::Error>) -> Renamed
    ensures { result ≡ renamed_as end }
{
    match end {
        Ok(true) => Renamed::Done,
        Ok(false) => Renamed::Exists,
        Err(fault) => refused_as(
            fault,
            Renamed::Absent,
            Renamed::NoMemory,
            Renamed::Failed,
            kept,
        ),
    }
}

//! The file of a key.
ghost use Rattle.std.specs.Prelude.{IfOk};
ghost use Rattle.chaosd_call.specs.Exit.{IsFailure};
ghost use Rattle.chaosd_call.specs.Key.{IsRefusedAs, IsWritten};

use crate::exit_status::ExitStatus;
use crate::key_text::key_of;
use chaos_file::PrintedName;
use chaos_seal::KEY_BYTES;
use chaosd_io::RunFault;
use hex::FromHexError;
use std::fmt::{Display, Formatter};
use std::fs::{File, Files, Metadata};
use std::io::{ErrorKind, Read};
use std::os::unix::fs::MetadataExt;
use std::{fmt, io};

/// The most bytes of a key file.
const MAX_KEY_FILE: u64 = 1_024;

/// The permissions of a file's group, and of all others.
const OTHERS: u32 = 0o077;

/// Why a file gives no key.
#[derive(Drop)]
pub enum KeyFileFault {
    /// The file can't be read.
    Unread(io::Error),
    /// The file isn't regular. A fifo might let the program wait.
    NotRegular,
    /// Somebody but the file's owner has a permission for it.
    Shared,
    /// The file has not as many characters as a key has digits.
    WrongLength,
    /// A character is no hexadecimal digit.
    NoDigit,
}

impl From<io::Error> for KeyFileFault {
    fn from(error: io::Error) -> Self {
        KeyFileFault::Unread(error)
    }
}

impl From<FromHexError> for KeyFileFault {
    fn from(error: FromHexError) -> Self {
        match error {
            FromHexError::InvalidHexCharacter { .. } => KeyFileFault::NoDigit,
            _ => KeyFileFault::WrongLength,
        }
    }
}

impl KeyFileFault {
    /// The exit status of a run that needs the key.
    pub fn status(&self) -> ExitStatus
        // The status isn't Done.
        ensures { IsFailure result }
    {
        match self {
            KeyFileFault::Unread(error) if error.kind() == ErrorKind::OutOfMemory => {
                ExitStatus::NoMemory
            }
            KeyFileFault::Unread(_) | KeyFileFault::NotRegular => ExitStatus::Fault,
            KeyFileFault::Shared | KeyFileFault::WrongLength | KeyFileFault::NoDigit => {
                ExitStatus::BadLine
            }
        }
    }
}

/// What is wrong with the key file of this name.
#[derive(Clone, Copy)]
pub(crate) struct KeyRefusal<'a> {
    /// The name of the file.
    pub(crate) name: &'a str,
    /// Why the file gives no key.
    pub(crate) fault: &'a KeyFileFault,
}

impl Display for KeyRefusal<'_> {
    fn fmt<W: fmt::Write>(&self, f: &mut Formatter<W>) -> fmt::Result {
        let name = PrintedName(self.name);
        match self.fault {
            KeyFileFault::Unread(error) if error.kind() == ErrorKind::OutOfMemory => {
                write!(f, "{}", RunFault::NoMemory)
            }
            KeyFileFault::Unread(error) => write!(f, "can't read the key file {name}: {error}"),
            KeyFileFault::NotRegular => write!(
                f,
                "can't read the key file {name}: expected a regular file"
            ),
            KeyFileFault::Shared => {
                write!(f, "{name}: others can read it; run chmod 600 {name}")
            }
            KeyFileFault::WrongLength => write!(
                f,
                "{name}: too short or too long for a key: expected 64 hexadecimal digits"
            ),
            KeyFileFault::NoDigit => write!(
                f,
                "{name}: a character is no hexadecimal digit: expected 64 hexadecimal digits"
            ),
        }
    }
}

/// Why a file with these data gives no key, before it is read.
fn refusal_of(seen: &Metadata) -> Option<KeyFileFault>
    // A file is refused that isn't regular. A regular file is refused for which its group or others
    // have a permission. Every other file may be read.
    ensures { IsRefusedAs seen.now result }
{
    if !seen.is_file() {
        return Some(KeyFileFault::NotRegular);
    }
    if seen.mode() & OTHERS != 0 {
        return Some(KeyFileFault::Shared);
    }
    None
}

/// What a key file has. Its data are looked at before it is opened, since the opening of a fifo
/// waits, and then again, since another file may have its name by then.
fn text_of<R: AllocGlobal + Files<File = File>>(
    rt: &R,
    name: &str,
) -> Result<Vec<u8>, KeyFileFault> {
    if let Some(fault) = refusal_of(&rt.metadata(name)?) {
        return Err(fault);
    }
    let file = File::open(rt, name)?;
    if let Some(fault) = refusal_of(&file.metadata()?) {
        return Err(fault);
    }
    let mut text = Vec::new(rt.alloc());
    file.take(MAX_KEY_FILE + 1).read_to_end(&mut text)?;
    if text.len() as u64 > MAX_KEY_FILE {
        return Err(KeyFileFault::WrongLength);
    }
    Ok(text)
}

/// The key in the file of this name.
///
/// # Errors
/// The file can't be read, isn't regular, is not its owner's alone, or has no key.
pub(crate) fn read_key<R: AllocGlobal + Files<File = File>>(
    rt: &R,
    name: &str,
) -> Result<[u8; KEY_BYTES], KeyFileFault>
    // The key is one that some text writes.
    ensures { IfOk result IsWritten }
{
    let text = text_of(rt, name)?;
    match key_of(text.as_slice()) {
        Ok(key) => Ok(key),
        Err(error) => Err(KeyFileFault::from(error)),
    }
}

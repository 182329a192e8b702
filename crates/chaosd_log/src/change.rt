//! Lines about what a command changed.
ghost use Rattle.std.specs.Prelude.{◌≡◌};
ghost use Rattle.chaosd_log.specs.Change.{topic_of};

use crate::level::Topic;
use chaos_file::{Attempt, Cause, Change, FileError};
use std::fmt;
use std::fmt::{Display, Formatter};

/// Bytes of a path or a name. A byte that is no printing character is written as two hexadecimal
/// digits behind a `\`.
#[derive(Clone, Copy)]
pub(crate) struct Printed<'a>(pub(crate) &'a [u8]);

impl Display for Printed<'_> {
    fn fmt<W: fmt::Write>(&self, f: &mut Formatter<W>) -> fmt::Result {
        for byte in self.0 {
            match *byte {
                0x21..=0x7E => write!(f, "{}", char::from(*byte))?,
                _ => write!(f, "\\{byte:02x}")?,
            }
        }
        Ok(())
    }
}

/// What a command asked for, as a line has it.
#[derive(Clone, Copy)]
pub(crate) struct Asked<'a>(pub(crate) &'a Attempt);

impl Display for Asked<'_> {
    fn fmt<W: fmt::Write>(&self, f: &mut Formatter<W>) -> fmt::Result {
        match self.0 {
            Attempt::Read(path) => write!(f, "read {}", Printed(path.as_slice())),
            Attempt::Write(path) => write!(f, "write {}", Printed(path.as_slice())),
            Attempt::Delete(path) => write!(f, "delete {}", Printed(path.as_slice())),
            Attempt::Rename(old, new) => {
                let (old, new) = (Printed(old.as_slice()), Printed(new.as_slice()));
                write!(f, "rename {old} to {new}")
            }
            Attempt::Nothing => write!(f, "carry out a command"),
        }
    }
}

/// Why a command was refused, as a line has it.
#[derive(Clone, Copy)]
struct Why<'a>(FileError, Option<Cause<'a>>);

impl Display for Why<'_> {
    fn fmt<W: fmt::Write>(&self, f: &mut Formatter<W>) -> fmt::Result {
        match (self.0, self.1) {
            (FileError::StoreFault, Some(Cause::ReadOnly)) => {
                write!(f, "the server is read-only")
            }
            (FileError::FileExists, _) => write!(f, "the new path is taken"),
            (FileError::FileTooBig, _) => write!(f, "too many bytes"),
            (FileError::NoMemory, _) => write!(f, "out of memory"),
            (error, _) => write!(f, "{error}"),
        }
    }
}

/// What a command changed, as a line has it behind its host.
#[derive(Clone, Copy)]
pub struct ChangeText<'a> {
    /// The change.
    pub change: &'a Change,
    /// Why the store failed, where it did and knows more.
    pub cause: Option<Cause<'a>>,
}

impl Display for ChangeText<'_> {
    fn fmt<W: fmt::Write>(&self, f: &mut Formatter<W>) -> fmt::Result {
        match self.change {
            Change::Written(path, bytes) => {
                write!(f, "wrote {}, {bytes} bytes", Printed(path.as_slice()))
            }
            Change::Replaced(path, bytes) => {
                write!(f, "replaced {}, {bytes} bytes", Printed(path.as_slice()))
            }
            Change::Read(path, bytes) => {
                write!(f, "read {}, {bytes} bytes", Printed(path.as_slice()))
            }
            Change::Deleted(path) => write!(f, "deleted {}", Printed(path.as_slice())),
            Change::Renamed(old, new) => {
                let (old, new) = (Printed(old.as_slice()), Printed(new.as_slice()));
                write!(f, "renamed {old} to {new}")
            }
            Change::Refused(attempt, error) => {
                write!(
                    f,
                    "could not {}: {}",
                    Asked(attempt),
                    Why(*error, self.cause)
                )
            }
        }
    }
}

/// What a line about a change is about.
pub fn topic_of(change: &Change, cause: Option<Cause<'_>>) -> Topic
    // A file that was read is one topic, a command that was refused another, a command that failed
    // since the system refused something a fault, and a change a fourth topic.
    ensures { result ≡ topic_of change.now cause.entry }
{
    match (change, cause) {
        (Change::Read(..), _) => Topic::Read,
        (Change::Refused(_, FileError::StoreFault), Some(Cause::System(_))) => Topic::Fault,
        (Change::Refused(..), _) => Topic::Refusal,
        _ => Topic::Change,
    }
}

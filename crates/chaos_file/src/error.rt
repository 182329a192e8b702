//! The errors of commands.
ghost use Rattle.std.specs.Prelude.{◌≡◌, ◌≤◌, length};
ghost use Rattle.chaos_file.specs.Error.{error_text};

use thiserror::Error;

/// Why a command was refused, in the order of the checks: the first that applies is answered. Each
/// is told as `ERROR`, its code and its text.
#[derive(Clone, Copy, Debug, PartialEq, Eq, Error)]
pub enum FileError {
    /// `SYN`, checks 1 and 4: tid, handle or word can't be read, or the command isn't of its word's
    /// form.
    #[error("bad command syntax")]
    Syntax,
    /// `UKC`, check 2: the word is none of the seven.
    #[error("unknown command")]
    UnknownCommand,
    /// `NLI`, check 3: not LOGIN, and no user's name was given.
    #[error("not logged in")]
    NotLoggedIn,
    /// `ILP`, check 5: a path that isn't legal.
    #[error("illegal path")]
    IllegalPath,
    /// `HIU`, check 6: OPEN with a handle that is open.
    #[error("handle in use")]
    HandleInUse,
    /// `NOH`, check 6: READ, WRITE or CLOSE with a handle that isn't open.
    #[error("no such handle")]
    NoSuchHandle,
    /// `WRK`, check 7: READ of a handle that writes, or WRITE to one that reads.
    #[error("wrong kind of handle")]
    WrongKind,
    /// `NMH`, check 8: OPEN while eight handles are open.
    #[error("too many handles")]
    TooManyHandles,
    /// `TBG`, checks 9 and 10: a WRITE past 1,048,576 bytes, or OPEN READ of a file of more.
    #[error("file too big")]
    FileTooBig,
    /// `FNF`, check 10: OPEN READ, RENAME or DELETE of a path that isn't in the store.
    #[error("no such file")]
    NoSuchFile,
    /// `FAE`, check 10: RENAME to a path that is in the store.
    #[error("file exists")]
    FileExists,
    /// `STF`, check 10: the store failed in this call.
    #[error("store fault")]
    StoreFault,
    /// `MEM`, check 11: there was no memory in this call.
    #[error("no memory")]
    NoMemory,
}

impl FileError {
    /// How a reply spells the error.
    pub fn text(self) -> &'static [u8]
        // It is the word ERROR, the code of the error and its text.
        ensures value { result.now ≡ error_text self }
        // It has at most 31 bytes.
        ensures short { length result.now ≤ 31 }
    {
        match self {
            FileError::Syntax => b"ERROR SYN Bad command syntax.",
            FileError::UnknownCommand => b"ERROR UKC Unknown command.",
            FileError::NotLoggedIn => b"ERROR NLI Not logged in.",
            FileError::IllegalPath => b"ERROR ILP Illegal path.",
            FileError::HandleInUse => b"ERROR HIU Handle in use.",
            FileError::NoSuchHandle => b"ERROR NOH No such handle.",
            FileError::WrongKind => b"ERROR WRK Wrong kind of handle.",
            FileError::TooManyHandles => b"ERROR NMH Too many handles.",
            FileError::FileTooBig => b"ERROR TBG File too big.",
            FileError::NoSuchFile => b"ERROR FNF No such file.",
            FileError::FileExists => b"ERROR FAE File exists.",
            FileError::StoreFault => b"ERROR STF Store fault.",
            FileError::NoMemory => b"ERROR MEM No memory.",
        }
    }
}

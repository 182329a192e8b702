//! What a command changed.
ghost use Rattle.std.specs.Prelude.{◌≡◌};

use crate::error::FileError;
use crate::names::FilePath;

/// What a command asks of a file. An open handle stands for the path of its file.
#[derive(Clone, Debug, PartialEq, Eq, Drop)]
pub enum Attempt {
    /// To read the file: OPEN READ, or READ of an open handle.
    Read(FilePath),
    /// To write the file: OPEN WRITE, or WRITE or CLOSE of an open handle.
    Write(FilePath),
    /// To move the file of the first path to the second.
    Rename(FilePath, FilePath),
    /// To take the file out.
    Delete(FilePath),
    /// Nothing of a file that is known: the command can't be read, or names no open handle.
    Nothing,
}

/// What a command did to a file, with the number of the file's bytes where it has some, or why it
/// was refused.
#[derive(Clone, Debug, PartialEq, Eq, Drop)]
pub enum Change {
    /// A file was opened to be read.
    Read(FilePath, usize),
    /// A new file was written.
    Written(FilePath, usize),
    /// A file was replaced.
    Replaced(FilePath, usize),
    /// A file moved from the first path to the second.
    Renamed(FilePath, FilePath),
    /// A file was taken out.
    Deleted(FilePath),
    /// The command was answered by this error, and changed nothing.
    Refused(Attempt, FileError),
}

/// Empties the place of a change. To write `None` is to write all bytes of the place, so a place
/// that is empty is only looked at.
pub(crate) fn clear(made: &mut Option<Change>)
    ensures { made.new ≡ None }
{
    if made.is_some() {
        *made = None;
    }
}

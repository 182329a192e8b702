//! Why a command line asks for nothing.
ghost use Rattle.std.specs.Prelude.{◌≡◌};
ghost use Rattle.chaosd_line.specs.Fault.{fault_of_kind};

use clap::error::ErrorKind;
use thiserror::Error;

/// Why a command line asks for nothing. Cast to an integer, a fault is its number, 1 to 3.
#[derive(Clone, Copy, Debug, PartialEq, Eq, Error)]
pub enum LineFault {
    /// The words are not a command line of the program.
    #[error("the command line is not understood; try --help")]
    BadLine = 1,
    /// The words ask for help or for the version, which the program then shows.
    #[error("help or the version was asked for")]
    Help = 2,
    /// Memory ran out while the words were read.
    #[error("out of memory while reading the command line")]
    NoMemory = 3,
}

impl From<ErrorKind> for LineFault {
    ghost from_gives = { λ kind fault. fault ≡ fault_of_kind kind };

    /// The fault that clap's kind of error stands for: every kind but help, the version and being
    /// out of memory is a bad line.
    fn from(kind: ErrorKind) -> LineFault {
        match kind {
            ErrorKind::DisplayHelp => LineFault::Help,
            ErrorKind::DisplayVersion => LineFault::Help,
            ErrorKind::OutOfMemory => LineFault::NoMemory,
            _ => LineFault::BadLine,
        }
    }
}

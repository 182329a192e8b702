//! Why a table of hosts is refused.
ghost use Rattle.std.specs.Prelude.{◌≡◌};

use chaos_file::PrintedName;
use std::fmt;
use std::fmt::{Display, Formatter};
use thiserror::Error;

/// Why a line of a table is refused. The message goes on behind the word that is at fault.
#[derive(Clone, Copy, Debug, PartialEq, Eq, Error)]
pub enum Reason {
    #[error("is no Chaosnet address: expected 1 to 6 octal digits, from 1 to 177777, or * for the bridge")]
    BadAddress,
    #[error("has no UDP address: expected a.b.c.d:port or * behind the Chaosnet address")]
    NoUdp,
    #[error("is no UDP address: expected a.b.c.d:port in decimal, without leading zeros, with a port from 1 to 65535, or *")]
    BadUdp,
    #[error("has no name: expected a name behind the UDP address")]
    NoName,
    #[error("is no name of a host: expected 1 to 64 letters, digits, hyphens and dots, at least one of them a letter")]
    BadName,
    #[error("is a second key: expected at most one on a line")]
    SecondKey,
    #[error("names no file: expected key=FILE")]
    NoKeyFile,
    #[error("is a key of no other host: expected a key on the line of another host, neither of self nor of the bridge")]
    StrayKey,
    #[error("has an entry already: expected each Chaosnet address once")]
    AddressTwice,
    #[error("names a host already: expected each name once, except self")]
    NameTwice,
    #[error("is one host too many: expected at most 32 other hosts")]
    TooManyHosts,
    #[error("is one own entry too many: expected at most 8")]
    TooManySelves,
    #[error("is a second bridge: expected at most one")]
    SecondBridge,
    #[error("has no UDP address: expected a.b.c.d:port for the bridge")]
    BridgeWithoutUdp,
}

/// The word of a line that is at fault, and why.
#[derive(Clone, Copy, Debug)]
pub struct Refusal<'a> {
    /// Why the line is refused.
    pub reason: Reason,
    /// The word.
    pub word: &'a str,
}

impl<'a> Refusal<'a> {
    /// The refusal of a word.
    pub(crate) fn new(reason: Reason, word: &'a str) -> Refusal<'a>
        ensures reason { result.reason ≡ reason }
        ensures word { result.word ≡ word.entry }
    {
        Refusal { reason, word }
    }
}

impl Display for Refusal<'_> {
    fn fmt<W: fmt::Write>(&self, f: &mut Formatter<W>) -> fmt::Result {
        write!(f, "'{}' {}", PrintedName(self.word), self.reason)
    }
}

/// The first bad line of a table.
#[derive(Clone, Copy, Debug, Error)]
#[error("line {line}: {refusal}")]
pub struct TableFault<'a> {
    /// The number of the line, from 1.
    pub line: usize,
    /// What is at fault.
    pub refusal: Refusal<'a>,
}

//! What came of one file.
ghost use Rattle.std.specs.Prelude.{◌≡◌, MatchResult};
ghost use Rattle.std.specs.IoError.{error_kind};
ghost use Rattle.sha2.specs.Sha256.{sha256};
ghost use Rattle.file_transfer.specs.Copied.{contents_of};
ghost use Rattle.file_transfer.specs.Outcome.{severity_of_kind, severity_of_node, severity_of, goes_on};

use crate::severity::Severity;
use crate::text::Lost;
use chaos_file::Reply;
use chaos_node::NodeFault;
use file_copy::NoReply;
use sha2::{Digest, Sha256};
use std::io;
use std::io::ErrorKind;

/// What a file has that was copied.
#[derive(Clone, Copy)]
pub struct Contents {
    /// How many bytes the local file has.
    pub size: usize,
    /// Their SHA-256, where it was asked for.
    pub digest: Option<[u8; 32]>,
}

/// The digest of bytes.
fn digest_of(bytes: &[u8]) -> [u8; 32]
    ensures { result ≡ sha256 bytes.now }
{
    Sha256::digest(bytes)
}

impl Contents {
    /// Those of these bytes, which are counted, and digested where that is asked for.
    pub(crate) fn of(bytes: &[u8], is_digested: bool) -> Self
        ensures { result ≡ contents_of is_digested bytes.now }
    {
        let digest = if is_digested {
            Some(digest_of(bytes))
        } else {
            None
        };
        Contents {
            size: bytes.len(),
            digest,
        }
    }
}

/// What came of one file.
#[derive(Drop)]
pub enum Outcome {
    /// It was copied whole.
    Copied(Contents),
    /// It was changed at the server as was asked for.
    Changed,
    /// It is a text that would not come back.
    Garbled(Lost),
    /// It has more bytes than a file of FILE may have.
    TooBig,
    /// Its path has more bytes than one of FILE may have.
    TooLong,
    /// It goes to no path.
    Unnamed,
    /// The local file could not be read.
    Unread(io::Error),
    /// The local file could not be written.
    Unwritten(io::Error),
    /// The run failed.
    Failed(NodeFault),
    /// The server refused a command: its whole reply.
    Refused(Reply),
    /// A reply came that answers no such command.
    Strange(Reply),
    /// No reply came.
    Unanswered(NoReply),
    /// None came to the CLOSE of a put: whether the file was put isn't known.
    Unknown(NoReply),
    /// The run had ended before.
    NotTried,
}

/// How bad a fault of this side is.
fn severity_of_kind(kind: ErrorKind) -> Severity
    ensures { result ≡ severity_of_kind kind }
{
    match kind {
        ErrorKind::OutOfMemory => Severity::NoMemory,
        _ => Severity::Failed,
    }
}

/// How bad a local file is that could not be read or written.
fn severity_of_error(fault: &io::Error) -> Severity
    ensures { result ≡ severity_of_kind (error_kind fault.now) }
{
    severity_of_kind(fault.kind())
}

/// How bad a fault is by which turns ended.
fn severity_of_node(fault: NodeFault) -> Severity
    ensures { result ≡ severity_of_node fault }
{
    match fault {
        NodeFault::NoMemory => Severity::NoMemory,
        NodeFault::Link | NodeFault::Clock => Severity::Failed,
    }
}

impl Outcome {
    /// How bad it is.
    pub fn severity(&self) -> Severity
        // Only a file that was copied or changed is Done. A local file, a link or a clock that
        // failed is Failed, and out of memory is NoMemory. All else is Refused.
        ensures { result ≡ severity_of self.now }
    {
        match self {
            Outcome::Copied(_) | Outcome::Changed => Severity::Done,
            Outcome::Unread(fault) | Outcome::Unwritten(fault) => severity_of_error(fault),
            Outcome::Failed(fault) => severity_of_node(*fault),
            Outcome::Garbled(_)
            | Outcome::TooBig
            | Outcome::TooLong
            | Outcome::Unnamed
            | Outcome::Refused(_)
            | Outcome::Strange(_)
            | Outcome::Unanswered(_)
            | Outcome::Unknown(_)
            | Outcome::NotTried => Severity::Refused,
        }
    }

    /// What came of a file that was copied, or else of one that wasn't.
    pub(crate) fn of(tried: Result<Contents, Self>) -> Self
        ensures { MatchResult tried (λ contents. result ≡ Outcome.Copied contents)
            (λ outcome. result ≡ outcome) }
    {
        match tried {
            Ok(contents) => Outcome::Copied(contents),
            Err(missed) => missed,
        }
    }

    /// What came of a change that was made, or else of one that wasn't.
    pub fn of_change(tried: Result<(), Self>) -> Self
        // A change that was made is reported as such, and what came of any other stays.
        ensures { MatchResult tried (λ _. result ≡ Outcome.Changed) (λ outcome. result ≡ outcome) }
    {
        match tried {
            Ok(()) => Outcome::Changed,
            Err(missed) => missed,
        }
    }

    /// Whether the next file is tried.
    pub fn goes_on(&self) -> bool
        // The next file is tried, but not after a fault of the run, a reply that answers no such
        // command, or a missing reply.
        ensures { result ≡ goes_on self.now }
    {
        match self {
            Outcome::Failed(_)
            | Outcome::Strange(_)
            | Outcome::Unanswered(_)
            | Outcome::Unknown(_)
            | Outcome::NotTried => false,
            Outcome::Copied(_)
            | Outcome::Changed
            | Outcome::Garbled(_)
            | Outcome::TooBig
            | Outcome::TooLong
            | Outcome::Unnamed
            | Outcome::Unread(_)
            | Outcome::Unwritten(_)
            | Outcome::Refused(_) => true,
        }
    }
}

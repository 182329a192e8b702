//! How the copy of a file ended.
use chaos_file::Reply;

/// How the copy of a file ended.
#[derive(Drop)]
pub enum CopyEnd {
    /// The whole file was copied.
    Done,
    /// The server refused a command: its whole reply.
    Refused(Reply),
    /// A reply came that answers no such command.
    Strange(Reply),
    /// No reply came for the talk's patience, or within 1,000 turns and 10 seconds where it has
    /// none; or the connection ended before one.
    Unanswered,
    /// Likewise, but to the CLOSE of a put, which was sent: whether the file was put isn't known.
    Unknown,
}

//! What became of a turn of serving.

use chaos_conn::State;

/// What became of the item in front of a connection.
#[derive(Clone, Copy, Debug, PartialEq, Eq)]
pub enum Served {
    /// It was a command: it was carried out and read, and its one reply was written.
    Replied,
    /// It was the peer's EOF: it was read, and nothing was answered.
    Eof,
    /// There is none, and nothing changed.
    Idle,
    /// It is a command, and the window has no room for a reply. The command stays in front, and
    /// nothing changed.
    NoRoom,
    /// The end isn't open, but in this state. Nothing changed, whatever the end still holds.
    Ended(State),
    /// The host has no connection with this index, and nothing changed.
    NoSuchConnection,
}

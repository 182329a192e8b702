//! What an event makes of a seat.

/// What an event makes of the seat of the connection that does something.
#[derive(Clone, Copy, Debug, PartialEq, Eq)]
pub(crate) enum Mark {
    /// The connection stays what it is.
    Stays,
    /// It begins, with a peer or none yet.
    Begins(Option<u64>),
    /// It is opened by its peer's packet.
    Joins(Option<u64>),
    /// It is gone, and the slot is free for the next.
    Frees,
}

//! What becomes of a packet that arrives.

/// What a receive window did with an item that came.
#[derive(Clone, Copy, Debug, PartialEq, Eq)]
pub enum Arrived {
    /// It lies in the window and was not held: it is held now.
    Took,
    /// It was read already, or is held already.
    Duplicate,
    /// It is past the window, so its sender has to send it again.
    Outside,
}

//! What a node can't go on behind.
use thiserror::Error;

/// The fault by which turns end, or without which none can begin.
#[derive(Clone, Copy, Debug, PartialEq, Eq, Error)]
pub enum NodeFault {
    /// A link failed in a turn, as its count of failures shows.
    #[error("the link failed")]
    Link,
    /// The clock could not be read.
    #[error("the clock could not be read")]
    Clock,
    /// There was no memory.
    #[error("no memory")]
    NoMemory,
}

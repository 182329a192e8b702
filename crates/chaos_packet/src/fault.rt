//! Why words are no packet.

use thiserror::Error;

/// The first fault of a list of words, in the order of the checks.
#[derive(Clone, Copy, Debug, PartialEq, Eq, Error)]
pub enum PacketFault {
    /// Fewer words than a header has.
    #[error("fewer than eight words")]
    Short,
    /// The header counts more data bytes than a packet can have.
    #[error("a count of more than 488 data bytes")]
    BadCount,
    /// Fewer words than the header and the data that it counts fill.
    #[error("fewer words than the header counts")]
    Truncated,
}

//! Why an event doesn't happen.

use thiserror::Error;

/// Why an event didn't happen. Nothing changed then.
#[derive(Clone, Copy, Debug, PartialEq, Eq, Error)]
pub enum NetFault {
    /// 1: the other host sent no packet of this number.
    #[error("no such packet")]
    NoSuchPacket,
    /// 2: the packet carries an acknowledgement, and is too old, or its indices were used again.
    #[error("a stale packet")]
    Stale,
    /// 3: 2^64 - 1 events happened already.
    #[error("too many events")]
    Worn,
    /// 4: there was no memory.
    #[error("no memory")]
    NoMemory,
}

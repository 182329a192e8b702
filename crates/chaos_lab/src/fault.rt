//! Why an event is refused.

use chaos_conn::ConnFault;
use thiserror::Error;

/// Why an event was refused. Nothing changed then.
#[derive(Clone, Copy, Debug, PartialEq, Eq, Error)]
pub enum LabFault {
    /// 1: no copy of this number was sent.
    #[error("no such copy")]
    NoSuchCopy,
    /// 2: an end has written too many items since the copy was sent.
    #[error("a stale copy")]
    Stale,
    /// 3: the connection refused the call.
    #[error("refused: {0}")]
    Refused(ConnFault),
    /// 4: there was no memory.
    #[error("no memory")]
    NoMemory,
    /// 5: B writes and reads by its server alone. A laboratory whose users are all the caller's own
    /// never answers this.
    #[error("B is served")]
    ByServer,
}

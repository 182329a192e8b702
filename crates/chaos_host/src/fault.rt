//! Why a call was refused.

use chaos_conn::ConnFault;
use thiserror::Error;

/// Why a host isn't made: the first of these that applies.
#[derive(Clone, Copy, Debug, PartialEq, Eq, Error)]
pub enum MakeFault {
    /// 1: the host's address is 0.
    #[error("the host's address is zero")]
    BadAddress,
    /// 2: the connections aren't from 1 to 255.
    #[error("the connections are not 1 to 255")]
    BadCount,
    /// 3: the memory for all connections wasn't there.
    #[error("no memory for the connections")]
    NoMemory,
}

/// Why a contact isn't listened to. If several reasons apply, the answer is the one with the least
/// number.
#[derive(Clone, Copy, Debug, PartialEq, Eq, Error)]
pub enum ListenFault {
    /// 1: the host listens to 16 contacts already.
    #[error("the host listens to 16 contacts")]
    TooMany,
    /// 2: the contact has more than 64 bytes.
    #[error("the contact has more than 64 bytes")]
    TooLong,
    /// 3: the host listens to this contact already.
    #[error("the host listens to this contact already")]
    Already,
    /// 4: the contact is empty, or has a space.
    #[error("the contact is empty or has a space")]
    BadContact,
}

/// Why a connection isn't asked for. If several reasons apply, the answer is the one with the least
/// number.
#[derive(Clone, Copy, Debug, PartialEq, Eq, Error)]
pub enum ConnectFault {
    /// 1: every slot is in use.
    #[error("the connection table is full")]
    TableFull,
    /// 2: the contact has more than 488 bytes.
    #[error("the contact has more than 488 bytes")]
    TooLong,
    /// 3: the peer's address is 0.
    #[error("the peer's address is zero")]
    BadAddress,
}

/// Why a call on one connection was refused.
#[derive(Clone, Copy, Debug, PartialEq, Eq, Error)]
pub enum CallFault {
    /// 1: no connection has this index.
    #[error("no such connection")]
    NoSuchConnection,
    /// 2: the connection itself refused.
    #[error("{0}")]
    Refused(ConnFault),
    /// 3: the connection hasn't ended.
    #[error("the connection has not ended")]
    StillActive,
}

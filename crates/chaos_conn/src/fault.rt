//! Why a call was refused.

use thiserror::Error;

/// Why a configuration is refused: the first of these that applies.
#[derive(Clone, Copy, Debug, PartialEq, Eq, Error)]
pub enum ConfigFault {
    /// 1: the send window isn't from 1 to 64 packets.
    #[error("the send window is not 1 to 64")]
    BadSendCap,
    /// 2: the receive window isn't from 1 to 64 packets.
    #[error("the receive window is not 1 to 64")]
    BadRecvCap,
    /// 3: a time is zero.
    #[error("a time is zero")]
    BadTime,
}

/// Why a call of a connection was refused. If several reasons apply, the answer is the one with the
/// least number.
#[derive(Clone, Copy, Debug, PartialEq, Eq, Error)]
pub enum ConnFault {
    /// 1: the end isn't open.
    #[error("the connection is not open")]
    NotOpen,
    /// 2: a user writes only data and EOF.
    #[error("neither data nor EOF")]
    BadOp,
    /// 3: more than 488 bytes, or any with an EOF.
    #[error("too many bytes")]
    TooLong,
    /// 4: as many items are outstanding as the window allows.
    #[error("the window is full")]
    Full,
    /// 5: the end isn't inactive.
    #[error("the connection is in use")]
    Busy,
    /// 6: the end holds no request.
    #[error("no request was received")]
    WrongState,
    /// 7: an end's address is 0.
    #[error("an address is zero")]
    BadAddress,
    /// 8: the packet isn't an RFC.
    #[error("not a request for connection")]
    BadRequest,
    /// 9: the window is larger than the configuration's.
    #[error("the window is too large")]
    BadWindow,
}

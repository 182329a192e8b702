//! Why a datagram isn't handed up, and why a key is refused.

use thiserror::Error;

/// Why a datagram isn't handed up: the first reason, in the order of the checks.
#[derive(Clone, Copy, Debug, PartialEq, Eq, Error)]
pub enum SealFault {
    /// A datagram of version 3 has fewer bytes than a seal.
    #[error("fewer than 48 bytes")]
    Short,
    /// The byte behind the version isn't 0.
    #[error("no version 03 00")]
    BadVersion,
    /// The datagram is sealed for another host.
    #[error("sealed for another host")]
    OtherHost,
    /// The sender has no key here.
    #[error("sealed by a host that has no key here")]
    NoKey,
    /// The tag isn't that of the bytes before it, under the sender's key.
    #[error("a wrong tag")]
    BadTag,
    /// An empty datagram names another session of this host.
    #[error("empty, and for another run of this host")]
    Stale,
    /// A newer session of the sender was heard.
    #[error("of an earlier run of its sender")]
    OldSession,
    /// The counter was heard, or lies too far below the greatest one heard.
    #[error("heard already, or too old")]
    OldCounter,
    /// The payload has a packet of another source than the sender.
    #[error("a packet of another source under seal")]
    ForeignPacket,
    /// A datagram without a seal has a packet whose source has a key, or the receiver is closed.
    #[error("a packet without a seal")]
    Unsealed,
}

/// Why a key isn't added, in the order of the checks.
#[derive(Clone, Copy, Debug, PartialEq, Eq, Error)]
pub enum KeyFault {
    /// No more keys fit.
    #[error("32 hosts have a key already")]
    TooMany,
    /// The host has a key.
    #[error("a host with this address has a key already")]
    Already,
    /// There is no memory for the key.
    #[error("no memory for a key")]
    NoMemory,
}

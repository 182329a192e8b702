//! Why bytes are no CHUDP datagram with a packet.

use chaos_packet::PacketFault;
use thiserror::Error;

/// The first fault of a CHUDP datagram, in the order of the checks.
#[derive(Clone, Copy, Debug, PartialEq, Eq, Error)]
pub enum ChudpFault {
    /// More bytes than a link takes.
    #[error("more than 2048 bytes")]
    TooLong,
    /// Fewer bytes than head, header and trailer have, or half a word.
    #[error("fewer than 26 bytes, or an odd number of bytes")]
    Short,
    /// The first byte is not the version.
    #[error("no version 1")]
    BadVersion,
    /// The second byte is not the function of a packet.
    #[error("no function 1")]
    BadFunction,
    /// The sum is not that of packet and trailer.
    #[error("a wrong sum")]
    BadSum,
    /// The words between head and trailer are no packet. They are never fewer than a header has.
    #[error("no packet: {0}")]
    Packet(PacketFault),
    /// A word or more stands between the packet and the trailer.
    #[error("words between packet and trailer")]
    Trailing,
}

//! Why bytes are no datagram, and why a peer is refused.

use chaos_packet::PacketFault;
use thiserror::Error;

/// The first fault of a datagram, in the order of the checks.
#[derive(Clone, Copy, Debug, PartialEq, Eq, Error)]
pub enum LinkFault {
    /// Fewer bytes than the mark and the version have.
    #[error("fewer than four bytes")]
    Short,
    /// The first two bytes are not the mark.
    #[error("no mark 43 48")]
    BadMark,
    /// The next two bytes are not the version.
    #[error("no version 01 00")]
    BadVersion,
    /// The whole words after the version are no packet.
    #[error("no packet: {0}")]
    Packet(PacketFault),
    /// A byte or more stands after the packet.
    #[error("bytes after the packet")]
    Trailing,
    /// A datagram of version 2 says that it has no packet, or more than 8.
    #[error("not 1 to 8 packets")]
    BadNumber,
    /// A datagram of version 2 has more than 2,020 bytes.
    #[error("more than 2020 bytes")]
    TooLong,
    /// The words of this packet of a datagram of version 2, counted from 1, are no packet.
    #[error("packet {0}: {1}")]
    PacketAt(u8, PacketFault),
}

/// Why a peer was not added, in the order of the checks.
#[derive(Clone, Copy, Debug, PartialEq, Eq, Error)]
pub enum PeerFault {
    /// No more peers fit.
    #[error("32 peers are there already")]
    TooMany,
    /// A peer with this Chaosnet address is there.
    #[error("a peer with this address is there already")]
    Already,
}

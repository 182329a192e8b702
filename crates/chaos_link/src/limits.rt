//! Sizes and times, each with its unit.
ghost use Rattle.std.specs.Prelude.{◌≡◌};
ghost use Rattle.chaos_link.specs.declared.limits.TheConstants.{MARK_BYTES, MAX_DATAGRAM, MAX_PACKETS, MAX_BUNDLE, MAX_LOAD, LINK_ROOM, MAX_PEERS, MAX_WAIT};

/// The bytes of the mark and the version that a datagram begins with.
pub const MARK_BYTES: usize = 4;

/// The most bytes of a datagram that carries a packet: the mark, the version and the greatest
/// packet.
pub const MAX_DATAGRAM: usize = 508;

/// The most packets of a datagram of version 2.
pub const MAX_PACKETS: usize = 8;

/// The most bytes of a datagram of version 2: the mark and four of the greatest packets.
pub const MAX_BUNDLE: usize = 2020;

/// The most bytes of a datagram of version 2 that is sent: an Ethernet frame carries 1,500, of
/// which IP takes 20 and UDP 8. So no such datagram is sent in fragments.
pub const MAX_LOAD: usize = 1472;

/// The most bytes that a link takes at once, and the bytes that a receive has room for.
pub const LINK_ROOM: usize = 2048;

/// The most peers that a link over a socket knows.
pub const MAX_PEERS: usize = 32;

/// The most milliseconds that a receive waits for a datagram.
pub const MAX_WAIT: u64 = 10;

/// The limits as numerals.
pub fn law_limits()
    // The mark and the version have 4 bytes.
    ensures mark { MARK_BYTES ≡ 4 }
    // A datagram that carries a packet has at most 508 bytes.
    ensures datagram { MAX_DATAGRAM ≡ 508 }
    // A datagram of version 2 has at most 8 packets and 2,020 bytes.
    ensures packets { MAX_PACKETS ≡ 8 }
    ensures bundle { MAX_BUNDLE ≡ 2020 }
    // A datagram of version 2 that is sent has at most 1,472 bytes.
    ensures load { MAX_LOAD ≡ 1472 }
    // A link takes a datagram of at most 2,048 bytes.
    ensures room { LINK_ROOM ≡ 2048 }
    // A link knows at most 32 peers.
    ensures peers { MAX_PEERS ≡ 32 }
    // A receive waits at most 10 milliseconds.
    ensures wait { MAX_WAIT ≡ 10 }
{}

//! Sizes, each with its unit.
ghost use Rattle.std.specs.Prelude.{◌≡◌};
ghost use Rattle.chaos_chudp.specs.declared.limits.TheConstants.{HEAD_BYTES, TRAILER_BYTES, MAX_CHUDP};

/// The bytes of the head: version, function and two arguments.
pub const HEAD_BYTES: usize = 4;

/// The bytes of the trailer: three words.
pub const TRAILER_BYTES: usize = 6;

/// The most bytes of a CHUDP datagram that carries a packet.
pub const MAX_CHUDP: usize = 514;

/// The limits as numerals.
pub fn law_limits()
    // The head has 4 bytes, the trailer 6, and a datagram that carries a packet at most 514.
    ensures head { HEAD_BYTES ≡ 4 }
    ensures trailer { TRAILER_BYTES ≡ 6 }
    ensures datagram { MAX_CHUDP ≡ 514 }
{}

//! Sizes and times, each with its unit.
ghost use Rattle.std.specs.Prelude.{◌≡◌};
ghost use Rattle.chaos_conn.specs.declared.limits.TheConstants.{HEADER_BYTES, MAX_PACKET_BYTES, USUAL_WINDOW, USUAL_RETRANSMIT, USUAL_PROBE, USUAL_DOWN};

use chaos_packet::{HEADER_WORDS, MAX_WORDS};

/// The bytes of a packet's header.
pub const HEADER_BYTES: usize = 2 * HEADER_WORDS;

/// The most bytes of a packet, with its header.
pub const MAX_PACKET_BYTES: usize = 2 * MAX_WORDS;

/// The usual window in each direction, in packets.
pub const USUAL_WINDOW: u16 = 13;

/// After how many milliseconds kept packets are sent again, as usual.
pub const USUAL_RETRANSMIT: u64 = 500;

/// After how many milliseconds a silent peer is probed, as usual.
pub const USUAL_PROBE: u64 = 10_000;

/// After how many milliseconds a silent peer counts as down, as usual.
pub const USUAL_DOWN: u64 = 90_000;

/// The limits and the usual values as numerals.
pub fn law_limits()
    // A packet's header has 16 bytes.
    ensures header { HEADER_BYTES ≡ 16 }
    // A packet has at most 504 bytes, with its header.
    ensures packet { MAX_PACKET_BYTES ≡ 504 }
    // The usual window has 13 packets.
    ensures window { USUAL_WINDOW ≡ 13 }
    // Kept packets are usually sent again after 500 milliseconds.
    ensures retransmit { USUAL_RETRANSMIT ≡ 500 }
    // A silent peer is usually probed after 10,000 milliseconds.
    ensures probe { USUAL_PROBE ≡ 10000 }
    // A silent peer usually counts as down after 90,000 milliseconds.
    ensures down { USUAL_DOWN ≡ 90000 }
{}

//! The sizes of a packet, each with its unit.
ghost use Rattle.std.specs.Prelude.{◌≡◌};
ghost use Rattle.chaos_packet.specs.declared.limits.TheConstants.{HEADER_WORDS, MAX_DATA, MAX_WORDS, MAX_FORWARDS};

/// The words of a header.
pub const HEADER_WORDS: usize = 8;

/// The most data bytes of a packet.
pub const MAX_DATA: usize = 488;

/// The most words of a packet: its header and the data, two bytes to a word.
pub const MAX_WORDS: usize = 252;

/// The most often that a packet is forwarded.
pub const MAX_FORWARDS: u8 = 15;

/// The limits as numerals.
pub fn law_limits()
    // A header has 8 words.
    ensures header { HEADER_WORDS ≡ 8 }
    // A packet has at most 488 data bytes.
    ensures data { MAX_DATA ≡ 488 }
    // A packet has at most 252 words.
    ensures words { MAX_WORDS ≡ 252 }
    // A packet is forwarded at most 15 times.
    ensures forwards { MAX_FORWARDS ≡ 15 }
{}

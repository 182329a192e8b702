//! The words of a packet.
ghost use Rattle.std.specs.Prelude.{◌≡◌, ℕ, ◌+◌, ◌<◌, ◌≤◌, ◌++◌, length, take, slice_index};
ghost use Rattle.chaos_packet.specs.Words.{Spells, HasZeroHalves, words_for, packed, spelling_of};

use crate::limits::{HEADER_WORDS, MAX_DATA, MAX_WORDS};
use crate::packet::Packet;
use arrayvec::ArrayVec;

/// The words of the packet. Nothing is allocated.
pub fn to_words(packet: &Packet) -> ArrayVec<u16, MAX_WORDS>
    // The words spell the packet.
    ensures spelled { Spells packet.now result.items }

    // The free halves are zero.
    ensures zero { HasZeroHalves result.items }

    // For callers that compute: the words are a function of the packet.
    ensures exact { result.items ≡ spelling_of packet.now }
{
    let mut words = [0; MAX_WORDS];
    let count = write_words(packet, &mut words);
    let mut spelling = ArrayVec::from(words);
    spelling.truncate(count);
    spelling
}

/// Writes the words of [`to_words`] to the front of the caller's buffer, and returns how many there
/// are. The data bytes are copied by whole words.
fn write_words(packet: &Packet, words: &mut [u16; MAX_WORDS]) -> usize
    // The packet needs at most 252 words.
    ensures count { result ≤ MAX_WORDS }
    // The words that are written spell the packet.
    ensures spelled { Spells packet.now (take result words.new) }
    // Their free halves are zero.
    ensures zero { HasZeroHalves (take result words.new) }
    // For callers that compute: these words are a function of the packet.
    ensures exact { take result words.new ≡ spelling_of packet.now }
{
    words[..HEADER_WORDS].copy_from_slice(&packet.header());
    pack(packet.bytes(), words)
}

/// Packs the bytes behind a header, two to a word, the first in the low half, and returns where
/// they end.
fn pack(bytes: &[u8], words: &mut [u16; MAX_WORDS]) -> usize
    requires { length bytes.now ≤ MAX_DATA }
    ensures count { result ≡ HEADER_WORDS + words_for (length bytes.now) }
    ensures packed { take result words.new ≡ take HEADER_WORDS words.old ++ packed bytes.now }
    ensures bytes { (i : ℕ) → slice_index bytes.now i < 256 }
{
    let pairs = bytes.len() / 2;
    for i in 0..pairs {
        words[HEADER_WORDS + i] = u16::from_le_bytes([bytes[2 * i], bytes[2 * i + 1]]);
    }
    if bytes.len() % 2 == 0 {
        return HEADER_WORDS + pairs;
    }
    words[HEADER_WORDS + pairs] = u16::from(bytes[2 * pairs]);
    HEADER_WORDS + pairs + 1
}

//! The bytes of a packet on a link.
ghost use Rattle.std.specs.Prelude.{◌≡◌, ◌+◌, ◌*◌, ◌<◌, ◌≤◌, ◌++◌, ℕ, List, Ok, length, take, slice_index};
ghost use Rattle.chaos_packet.specs.Words.{HasZeroHalves, Spells, packed, spelling_of, words_for};
ghost use Rattle.chaos_link.specs.Datagram.{Canonical, Carries, datagram_of, datagram_read, wire};

use crate::datagram::MARK;
use crate::limits::{MARK_BYTES, MAX_DATAGRAM};
use crate::pairs::{put_words, turn_pairs};
use arrayvec::ArrayVec;
use chaos_packet::{HEADER_WORDS, MAX_DATA, Packet};

/// The canonical datagram of the packet (own profile). The data bytes are copied once, by whole
/// words, and nothing is allocated. [`write_datagram`] also saves moving the datagram.
pub fn to_datagram(packet: &Packet) -> ArrayVec<u8, MAX_DATAGRAM>
    // The datagram carries the packet, and is canonical: its free halves are zero.
    ensures carried { Carries packet.now result.items }
    ensures canonical { Canonical result.items }

    // No other bytes carry the packet and are canonical.
    ensures only { (bs : List ℕ) → Carries packet.now bs → Canonical bs → bs ≡ result.items }

    // What is read of it is the packet.
    ensures read { datagram_read result.items ≡ Ok packet.now }

    // For callers that compute: the datagram is a function of the packet.
    ensures exact { result.items ≡ datagram_of packet.now }
{
    let mut datagram = ArrayVec::from([0; MAX_DATAGRAM]);
    let end = write_datagram(packet, datagram.as_mut_slice());
    datagram.truncate(end);
    datagram
}

/// Writes the datagram of [`to_datagram`] to the front of the caller's buffer, and answers where
/// the datagram ends. Of the bytes behind the end nothing is promised. The data bytes are copied
/// once, and no datagram is moved: use this call for many packets.
#[inline(always)]
pub fn write_datagram(packet: &Packet, buffer: &mut [u8]) -> usize
    requires { MAX_DATAGRAM ≤ length buffer.old }

    // What is written has 508 bytes at most, carries the packet, and is canonical: its free halves
    // are zero.
    ensures fits { result ≤ MAX_DATAGRAM }
    ensures carried { Carries packet.now (take result buffer.new) }
    ensures canonical { Canonical (take result buffer.new) }

    // No other bytes carry the packet and are canonical.
    ensures only { (bs : List ℕ) → Carries packet.now bs → Canonical bs →
        bs ≡ take result buffer.new }

    // What is read of it is the packet.
    ensures read { datagram_read (take result buffer.new) ≡ Ok packet.now }

    // For callers that compute: the datagram is a function of the packet.
    ensures exact { take result buffer.new ≡ datagram_of packet.now }
{
    buffer[..MARK_BYTES].copy_from_slice(&MARK);
    put_packet(packet, MARK_BYTES, buffer)
}

/// Puts the words of a packet behind so many bytes, and says where they end. A packet has at most
/// 488 data bytes, which the caller needn't know.
#[inline(always)]
pub(crate) fn put_packet(packet: &Packet, front: usize, buffer: &mut [u8]) -> usize
    requires { length packet.now.body ≤ MAX_DATA →
        front + 2 * (HEADER_WORDS + words_for (length packet.now.body)) ≤ length buffer.old }
    ensures end { result ≡ front + 2 * (HEADER_WORDS + words_for (length packet.now.body)) }
    ensures fits { result ≤ length buffer.new }
    ensures bytes { take result buffer.new
        ≡ take front buffer.old ++ wire (spelling_of packet.now) }
    ensures spelled { Spells packet.now (spelling_of packet.now) }
    ensures zero { HasZeroHalves (spelling_of packet.now) }
    ensures small { length packet.now.body ≤ MAX_DATA }
{
    let data = packet.bytes();
    let front = put_words(&packet.header(), front, buffer);
    front + put_data(data, &mut buffer[front..])
}

/// Puts data bytes as the words that hold them, each high byte first, and says where they end.
#[inline(always)]
fn put_data(from: &[u8], to: &mut [u8]) -> usize
    requires { 2 * words_for (length from.now) ≤ length to.old }
    ensures end { result ≡ 2 * words_for (length from.now) }
    ensures fits { result ≤ length to.new }
    ensures bytes { take result to.new ≡ wire (packed from.now) }
    ensures small { (i : ℕ) → slice_index from.now i < 256 }
{
    let pairs = from.len() / 2;
    turn_pairs(from, to);
    if from.len() % 2 == 0 {
        return 2 * pairs;
    }
    to[2 * pairs] = 0;
    to[2 * pairs + 1] = from[2 * pairs];
    2 * pairs + 2
}

//! Several packets as one datagram.
ghost use Rattle.std.specs.Prelude.{◌≡◌, ◌↔◌, ◌+◌, ◌*◌, ◌<◌, ◌≤◌, ℕ, List, Ok, true, length, take, slice_index};
ghost use Rattle.chaos_packet.specs.Words.{spelling_of, words_for, Spells};
ghost use Rattle.chaos_link.specs.Bundle.{bytes_for, datagram_of_all, fit_together, spelling_of_all};
ghost use Rattle.chaos_link.specs.Packets.{Carries2, SpellsAll, packets_read};

use crate::datagram::MARK;
use crate::encode::put_packet;
use crate::limits::{MARK_BYTES, MAX_BUNDLE, MAX_DATAGRAM, MAX_PACKETS};
use crate::packets::{VERSION_TWO, packet_bytes};
use arrayvec::ArrayVec;
use chaos_packet::{HEADER_WORDS, Packet};

/// Whether one datagram of version 2 can carry the packets: 1 to 8 packets, which need at most
/// 2,020 bytes with the mark. The call looks at no data byte.
pub fn fits(packets: &[Packet]) -> bool
    // The packets fit exactly where some datagram of version 2 carries them.
    ensures carried { (result ≡ true) ↔ ((bs : List ℕ) × Carries2 packets.now bs) }

    // For callers that compute: the answer is a function of the packets.
    ensures exact { result ≡ fit_together packets.now }
{
    if packets.is_empty() || packets.len() > MAX_PACKETS {
        return false;
    }
    MARK_BYTES + bytes_of_all(packets) <= MAX_BUNDLE
}

/// The datagram of version 2 of the packets, which must fit ([`fits`]). Its free halves are zero
/// (own profile). The data bytes are copied once, by whole words, and nothing is allocated.
pub fn to_datagram2(packets: &[Packet]) -> ArrayVec<u8, MAX_BUNDLE>
    requires { fit_together packets.now ≡ true }

    // The datagram carries the packets.
    ensures carried { Carries2 packets.now result.items }

    // What is read of it is the packets.
    ensures read { packets_read result.items ≡ Ok packets.now }

    // For callers that compute: the datagram is a function of the packets.
    ensures exact { result.items ≡ datagram_of_all packets.now }
{
    let mut datagram = ArrayVec::from([0; MAX_BUNDLE]);
    let end = write_datagram2(packets, datagram.as_mut_slice());
    datagram.truncate(end);
    datagram
}

/// Writes the datagram of [`to_datagram2`] to the front of the caller's buffer, and answers where
/// the datagram ends. Of the bytes behind the end nothing is promised. The data bytes are copied
/// once, and no datagram is moved.
fn write_datagram2(packets: &[Packet], buffer: &mut [u8]) -> usize
    requires fit { fit_together packets.now ≡ true }
    requires room { MAX_BUNDLE ≤ length buffer.old }

    // What is written has 2,020 bytes at most, and carries the packets.
    ensures fits { result ≤ MAX_BUNDLE }
    ensures carried { Carries2 packets.now (take result buffer.new) }

    // What is read of it is the packets.
    ensures read { packets_read (take result buffer.new) ≡ Ok packets.now }

    // For callers that compute: the datagram is a function of the packets.
    ensures exact { take result buffer.new ≡ datagram_of_all packets.now }
{
    let mark = [MARK[0], MARK[1], VERSION_TWO, packets.len() as u8];
    buffer[..MARK_BYTES].copy_from_slice(&mark);
    let mut end = MARK_BYTES;
    for packet in packets {
        end = put_packet(packet, end, buffer);
    }
    end
}

/// How many bytes the packets take, one behind the other.
fn bytes_of_all(packets: &[Packet]) -> usize
    requires { length packets.now ≤ MAX_PACKETS }
    ensures bytes { result ≡ bytes_for packets.now }
    ensures few { result ≤ MAX_PACKETS * MAX_DATAGRAM }
    ensures spelled { SpellsAll packets.now (spelling_of_all packets.now) }
{
    let mut bytes = 0;
    for packet in packets {
        bytes += bytes_of(packet);
    }
    bytes
}

/// How many bytes a packet takes. Its data are bytes, and no more than a packet has, so words spell
/// it.
pub(crate) fn bytes_of(packet: &Packet) -> usize
    ensures bytes { result ≡ 2 * (HEADER_WORDS + words_for (length packet.now.body)) }
    ensures few { result ≤ MAX_DATAGRAM }
    ensures spelled { Spells packet.now (spelling_of packet.now) }
{
    packet_bytes(length_of(packet.bytes()))
}

/// How many bytes these are, each of them a byte.
fn length_of(bytes: &[u8]) -> usize
    ensures length { result ≡ length bytes.now }
    ensures small { (i : ℕ) → slice_index bytes.now i < 256 }
{
    bytes.len()
}

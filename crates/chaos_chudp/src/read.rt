//! A packet from a CHUDP datagram.
ghost use Rattle.std.specs.Prelude.{◌≡◌, ◌≢◌, ◌+◌, ◌<◌, ◌≤◌, ◌++◌, ℕ, IfOk, MatchResult, Ok, Some, None, length, take, drop};
ghost use Rattle.chaos_packet.specs.Packet.{PacketView};
ghost use Rattle.chaos_link.specs.Datagram.{mark, fault_of};
ghost use Rattle.chaos_chudp.specs.Chudp.{AtMostOneDelivery, CarriesChudp, IsDecidedByCarriesChudp, chudp_fault, chudp_read, fault_between, sum_in, word_in};

use crate::delivery::Delivery;
use crate::fault::ChudpFault;
use crate::limits::{HEAD_BYTES, MAX_CHUDP, TRAILER_BYTES};
use crate::sum::checksum_of;
use chaos_link::{LINK_ROOM, MAX_DATAGRAM, from_datagram};
use chaos_packet::{HEADER_WORDS, MAX_DATA, PacketFault};

/// The mark and the version of a datagram of version 1.
pub(crate) const MARK: [u8; 4] = [0x43, 0x48, 0x01, 0x00];

/// The packet that the CHUDP datagram carries, and its trailer.
///
/// ```text
///       0    1    2    3     4        5
///    +----+----+----+----+--------+--------+--    --+----------+----------+----------+
///    | 01 | 01 |  any    | word 0          | word 1 .. | next hop | sent by  | sum      |
///    |    |    |         | high   | low    |        | high low | high low | high low |
///    +----+----+----+----+--------+--------+--    --+----------+----------+----------+
/// ```
///
/// The head is version 1, function 1 and two arguments. The packet's words follow, each high byte
/// first, and then three words more, of which the last makes the checksum of packet and trailer 0.
/// Nothing may stand between packet and trailer. The data bytes are copied twice, and nothing is
/// allocated.
///
/// # Errors
/// The first fault, in the order of [`ChudpFault`].
pub fn from_chudp(bytes: &[u8]) -> Result<Delivery, ChudpFault>
    // The bytes carry the packet that is read, to the next hop and from the hop that are read.
    ensures carried { IfOk result (λ d. CarriesChudp d.packet d.to d.from bytes.now) }

    // Whatever packet the bytes carry, to whatever hop and from whatever hop, is read.
    ensures only { (p : PacketView) (to from : ℕ) → CarriesChudp p to from bytes.now →
        result ≡ Ok (record { packet = p; to = to; from = from; sum = sum_in bytes.now }) }

    // The sum is given as it stands in the bytes.
    ensures sum { IfOk result (λ d. d.sum ≡ sum_in bytes.now) }

    // A refusal is the first fault, and there is none where a packet is read.
    ensures fault { MatchResult result (λ _. chudp_fault bytes.now ≡ None)
        (λ f. chudp_fault bytes.now ≡ Some f) }

    // For callers that compute: the answer is a function of the bytes.
    ensures exact { result ≡ chudp_read bytes.now }
{
    checked(bytes)?;
    let end = bytes.len() - TRAILER_BYTES;
    let mut plain = [0; MAX_DATAGRAM];
    mark_over(&bytes[..end], &mut plain);
    let Ok(packet) = from_datagram(&plain[..end]) else {
        unreachable!()
    };
    Ok(Delivery {
        packet,
        to: word_at(bytes, end),
        from: word_at(bytes, end + 2),
        sum: word_at(bytes, end + 4),
    })
}

/// Copies bytes to the front of others, with the mark in place of their first four.
#[inline(always)]
fn mark_over(from: &[u8], to: &mut [u8])
    requires long { HEAD_BYTES ≤ length from.now }
    requires fits { length from.now ≤ length to.old }
    ensures { take (length from.now) to.new ≡ mark ++ drop HEAD_BYTES from.now }
{
    to[..from.len()].copy_from_slice(from);
    to[..HEAD_BYTES].copy_from_slice(&MARK);
}

/// What the checks make of the bytes, in their order.
#[inline(always)]
pub(crate) fn checked(bytes: &[u8]) -> Result<(), ChudpFault>
    ensures fault { MatchResult result (λ _. chudp_fault bytes.now ≡ None)
        (λ f. chudp_fault bytes.now ≡ Some f) }
    ensures long { IfOk result (λ _. 26 ≤ length bytes.now) }
    ensures few { IfOk result (λ _. length bytes.now ≤ MAX_CHUDP) }
{
    if bytes.len() > LINK_ROOM {
        return Err(ChudpFault::TooLong);
    }
    if bytes.len() < HEAD_BYTES {
        return Err(ChudpFault::Short);
    }
    if bytes[0] != 1 {
        return Err(ChudpFault::BadVersion);
    }
    if bytes[1] != 1 {
        return Err(ChudpFault::BadFunction);
    }
    if bytes.len() < HEAD_BYTES + 2 * HEADER_WORDS + TRAILER_BYTES || bytes.len() % 2 == 1 {
        return Err(ChudpFault::Short);
    }
    if checksum_of(&bytes[HEAD_BYTES..]) != 0 {
        return Err(ChudpFault::BadSum);
    }
    words_checked(&bytes[HEAD_BYTES..bytes.len() - TRAILER_BYTES])
}

/// What the checks make of the words of a packet, which a head and a trailer stand round.
#[inline(always)]
pub(crate) fn words_checked(words: &[u8]) -> Result<(), ChudpFault>
    ensures fault { MatchResult result (λ _. fault_between words.now ≡ None)
        (λ f. fault_between words.now ≡ Some f) }
    // They are a packet behind the mark of a datagram of version 1 exactly where they are one here.
    ensures plain { MatchResult result (λ _. fault_of (mark ++ words.now) ≡ None)
        (λ _. fault_of (mark ++ words.now) ≢ None) }
    ensures few { IfOk result (λ _. length words.now ≤ 504) }
{
    let whole = words.len() / 2;
    if whole < HEADER_WORDS {
        return Err(ChudpFault::Packet(PacketFault::Short));
    }
    let count = usize::from(word_at(words, 2) % 4096);
    if count > MAX_DATA {
        return Err(ChudpFault::Packet(PacketFault::BadCount));
    }
    if whole < HEADER_WORDS + (count + 1) / 2 {
        return Err(ChudpFault::Packet(PacketFault::Truncated));
    }
    if words.len() > 2 * (HEADER_WORDS + (count + 1) / 2) {
        return Err(ChudpFault::Trailing);
    }
    Ok(())
}

/// The word at a byte.
#[inline(always)]
fn word_at(bytes: &[u8], i: usize) -> u16
    requires { i + 1 < length bytes.now }
    ensures { result ≡ word_in bytes.now i }
{
    u16::from_be_bytes([bytes[i], bytes[i + 1]])
}

/// The law of reading CHUDP datagrams, over the definitions alone.
pub fn law_carries_chudp()
    // What is read of bytes is decided by what they carry.
    ensures decided { IsDecidedByCarriesChudp }
    // Bytes carry at most one packet, to one next hop and from one hop.
    ensures one { AtMostOneDelivery }
{}

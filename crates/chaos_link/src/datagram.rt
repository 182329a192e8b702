//! A packet from its bytes on a link.
ghost use Rattle.std.specs.Prelude.{◌≡◌, ◌+◌, ◌*◌, ◌/◌, ◌<◌, ◌≤◌, ℕ, IfOk, MatchResult, Ok, Some, None, drop, length, slice_index, take};
ghost use Rattle.chaos_packet.specs.Packet.{PacketView};
ghost use Rattle.chaos_packet.specs.Words.{words_for, count_of, halves, words_fault, packet_at};
ghost use Rattle.chaos_link.specs.Datagram.{Carries, IsDecidedByCarries, datagram_len, datagram_read, fault_of, words_of};

use crate::fault::LinkFault;
use crate::limits::MARK_BYTES;
use crate::pairs::turn_pairs;
use arrayvec::ArrayVec;
use chaos_packet::{HEADER_WORDS, MAX_DATA, Opcode, Packet, PacketFault, PktNum};

/// The mark and the version that a datagram begins with.
pub(crate) const MARK: [u8; 4] = [0x43, 0x48, 0x01, 0x00];

/// The packet that the datagram carries (own profile).
///
/// ```text
///       0    1    2    3     4        5
///    +----+----+----+----+--------+--------+--
///    | 43 | 48 | 01 | 00 | word 0          | word 1 ..
///    |    mark | version | high   | low    |
///    +----+----+----+----+--------+--------+--
/// ```
///
/// After the mark and the version come the packet's words, each high byte first, and nothing more.
/// The data bytes are copied once, by whole words, and nothing is allocated.
///
/// # Errors
/// The first fault, in the order of [`LinkFault`]. The number of bytes, the first four bytes and
/// word 1 alone decide it.
#[inline(always)]
pub fn from_datagram(bytes: &[u8]) -> Result<Packet, LinkFault>
    // The bytes carry the packet that is read.
    ensures carried { IfOk result (λ p. Carries p bytes.now) }

    // Whatever packet the bytes carry is read.
    ensures only { (p : PacketView) → Carries p bytes.now → result ≡ Ok p }

    // A refusal is the first fault, and there is none where a packet is read.
    ensures fault { MatchResult result (λ _. fault_of bytes.now ≡ None)
        (λ f. fault_of bytes.now ≡ Some f) }

    // For callers that compute: the answer is a function of the bytes.
    ensures exact { result ≡ datagram_read bytes.now }
{
    let count = checked_count(bytes)?;
    let (_, words) = bytes.split_at(MARK_BYTES);
    Ok(packet_of(words, count))
}

/// The packet at the front of the whole words of the bytes, which has so many data bytes.
#[inline(always)]
pub(crate) fn packet_of(words: &[u8], count: usize) -> Packet
    requires long { datagram_len count ≤ MARK_BYTES + length words.now }
    requires count { count ≡ count_of (words_of words.now) }
    requires small { count ≤ MAX_DATA }
    ensures { result ≡ packet_at (words_of words.now) }
{
    let (_, data) = words.split_at(2 * HEADER_WORDS);
    let (data, _) = data.split_at(2 * ((count + 1) / 2));
    let mut packet = Packet {
        op: Opcode((word_at(words, 0) / 256) as u8),
        fwd: (word_at(words, 1) / 4096) as u8,
        dst: word_at(words, 2),
        dst_index: word_at(words, 3),
        src: word_at(words, 4),
        src_index: word_at(words, 5),
        num: PktNum(word_at(words, 6)),
        ack: PktNum(word_at(words, 7)),
        body: ArrayVec::from([0; MAX_DATA]),
    };
    // In place, since each copy of a packet costs as much as the data does.
    turn_pairs(data, packet.body.as_mut_slice());
    packet.body.truncate(count);
    packet
}

/// Puts so many bytes in place of a body: those of the words, each turned round.
#[inline(always)]
pub(crate) fn turn_over(from: &[u8], count: usize, body: &mut ArrayVec<u8, MAX_DATA>)
    requires fits { length from.now ≤ MAX_DATA }
    requires count { count ≤ 2 * (length from.now / 2) }
    ensures { body.new.items ≡ take count (halves (words_of from.now)) }
{
    let had = body.len();
    if had < from.len() {
        // Room for what is turned: whatever stands there is written over.
        let _fits = body.try_extend_from_slice(&from[had..]);
    }
    turn_pairs(from, body.as_mut_slice());
    body.truncate(count);
}

/// How many data bytes the datagram's packet has, where it is one: what the checks make of the
/// bytes, in their order.
#[inline(always)]
pub(crate) fn checked_count(bytes: &[u8]) -> Result<usize, LinkFault>
    ensures fault { MatchResult result (λ _. fault_of bytes.now ≡ None)
        (λ f. fault_of bytes.now ≡ Some f) }
    ensures count { IfOk result (λ n. n ≡ count_of (words_of (drop MARK_BYTES bytes.now))) }
    ensures small { IfOk result (λ n. n ≤ MAX_DATA) }
    ensures long { IfOk result (λ n. length bytes.now ≡ datagram_len n) }
{
    if bytes.len() < MARK_BYTES {
        return Err(LinkFault::Short);
    }
    if bytes[0] != MARK[0] || bytes[1] != MARK[1] {
        return Err(LinkFault::BadMark);
    }
    if bytes[2] != MARK[2] || bytes[3] != MARK[3] {
        return Err(LinkFault::BadVersion);
    }
    let (_, words) = bytes.split_at(MARK_BYTES);
    match data_count(words) {
        Ok(count) if words.len() > 2 * (HEADER_WORDS + (count + 1) / 2) => Err(LinkFault::Trailing),
        Ok(count) => Ok(count),
        Err(fault) => Err(LinkFault::Packet(fault)),
    }
}

/// How many data bytes the packet at the front of the whole words of the bytes has, where one is
/// there.
#[inline(always)]
pub(crate) fn data_count(bytes: &[u8]) -> Result<usize, PacketFault>
    ensures fault { MatchResult result (λ _. words_fault (words_of bytes.now) ≡ None)
        (λ f. words_fault (words_of bytes.now) ≡ Some f) }
    ensures count { IfOk result (λ n. n ≡ count_of (words_of bytes.now)) }
    ensures small { IfOk result (λ n. n ≤ MAX_DATA) }
    ensures long { IfOk result (λ n. 2 * (HEADER_WORDS + words_for n) ≤ length bytes.now) }
{
    let words = bytes.len() / 2;
    if words < HEADER_WORDS {
        return Err(PacketFault::Short);
    }
    let count = usize::from(word_at(bytes, 1) % 4096);
    if count > MAX_DATA {
        return Err(PacketFault::BadCount);
    }
    if words < HEADER_WORDS + (count + 1) / 2 {
        return Err(PacketFault::Truncated);
    }
    Ok(count)
}

/// One of the words of the bytes.
#[inline(always)]
pub(crate) fn word_at(bytes: &[u8], i: usize) -> u16
    requires { 2 * i + 1 < length bytes.now }
    ensures { result ≡ slice_index (words_of bytes.now) i }
{
    u16::from_be_bytes([bytes[2 * i], bytes[2 * i + 1]])
}

/// The law of reading datagrams of version 1, over the definitions alone.
pub fn law_carries()
    // What is read of bytes is decided by what they carry: a packet exactly where the bytes carry
    // it, otherwise the first fault.
    ensures { IsDecidedByCarries }
{}

//! The packets of a datagram of either version.
ghost use Rattle.std.specs.Prelude.{◌≡◌, ◌+◌, ◌-◌, ◌*◌, ◌/◌, ◌≤◌, [], ℕ, List, IfOk, IfSome, MatchResult, Ok, Err, Some, None, true, false, drop, if◌then◌else◌, length, option_map, slice_get, slice_index};
ghost use Rattle.chaos_packet.specs.Packet.{PacketView};
ghost use Rattle.chaos_packet.specs.Words.{count_of, packet_at};
ghost use Rattle.chaos_link.specs.Datagram.{datagram_len, words_of};
ghost use Rattle.chaos_link.specs.Packets.{AtMostOneList, CarriesAll, IsDecidedByCarriesAll, packets_len, packets_fault, fault_of_all, fault_of_two, is_two, number_of, packets_at, packets_read};

use crate::datagram::{MARK, checked_count, data_count, packet_of, turn_over, word_at};
use crate::fault::LinkFault;
use crate::limits::{MARK_BYTES, MAX_BUNDLE, MAX_PACKETS};
use arrayvec::ArrayVec;
use chaos_packet::{HEADER_WORDS, MAX_DATA, Opcode, Packet, PktNum};
use std::marker::Model;

/// The third byte of a datagram that carries several packets.
pub(crate) const VERSION_TWO: u8 = 2;

/// The packets of a datagram, which lie in it and are taken one after the other. A contract sees
/// the list of the packets that are left.
///
/// [`open_datagram`] checks a datagram before any packet is taken, so that no packet of a bad
/// datagram is taken. Taking a packet copies its data bytes once.
#[derive(Drop)]
pub struct Packets<'a> {
    words: &'a [u8],
    left: usize,
}

impl<'a> Model for Packets<'a> {
    ghost use Rattle.std.specs.Prelude.{◌≡◌, List, None};
    ghost use Rattle.chaos_packet.specs.Packet.{PacketView};
    ghost use Rattle.chaos_link.specs.Datagram.{words_of};
    ghost use Rattle.chaos_link.specs.Packets.{packets_at, packets_fault};

    ghost Value = { List PacketView };

    ghost view = { λ s. packets_at s.left (words_of s.words.now) };

    ghost invariant = { λ s. packets_fault s.left 1 (words_of s.words.now) ≡ None };
}

impl<'a> Packets<'a> {
    /// Takes the next packet out.
    pub fn next(&mut self) -> Option<Packet>
        // The packets of an opened datagram come out in their order, each once, and then none.
        ensures packet { result ≡ slice_get self.old 0 }
        ensures rest { self.new ≡ drop 1 self.old }
    {
        let (words, count) = self.step()?;
        Some(packet_of(words, count))
    }

    /// The source of the next packet, which stays.
    pub fn source(&self) -> Option<u16>
        // The source is that of the next packet. There is none where no packet is left.
        ensures { result ≡ option_map (λ packet. packet.src) (slice_get self.now 0) }
    {
        if self.left == 0 {
            return None;
        }
        Some(word_at(self.words, 4))
    }

    /// Takes the next packet out into a place of the caller's, whatever packet stands there, and
    /// answers whether there was a packet. A caller that keeps one place for all packets pays for
    /// their data alone.
    pub fn next_into(&mut self, packet: &mut Packet) -> bool
        // The packets come out in their order, each once, and then none.
        ensures packet { (if result then Some packet.new else None) ≡ slice_get self.old 0 }
        // Where no packet is left, the place stays as it is.
        ensures none { result ≡ false → packet.new ≡ packet.old }
        ensures rest { self.new ≡ drop 1 self.old }
    {
        let Some((words, count)) = self.step() else {
            return false;
        };
        let (_, data) = words.split_at(2 * HEADER_WORDS);
        let (data, _) = data.split_at(2 * ((count + 1) / 2));
        packet.op = Opcode((word_at(words, 0) / 256) as u8);
        packet.fwd = (word_at(words, 1) / 4096) as u8;
        packet.dst = word_at(words, 2);
        packet.dst_index = word_at(words, 3);
        packet.src = word_at(words, 4);
        packet.src_index = word_at(words, 5);
        packet.num = PktNum(word_at(words, 6));
        packet.ack = PktNum(word_at(words, 7));
        turn_over(data, count, &mut packet.body);
        true
    }

    /// Steps over the next packet: the words that it begins, and how many data bytes it has.
    #[inline(always)]
    fn step(&mut self) -> Option<(&'a [u8], usize)>
        ensures packet { option_map (λ at. packet_at (words_of at.0.now)) result
            ≡ slice_get self.old 0 }
        ensures count { IfSome result (λ at. at.1 ≡ count_of (words_of at.0.now)) }
        ensures small { IfSome result (λ at. at.1 ≤ MAX_DATA) }
        ensures long { IfSome result (λ at. datagram_len at.1 ≤ MARK_BYTES + length at.0.now) }
        ensures rest { self.new ≡ drop 1 self.old }
    {
        if self.left == 0 {
            return None;
        }
        let words = self.words;
        let Ok(count) = data_count(words) else {
            unreachable!()
        };
        let (_, behind) = words.split_at(packet_bytes(count));
        self.words = behind;
        self.left -= 1;
        Some((words, count))
    }
}

/// Opens a datagram of either version (own profile): checks it, and gives its packets.
///
/// ```text
///       0    1    2    3     4 ..                 4 + n ..
///    +----+----+----+----+--------------------+--------------------+--
///    | 43 | 48 | 01 | 00 | the packet's words |
///    +----+----+----+----+--------------------+--------------------+--
///    | 43 | 48 | 02 | N  | words of packet 1  | words of packet 2  | .. packet N, nothing more
///    +----+----+----+----+--------------------+--------------------+--
/// ```
///
/// The call looks at each packet's header once and at no data byte. Nothing is copied or allocated.
///
/// # Errors
/// The first fault. Where the third byte is 2: `BadNumber` (N isn't 1 to 8), `TooLong`, `PacketAt`
/// for the first packet at fault, `Trailing`. Otherwise the faults of
/// [`from_datagram`](crate::from_datagram). They come first where the mark isn't there.
pub fn open_datagram(bytes: &[u8]) -> Result<Packets<'_>, LinkFault>
    // The bytes carry the packets that are read.
    ensures carried { IfOk result (λ packets. CarriesAll packets bytes.now) }

    // Whatever packets the bytes carry are read.
    ensures only { (packets : List PacketView) → CarriesAll packets bytes.now →
        result ≡ Ok packets }

    // A refusal is the first fault, and there is none where packets are read.
    ensures fault { MatchResult result (λ _. fault_of_all bytes.now ≡ None)
        (λ f. fault_of_all bytes.now ≡ Some f) }

    // For callers that compute: the answer is a function of the bytes.
    ensures exact { result ≡ packets_read bytes.now }
{
    if is_version_two(bytes) {
        let left = checked_number(bytes)?;
        let (_, words) = bytes.split_at(MARK_BYTES);
        return Ok(Packets { words, left });
    }
    checked_count(bytes)?;
    let (_, words) = bytes.split_at(MARK_BYTES);
    Ok(Packets { words, left: 1 })
}

/// The packets of a datagram of either version, as [`open_datagram`] reads it, in an array of their
/// own: 4 KB, for callers that need them all at once. Nothing is allocated.
///
/// # Errors
/// Those of [`open_datagram`].
pub fn read_datagram(bytes: &[u8]) -> Result<ArrayVec<Packet, MAX_PACKETS>, LinkFault>
    // The bytes carry the packets that are read.
    ensures carried { IfOk result (λ packets. CarriesAll packets.items bytes.now) }

    // Whatever packets the bytes carry are read.
    ensures only { (packets : List PacketView) → CarriesAll packets bytes.now →
        result ≡ Ok (record { items = packets }) }

    // A refusal is the first fault, and there is none where packets are read.
    ensures fault { MatchResult result (λ _. fault_of_all bytes.now ≡ None)
        (λ f. fault_of_all bytes.now ≡ Some f) }

    // For callers that compute: the answer is a function of the bytes.
    ensures exact { MatchResult result (λ packets. packets_read bytes.now ≡ Ok packets.items)
        (λ f. packets_read bytes.now ≡ Err f) }
{
    let mut left = open_datagram(bytes)?;
    let mut packets = ArrayVec::new();
    for _turn in 0..MAX_PACKETS {
        if let Some(packet) = left.next() {
            packets.push(packet);
        }
    }
    Ok(packets)
}

/// Whether the bytes begin as a datagram of version 2 does.
fn is_version_two(bytes: &[u8]) -> bool
    // The mark is there, and the third byte is 2. Nothing else is looked at: the bytes may have any
    // fault behind these.
    ensures { result ≡ is_two bytes.now }
{
    bytes.len() >= MARK_BYTES
        && bytes[0] == MARK[0]
        && bytes[1] == MARK[1]
        && bytes[2] == VERSION_TWO
}

/// How many packets a datagram of version 2 has, where it has no fault: what the checks make of the
/// bytes, in their order.
fn checked_number(bytes: &[u8]) -> Result<usize, LinkFault>
    requires { is_two bytes.now ≡ true }
    ensures fault { MatchResult result (λ _. fault_of_two bytes.now ≡ None)
        (λ f. fault_of_two bytes.now ≡ Some f) }
    ensures number { IfOk result (λ n. n ≡ slice_index bytes.now 3) }
    ensures none { IfOk result
        (λ n. packets_fault n 1 (words_of (drop MARK_BYTES bytes.now)) ≡ None) }
{
    let number = bytes[3];
    if number < 1 || number > MAX_PACKETS as u8 {
        return Err(LinkFault::BadNumber);
    }
    if bytes.len() > MAX_BUNDLE {
        return Err(LinkFault::TooLong);
    }
    let (_, words) = bytes.split_at(MARK_BYTES);
    if left_over(words, number)? > 0 {
        return Err(LinkFault::Trailing);
    }
    Ok(usize::from(number))
}

/// How many bytes stand behind so many packets.
fn left_over(words: &[u8], number: u8) -> Result<usize, LinkFault>
    requires { number ≤ MAX_PACKETS }
    ensures fault { MatchResult result (λ _. packets_fault number 1 (words_of words.now) ≡ None)
        (λ f. packets_fault number 1 (words_of words.now) ≡ Some f) }
    ensures over { IfOk result
        (λ over. 2 * packets_len number (words_of words.now) + over ≡ length words.now) }
{
    let mut rest = words;
    for k in 0..number {
        match data_count(rest) {
            Ok(count) => {
                let (_, behind) = rest.split_at(packet_bytes(count));
                rest = behind;
            }
            Err(fault) => return Err(LinkFault::PacketAt(k + 1, fault)),
        }
    }
    Ok(rest.len())
}

/// The bytes of a packet with so many data bytes.
#[inline(always)]
pub(crate) fn packet_bytes(count: usize) -> usize
    requires { count ≤ MAX_DATA }
    ensures { result ≡ 2 * (HEADER_WORDS + (count + 1) / 2) }
{
    2 * (HEADER_WORDS + (count + 1) / 2)
}

/// The law of reading datagrams of either version, over the definitions alone.
pub fn law_carries2()
    // What is read of bytes is decided by what they carry: packets exactly where the bytes carry
    // these packets, otherwise the first fault.
    ensures decided { IsDecidedByCarriesAll }
    // Any bytes carry at most one list of packets.
    ensures one { AtMostOneList }
{}

//! The CHUDP datagram of a packet.
ghost use Rattle.std.specs.Prelude.{◌≡◌, ◌+◌, ◌<◌, ◌≤◌, ◌++◌, ◌∷◌, [], ℕ, List, Ok, length, take, slice_index};
ghost use Rattle.chaos_link.specs.Datagram.{wire};
ghost use Rattle.chaos_link.specs.declared.limits.TheConstants.{LINK_ROOM};
ghost use Rattle.chaos_chudp.specs.Chudp.{CarriesChudp, IsCanonical, IsCarriedOver, chudp_form, chudp_of, chudp_read, sum_in};

use crate::limits::{HEAD_BYTES, MAX_CHUDP, TRAILER_BYTES};
use crate::sum::checksum_of;
use arrayvec::ArrayVec;
use chaos_link::write_datagram;
use chaos_packet::Packet;

/// The head: version 1, function 1, and two arguments that are 0.
const HEAD: [u8; 4] = [1, 1, 0, 0];

/// The canonical CHUDP datagram of the packet, to the next hop `to` and from the hop `me`.
pub fn to_chudp(packet: &Packet, to: u16, me: u16) -> ArrayVec<u8, MAX_CHUDP>
    // The datagram carries the packet and the hops, and is canonical: its arguments and free halves
    // are zero, and its sum is the checksum of packet and trailer.
    ensures carried { CarriesChudp packet.now to me result.items }
    ensures canonical { IsCanonical result.items }

    // No other bytes carry the packet and the hops and are canonical.
    ensures only { (bs : List ℕ) → CarriesChudp packet.now to me bs → IsCanonical bs →
        bs ≡ result.items }

    // What is read of it is the packet and the hops.
    ensures read { chudp_read result.items
        ≡ Ok (record { packet = packet.now; to = to; from = me; sum = sum_in result.items }) }

    // For callers that compute: the datagram is a function of the packet and the hops.
    ensures exact { result.items ≡ chudp_of packet.now to me }
{
    let mut datagram = ArrayVec::from([0; MAX_CHUDP]);
    let end = write_chudp(packet, to, me, datagram.as_mut_slice());
    datagram.truncate(end);
    datagram
}

/// Writes the datagram of [`to_chudp`] to the front of the caller's buffer, and answers where the
/// datagram ends.
#[inline(always)]
fn write_chudp(packet: &Packet, to: u16, me: u16, buffer: &mut [u8]) -> usize
    requires { MAX_CHUDP ≤ length buffer.old }
    // What is written has 514 bytes at most, carries the packet and the hops, and is canonical.
    ensures fits { result ≤ MAX_CHUDP }
    ensures carried { CarriesChudp packet.now to me (take result buffer.new) }
    ensures canonical { IsCanonical (take result buffer.new) }
    // No other bytes carry the packet and the hops and are canonical.
    ensures only { (bs : List ℕ) → CarriesChudp packet.now to me bs → IsCanonical bs →
        bs ≡ take result buffer.new }
    // What is read of it is the packet and the hops.
    ensures read { chudp_read (take result buffer.new) ≡ Ok (record {
      packet = packet.now;
      to = to;
      from = me;
      sum = sum_in (take result buffer.new);
    }) }
    // For callers that compute: the datagram is a function of the packet and the hops.
    ensures exact { take result buffer.new ≡ chudp_of packet.now to me }
{
    let end = write_datagram(packet, buffer);
    let _bytes = length_of(&buffer[..end]);
    close(buffer, end, to, me)
}

/// How many bytes these are, each of them a byte.
#[inline(always)]
fn length_of(bytes: &[u8]) -> usize
    ensures length { result ≡ length bytes.now }
    ensures small { (i : ℕ) → slice_index bytes.now i < 256 }
{
    bytes.len()
}

/// Makes the datagram of version 1 that ends there into its CHUDP form, and says where that ends.
#[inline(always)]
pub(crate) fn close(buffer: &mut [u8], end: usize, to: u16, me: u16) -> usize
    requires long { HEAD_BYTES ≤ end }
    requires room { end + TRAILER_BYTES ≤ length buffer.old }
    requires few { end ≤ LINK_ROOM }
    ensures end { result ≡ end + TRAILER_BYTES }
    ensures fits { result ≤ length buffer.new }
    ensures bytes { take result buffer.new ≡ chudp_form to me (take end buffer.old) }
{
    buffer[..HEAD_BYTES].copy_from_slice(&HEAD);
    put_word(buffer, end, to);
    put_word(buffer, end + 2, me);
    let sum = checksum_of(&buffer[HEAD_BYTES..end + 4]);
    put_word(buffer, end + 4, sum);
    end + TRAILER_BYTES
}

/// Puts a word behind so many bytes, high byte first.
#[inline(always)]
fn put_word(buffer: &mut [u8], at: usize, word: u16)
    requires { at + 2 ≤ length buffer.old }
    ensures { take (at + 2) buffer.new ≡ take at buffer.old ++ wire (word ∷ []) }
{
    buffer[at] = (word / 256) as u8;
    buffer[at + 1] = (word % 256) as u8;
}

/// The law of the CHUDP form, over the definitions alone.
pub fn law_form()
    // The CHUDP form of whatever datagram of version 1 carries a packet carries the same packet.
    ensures { IsCarriedOver }
{}

//! Packets that wait, cut into datagrams of version 2.
ghost use Rattle.std.specs.Prelude.{◌≡◌, ◌≤◌, ◌++◌, ◌∷◌, [], ℕ, List, All, Ok, true, length, take, slice_index};
ghost use Rattle.chaos_packet.specs.Packet.{PacketView};
ghost use Rattle.chaos_link.specs.Bundle.{datagram_of_all, fit_within};
ghost use Rattle.chaos_link.specs.Loads.{AreLoadsOf, AreLongest, HasOneDestination, IsBuilt, IsSmall, joined, joins, loads_of, packets_of};
ghost use Rattle.chaos_link.specs.Packets.{Carries2, packets_read};

use crate::bundle::bytes_of;
use crate::datagram::MARK;
use crate::encode::put_packet;
use crate::limits::{MARK_BYTES, MAX_LOAD, MAX_PACKETS};
use crate::packets::VERSION_TWO;
use chaos_packet::Packet;
use std::marker::Model;

/// The place of the number of packets in a datagram of version 2.
const NUMBER: usize = 3;

/// A datagram of version 2 that is built packet by packet, all of them to one destination. A
/// contract sees its packets, of which there is at least one.
///
/// A load lets packets that wait one behind the other go out in as few datagrams as their order
/// allows. Each packet joins the load before it ([`Load::join`]); otherwise that load is sent and
/// the packet begins the next ([`Load::begin`]). A load has room of its own for 1,472 bytes, and
/// takes no memory.
#[derive(Drop)]
pub struct Load {
    bytes: [u8; MAX_LOAD],
    /// How many bytes the datagram has so far.
    end: usize,
    /// Where the packets go.
    to: u16,
}

impl Model for Load {
    ghost use Rattle.std.specs.Prelude.{List};
    ghost use Rattle.chaos_packet.specs.Packet.{PacketView};
    ghost use Rattle.chaos_link.specs.Loads.{IsBuilt, load_in};

    ghost Value = { List PacketView };

    ghost view = { λ s. load_in s.end s.bytes };

    ghost invariant = { λ s. IsBuilt (load_in s.end s.bytes) s.to s.end s.bytes };
}

impl Load {
    /// A load of this packet.
    pub fn of(packet: &Packet) -> Self
        // A new load has its one packet.
        ensures { result ≡ packet.now ∷ [] }
    {
        let mut bytes = [0; MAX_LOAD];
        let end = put_first(packet, &mut bytes);
        Load {
            bytes,
            end,
            to: packet.dst,
        }
    }

    /// Begins a load anew, with this packet in place of those that it had.
    pub fn begin(&mut self, packet: &Packet)
        // A load that is begun anew has this packet, and none that it had.
        ensures { self.new ≡ packet.now ∷ [] }
    {
        self.end = put_first(packet, &mut self.bytes);
        self.to = packet.dst;
    }

    /// Adds a packet to the load where the packet joins it, and answers whether it does. No data
    /// byte is looked at for the answer; the data bytes are copied once, by whole words.
    pub fn join(&mut self, packet: &Packet) -> bool
        // A packet joins a load exactly where it goes to the same destination and all of them
        // together are at most 8 packets and 1,472 bytes.
        ensures told { result ≡ joins self.old packet.now }
        // A packet that joins goes behind the others, and a packet that doesn't join changes
        // nothing.
        ensures load { self.new ≡ joined self.old packet.now }
    {
        if !self.joins(packet) {
            return false;
        }
        self.bytes[NUMBER] += 1;
        self.end = put_packet(packet, self.end, &mut self.bytes);
        true
    }

    /// Whether a packet joins the load, as [`Load::join`] says.
    fn joins(&self, packet: &Packet) -> bool
        ensures { result ≡ joins self.now packet.now }
    {
        if packet.dst != self.to || usize::from(self.bytes[NUMBER]) == MAX_PACKETS {
            return false;
        }
        self.end + bytes_of(packet) <= MAX_LOAD
    }

    /// The Chaosnet address that the load goes to.
    pub fn destination(&self) -> u16
        // All packets of a load, of which there is at least one, go to one destination.
        ensures all { All (λ p. p.dst ≡ result) self.now }
        ensures some { 1 ≤ length self.now }
    {
        self.to
    }

    /// The datagram of the load. Its free halves are zero.
    pub fn datagram(&self) -> &[u8]
        // The datagram has 1,472 bytes at most, so that an Ethernet frame takes it whole, and it
        // carries the packets.
        ensures fits { length result.now ≤ MAX_LOAD }
        ensures carried { Carries2 self.now result.now }

        // What is read of it is the packets.
        ensures read { packets_read result.now ≡ Ok self.now }

        // For callers that compute: the datagram is a function of the packets.
        ensures exact { result.now ≡ datagram_of_all self.now }
    {
        &self.bytes[..self.end]
    }
}

/// Puts the datagram of version 2 of one packet in front, and says where it ends.
fn put_first(packet: &Packet, buffer: &mut [u8; MAX_LOAD]) -> usize
    ensures { IsBuilt (packet.now ∷ []) packet.now.dst result buffer.new }
{
    buffer[..MARK_BYTES].copy_from_slice(&[MARK[0], MARK[1], VERSION_TWO, 1]);
    put_packet(packet, MARK_BYTES, buffer)
}

/// The law of the loads of packets that wait, over the definitions alone.
pub fn law_loads()
    // The loads, one behind the other, are the packets that wait, in their order.
    ensures whole { (ps : List PacketView) → packets_of (loads_of ps) ≡ ps }

    // Each load is 1 to 8 packets that need at most 1,472 bytes, where no packet has over 488 data
    // bytes.
    ensures fit { (ps : List PacketView) → All IsSmall ps →
        All (λ load. fit_within MAX_LOAD load ≡ true) (loads_of ps) }

    // Each has one destination.
    ensures one { (ps : List PacketView) → All HasOneDestination (loads_of ps) }

    // Each load is the longest prefix of what is left: the first packet of the next load goes
    // elsewhere, or doesn't fit.
    ensures longest { (ps : List PacketView) → AreLongest (loads_of ps) }

    // No other loads are all of that.
    ensures only { (ps : List PacketView) (loads : List (List PacketView)) → AreLoadsOf ps loads →
        loads ≡ loads_of ps }
{}

//! Packets that wait to be sent.
ghost use Rattle.std.specs.Prelude.{◌≡◌, ◌+◌, ◌<◌, ◌≤◌, length, [], ◌∷◌, slice_get, IfOk};
ghost use Rattle.std.specs.Option.{option_copied};
ghost use Rattle.chaos_packet.specs.Header.{packet_of};
ghost use Rattle.chaos_packet.specs.Outbox.{room_of, with_put, without_oldest};

use crate::header::Header;
use crate::limits::MAX_DATA;
use crate::packet::Packet;
use crate::ring::Ring;
use std::alloc::{AllocError, Global};
use std::marker::Model;

/// A queue of packets that wait to be sent, with room for a fixed number of packets. A contract
/// sees the packets, the oldest first, and that number.
///
/// `new` takes the memory for all of them, and no later call takes any. Each packet lies in a place
/// of its own, which stays when the packet goes. To put a packet in or to take a packet out moves
/// no other packet.
#[derive(Drop)]
pub struct Outbox {
    waiting: Ring<Packet>,
}

impl Model for Outbox {
    ghost use Rattle.std.specs.Prelude.{◌≡◌};
    ghost use Rattle.chaos_packet.specs.Outbox.{OutboxView};

    ghost Value = { OutboxView };

    ghost view = { λ out. record { packets = out.waiting.items; cap = out.waiting.cap } };

    ghost invariant = { λ out. out.waiting.taken ≡ 0 };
}

impl Outbox {
    /// An outbox with a place for each of `cap` packets.
    pub fn new(alloc: Global, cap: usize) -> Result<Self, AllocError>
        // A new outbox is empty, with room for `cap` packets.
        ensures { IfOk result (λ out. out ≡ record { packets = []; cap = cap }) }
    {
        let waiting = Ring::new(alloc, cap)?;
        Ok(Outbox { waiting })
    }

    /// How many more packets fit.
    pub fn room(&self) -> usize
        // This many packets still fit.
        ensures value { result ≡ room_of self.now }
        // With the packets that wait they make the cap.
        ensures sound { length self.now.packets + result ≡ self.now.cap }
    {
        self.waiting.cap() - self.waiting.len()
    }

    /// Puts a packet in. The caller asks [`Outbox::room`] for room before.
    pub fn put(&mut self, packet: Packet)
        requires { 0 < room_of self.old }
        // The packet goes behind the others.
        ensures { self.new ≡ with_put self.old (packet ∷ []) }
    {
        if let Some(mut place) = self.waiting.take_spare() {
            *place.value = packet;
            self.waiting.push(place);
        }
    }

    /// Puts in the packet of a header and of lent data. The packet is made where it is to lie, so
    /// its data are copied once and nothing else is moved.
    pub fn put_lent(&mut self, header: Header, bytes: &[u8])
        requires room { 0 < room_of self.old }
        requires fits { length bytes.now ≤ MAX_DATA }
        // The packet of this header and these data goes behind the others.
        ensures { self.new ≡ with_put self.old (packet_of header bytes.now ∷ []) }
    {
        if let Some(mut place) = self.waiting.take_spare() {
            place.value.overwrite(header, bytes);
            self.waiting.push(place);
        }
    }

    /// Lends the oldest packet where it lies. A caller that only looks at a packet before the
    /// packet goes, as a sender does, calls `front` and then [`Outbox::drop_front`]. These calls
    /// move no packet.
    pub fn front(&self) -> Option<&Packet>
        // The oldest packet is lent, where there is one.
        ensures { option_copied result ≡ slice_get self.now.packets 0 }
    {
        self.waiting.get(0)
    }

    /// Drops the oldest packet. In an empty outbox nothing changes.
    pub fn drop_front(&mut self)
        // The oldest packet is dropped, and the others stay in order.
        ensures { self.new ≡ without_oldest self.old }
    {
        self.waiting.drop_front();
    }

    /// Takes out a copy of the oldest packet, which [`Outbox::front`] lends.
    pub fn take(&mut self) -> Option<Packet>
        // The oldest packet comes out, where there is one.
        ensures oldest { result ≡ slice_get self.old.packets 0 }
        // The others stay in order.
        ensures rest { self.new ≡ without_oldest self.old }
    {
        let packet = self.front()?.copy();
        self.drop_front();
        Some(packet)
    }
}

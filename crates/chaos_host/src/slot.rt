//! A slot of the table.
ghost use Rattle.std.specs.Prelude.{◌≡◌, ◌<◌};
ghost use Rattle.chaos_host.specs.Slot.{is_free, is_used, index_of, took_from, comes_from, after_ending};

use crate::index::ConnId;
use crate::limits::MAX_CONNS;
use chaos_conn::{Conn, State};
use chaos_packet::Packet;

/// A slot of the table: a connection, which is inactive while the slot is free, and how often the
/// slot was freed.
#[derive(Drop)]
pub struct Slot {
    /// How often the slot was freed, modulo 256.
    pub generation: u8,
    pub conn: Conn,
}

impl Slot {
    /// Whether the slot has no connection.
    pub fn is_free(&self) -> bool
        ensures { result ≡ is_free self.now }
    {
        matches!(self.conn.state(), State::Inactive)
    }

    /// The own index of the connection in this slot, at its place in the table.
    pub fn index_at(&self, place: usize) -> ConnId
        requires { place < MAX_CONNS }
        ensures { result ≡ index_of place self.now }
    {
        ConnId(256 * u16::from(self.generation) + (place as u16 + 1))
    }

    /// Whether the connection took its request from where the packet comes from.
    pub fn took_from(&self, packet: &Packet) -> bool
        ensures { result ≡ took_from packet.now self.now }
    {
        !self.conn.asked()
            && match self.conn.peer() {
                Some((address, Some(index))) => address == packet.src && index == packet.src_index,
                _ => false,
            }
    }

    /// Whether the packet comes from the connection's peer, as far as that is known.
    pub fn comes_from(&self, packet: &Packet) -> bool
        ensures { result ≡ comes_from packet.now self.now }
    {
        match self.conn.peer() {
            Some((address, Some(index))) => address == packet.src && index == packet.src_index,
            Some((address, None)) => address == packet.src,
            None => false,
        }
    }

    /// Moves the generation on, where a call left the slot without a connection. Says whether the
    /// slot is in use still.
    pub fn end_call(&mut self) -> bool
        ensures after { self.new ≡ after_ending self.old }
        ensures used { result ≡ is_used self.new }
    {
        let is_free = self.is_free();
        if is_free {
            self.generation = self.generation.wrapping_add(1);
        }
        !is_free
    }
}

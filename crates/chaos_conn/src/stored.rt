//! What a connection stores.
ghost use Rattle.std.specs.Prelude.{◌≡◌, ◌+◌, ◌*◌, ◌≤◌, length, count_by, is_some, [], ◌∷◌};
ghost use Rattle.std.specs.Option.{option_copied};
ghost use Rattle.std.specs.List.{sum_by};
ghost use Rattle.chaos_window.specs.Receive.{held_count};
ghost use Rattle.chaos_conn.specs.Stored.{item_bytes, slot_bytes, stored_packets, stored_bytes};

use crate::conn::Conn;
use crate::limits::{HEADER_BYTES, MAX_PACKET_BYTES};
use chaos_packet::Item;
use chaos_window::{RecvWindow, SendWindow};

impl Conn {
    /// What the end stores: packets and bytes. The cost is a walk over the items.
    pub fn stored(&self) -> (usize, usize)
        // The first number counts exactly the packets that the end keeps and holds.
        ensures packets { result.0 ≡ stored_packets self.now }
        // The second number counts exactly their bytes, with a header for each.
        ensures bytes { result.1 ≡ stored_bytes self.now }
        // There are at most as many packets as both windows have together.
        ensures packets_fit { result.0 ≤ self.now.config.send_cap + self.now.config.recv_cap }
        // There are at most 504 bytes for each packet.
        ensures bytes_fit { result.1 ≤ MAX_PACKET_BYTES * result.0 }
    {
        (
            self.send.unreceipted() as usize + self.recv.held(),
            kept_bytes(&self.send) + held_bytes(&self.recv),
        )
    }
}

/// The bytes of the kept items.
fn kept_bytes(send: &SendWindow) -> usize
    ensures bytes { result ≡ sum_by item_bytes send.now.kept }
    ensures fits { result ≤ MAX_PACKET_BYTES * length send.now.kept }
{
    let mut bytes = 0;
    for i in 0..send.unreceipted() as usize {
        bytes += HEADER_BYTES + send.kept(i).unwrap().bytes().len();
    }
    bytes
}

/// The bytes of the held items.
fn held_bytes(recv: &RecvWindow) -> usize
    ensures bytes { result ≡ sum_by slot_bytes recv.now.held }
    ensures fits { result ≤ MAX_PACKET_BYTES * held_count recv.now }
{
    let mut bytes = 0;
    for i in 0..recv.cap() {
        bytes += bytes_at(recv.held_at(i + 1));
    }
    bytes
}

/// The bytes of what a slot holds.
fn bytes_at(slot: Option<&Item>) -> usize
    ensures bytes { result ≡ slot_bytes (option_copied slot.entry) }
    ensures fits { result ≤ MAX_PACKET_BYTES * count_by is_some (option_copied slot.entry ∷ []) }
    ensures small { result ≤ MAX_PACKET_BYTES }
{
    match slot {
        None => 0,
        Some(item) => HEADER_BYTES + item.bytes().len(),
    }
}

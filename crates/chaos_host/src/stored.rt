//! What a host stores.
ghost use Rattle.std.specs.Prelude.{◌≡◌, ◌+◌, ◌*◌, ◌≤◌, length, All};
ghost use Rattle.chaos_conn.specs.Stored.{stored_packets, stored_bytes};
ghost use Rattle.chaos_host.specs.Slot.{HasConfig, HoldsRequestAlone, IsBlank};
ghost use Rattle.chaos_host.specs.Stored.{stored_of, packets_in, bytes_in};

use crate::host::Host;
use crate::limits::MAX_CONNS;
use crate::slot::Slot;
use chaos_conn::{ConnConfig, MAX_PACKET_BYTES};

impl Host {
    /// How many packets the connections keep and hold, and their bytes with a header for each. The
    /// cost is a walk over all items.
    pub fn stored(&self) -> (usize, usize)
        // What the host keeps is counted exactly.
        ensures value { result ≡ stored_of self.now }
        // A host of N connections with windows of S and R packets keeps at most N(S+R) packets,
        // whatever packets, calls and moments came.
        ensures packets_fit { result.0
            ≤ length self.now.slots * (self.now.config.send_cap + self.now.config.recv_cap) }
        // There are at most 504 bytes for each packet.
        ensures bytes_fit { result.1 ≤ MAX_PACKET_BYTES * result.0 }
        // A request that waits for its user is the one item that its slot stores: an RFC, held in
        // front, with nothing kept.
        ensures pending { All (λ slot. HoldsRequestAlone slot.conn) self.now.slots }
        // A free slot's connection is as new except for its moments, and stores nothing.
        ensures blank { All (λ slot. IsBlank slot.conn) self.now.slots }
    {
        stored_in(&self.slots, &self.config)
    }
}

/// What slots with connections of this configuration store.
fn stored_in(slots: &[Slot], config: &ConnConfig) -> (usize, usize)
    requires few { length slots.now ≤ MAX_CONNS }
    requires config { All (HasConfig config.now) slots.now }
    ensures packets { result.0 ≡ packets_in slots.now }
    ensures bytes { result.1 ≡ bytes_in slots.now }
    ensures packets_fit { result.0
        ≤ length slots.now * (config.now.send_cap + config.now.recv_cap) }
    ensures bytes_fit { result.1 ≤ MAX_PACKET_BYTES * result.0 }
{
    let each = config.send_cap() + config.recv_cap();
    let mut packets = 0;
    let mut bytes = 0;
    for slot in slots {
        let stored = stored_by(slot, each);
        packets += stored.0;
        bytes += stored.1;
    }
    (packets, bytes)
}

/// What a connection with windows of so many packets together stores.
fn stored_by(slot: &Slot, each: u16) -> (usize, usize)
    requires { slot.now.conn.config.send_cap + slot.now.conn.config.recv_cap ≡ each }
    ensures packets { result.0 ≡ stored_packets slot.now.conn }
    ensures bytes { result.1 ≡ stored_bytes slot.now.conn }
    ensures packets_fit { result.0 ≤ each }
    ensures bytes_fit { result.1 ≤ MAX_PACKET_BYTES * result.0 }
{
    slot.conn.stored()
}

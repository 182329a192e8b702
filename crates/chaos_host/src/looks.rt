//! What a host shows of its connections.
ghost use Rattle.std.specs.Prelude.{◌≡◌, option_map, IfSome, Ok, Some};
ghost use Rattle.std.specs.Option.{option_copied};
ghost use Rattle.std.specs.Result.{result_map_both};
ghost use Rattle.chaos_conn.specs.Calls.{can_write, front_of, is_drained, peer_of};
ghost use Rattle.chaos_host.specs.NextInUse.{IsNextInUse};
ghost use Rattle.chaos_host.specs.View.{IsHost, conn_at, id_at, host_look};

use crate::fault::CallFault;
use crate::host::Host;
use crate::index::ConnId;
use crate::slots::{is_used_at, named};
use chaos_conn::{Conn, State};
use chaos_packet::Item;

impl Host {
    /// The index of the connection in a slot. Slots are numbered from 0.
    pub fn id_of(&self, slot: usize) -> Option<ConnId>
        // The answer is the index of the slot in use there. A free slot has none, nor has a place
        // without a slot.
        ensures { result ≡ id_at self.now slot }
    {
        let used = self.slots.get(slot)?;
        if used.is_free() {
            None
        } else {
            Some(used.index_at(slot))
        }
    }

    /// The connection in a slot, with its index. So a caller that walks over the slots looks into
    /// the table once for each.
    pub fn conn_at(&self, slot: usize) -> Option<(ConnId, &Conn)>
        // The connection in the slot is lent with all its looks. A free slot has none, nor has a
        // place without a slot.
        ensures conn { option_map (λ at. (at.0, at.1.now)) result ≡ conn_at self.now slot }
        // Its index is the answer of `id_of`.
        ensures index { option_map (λ at. at.0) result ≡ id_at self.now slot }
        // The index names the connection.
        ensures named { IfSome result (λ at. host_look self.now at.0 (λ conn. conn) ≡ Ok at.1.now) }
    {
        let used = self.slots.get(slot)?;
        if used.is_free() {
            return None;
        }
        Some((used.index_at(slot), &used.conn))
    }

    /// The first connection in a slot from a place on, with the place and its index. So a walk over
    /// the connections looks at no free slot, and into the table once for each connection.
    pub fn next_conn(&self, from: usize) -> Option<(usize, ConnId, &Conn)>
        // The slot at the place that is answered is in use, and each slot before it, from `from`
        // on, is free. If the answer is `None`, each slot from `from` on is free.
        ensures next { IsNextInUse self.now from (option_map (λ at. at.0) result) }
        // The connection in that slot is lent with all its looks, and with its index: the answer
        // of `conn_at` at the place.
        ensures conn { IfSome result (λ at. conn_at self.now at.0 ≡ Some (at.1, at.2.now)) }
        // Its index is the answer of `id_of`.
        ensures index { IfSome result (λ at. id_at self.now at.0 ≡ Some at.1) }
        // The index names the connection.
        ensures named { IfSome result (λ at. host_look self.now at.1 (λ conn. conn) ≡ Ok at.2.now) }
        // Every host is as `IsHost` says.
        ensures sound { IsHost self.now }
    {
        // A slot in use is found by the look that its user makes anyway. The set leads past others.
        let place = if is_used_at(&self.slots, from) {
            from
        } else if from < self.slots.len() {
            self.in_use.next(from)?
        } else {
            return None;
        };
        let used = &self.slots[place];
        Some((place, used.index_at(place), &used.conn))
    }

    /// Lends a connection by its index. One look into the table serves all looks that a caller
    /// needs.
    ///
    /// All calls here are `NoSuchConnection` if no connection has this index.
    pub fn conn(&self, id: ConnId) -> Result<&Conn, CallFault>
        // The connection with the index is lent with all its looks.
        ensures { result_map_both (λ conn. conn.now) (λ fault. fault) result
            ≡ host_look self.now id (λ conn. conn) }
    {
        Ok(&named(&self.slots, id)?.conn)
    }

    /// What a connection is doing.
    pub fn state(&self, id: ConnId) -> Result<State, CallFault>
        // This is the state of the connection with the index.
        ensures { result ≡ host_look self.now id (λ conn. conn.state) }
    {
        Ok(named(&self.slots, id)?.conn.state())
    }

    /// The other end of a connection.
    pub fn peer(&self, id: ConnId) -> Result<Option<(u16, Option<u16>)>, CallFault>
        // The answer is the peer's address there, and its index where that is known.
        ensures { result ≡ host_look self.now id (λ conn. peer_of conn) }
    {
        Ok(named(&self.slots, id)?.conn.peer())
    }

    /// Whether a write of data is taken.
    pub fn can_write(&self, id: ConnId) -> Result<bool, CallFault>
        // The answer is whether the end there is open and fewer items are outstanding than its
        // window allows.
        ensures { result ≡ host_look self.now id (λ conn. can_write conn) }
    {
        Ok(named(&self.slots, id)?.conn.can_write())
    }

    /// Whether a connection's peer read all that was sent, as far as is known.
    pub fn drained(&self, id: ConnId) -> Result<bool, CallFault>
        // The answer is whether all that was written there was acknowledged.
        ensures { result ≡ host_look self.now id (λ conn. is_drained conn) }
    {
        Ok(named(&self.slots, id)?.conn.drained())
    }

    /// How many items past those that were read a connection takes.
    pub fn announced(&self, id: ConnId) -> Result<u16, CallFault>
        // The connection there announces this window.
        ensures { result ≡ host_look self.now id (λ conn. conn.recv.window) }
    {
        Ok(named(&self.slots, id)?.conn.announced())
    }

    /// Lends a connection's next item without reading it.
    pub fn front(&self, id: ConnId) -> Result<Option<&Item>, CallFault>
        // The item in front there is lent, where one is held.
        ensures { result_map_both (λ front. option_copied front) (λ fault. fault) result
            ≡ host_look self.now id (λ conn. front_of conn) }
    {
        Ok(named(&self.slots, id)?.conn.front())
    }
}

//! What arrives.
ghost use Rattle.std.specs.Prelude.{◌≡◌, ℕ, ◌<◌, [], ◌∷◌, slice_get, Some};
ghost use Rattle.chaos_conn.specs.declared.state.State.{State};
ghost use Rattle.chaos_host.specs.declared.answers.HostDelivered.{HostDelivered};
ghost use Rattle.chaos_host.specs.declared.answers.HostDisposition.{HostDisposition};
ghost use Rattle.chaos_host.specs.Disposition.{host_with_packet};
ghost use Rattle.chaos_host.specs.Slot.{named_state};
ghost use Rattle.chaos_packet.specs.Outbox.{room_of, with_put};
ghost use Rattle.chaos_host.specs.Acted.{HostDoes};
ghost use Rattle.chaos_host.specs.Route.{IsRequest};
ghost use Rattle.chaos_host.specs.Deliver.{host_deliver, take_request_slot, no_server, table_full, los_packet};

use crate::answers::{HostDelivered, HostDisposition};
use crate::host::Host;
use crate::replies::los_packet;
use crate::route::Route;
use crate::slots::index_at;
use chaos_conn::Why;
use chaos_packet::{Outbox, Packet};

impl Host {
    /// Takes a packet that came, and returns what became of it.
    ///
    /// The checks, in this order; the first that applies decides:
    ///
    /// 1. A packet for another address is dropped: `NotOurs`.
    /// 2. A packet whose source has address 0 is dropped: `NoSource`.
    /// 3. An RFC goes to the connection that took its request from this address and index. Without
    ///    one it is `NoServer`, with a CLS, if nobody listens to exactly its contact, and
    ///    `TableFull`, with a CLS, if no slot is free. Otherwise the connection of the lowest free
    ///    slot takes the request: `Requested`.
    /// 4. Another packet goes to the connection that its destination index names, if it comes from
    ///    that connection's peer.
    /// 5. Without such a connection OPN, EOF, data, SNS and STS are answered by a LOS:
    ///    `NoConnection`. All others are dropped: `NoConn`.
    ///
    /// An RFC walks over the table. Any other packet finds its slot by one look, however many
    /// connections there are.
    pub fn deliver(&mut self, packet: &Packet, now: u64, out: &mut Outbox) -> HostDelivered
        requires { 0 < room_of out.old }
        // A packet goes where its route leads, by one function of the view and the packet. The
        // connection that it names changes by `act`, and no other slot does.
        ensures does { HostDoes self.old 1 (host_deliver self.old packet.now now)
            self.new out.old out.new result }
        // If the answer is Requested, the connection with that index holds the request.
        ensures holds { (id : ℕ) → result ≡ HostDelivered.Requested id →
            named_state self.new.slots id ≡ Some State.RfcReceived }
    {
        self.take(packet, now, out).with_packet(packet)
    }

    /// Takes a packet as [`Host::deliver`] does, for a caller that keeps the packet.
    pub fn take(&mut self, packet: &Packet, now: u64, out: &mut Outbox) -> HostDisposition
        requires { 0 < room_of out.old }
        // Together with the packet the answer is the answer of `deliver`. Everything else is the
        // same.
        ensures does { HostDoes self.old 1 (host_deliver self.old packet.now now)
            self.new out.old out.new (host_with_packet result packet.now) }
        // If the answer is Requested, the connection with that index holds the request.
        ensures holds { (id : ℕ) → result ≡ HostDisposition.Requested id →
            named_state self.new.slots id ≡ Some State.RfcReceived }
    {
        match self.route(packet) {
            Route::NotOurs => HostDisposition::Dropped(Why::NotOurs),
            Route::NoSource => HostDisposition::Dropped(Why::NoSource),
            Route::Slot(place) => {
                let id = index_at(&self.slots, place);
                HostDisposition::At(id, self.slots[place].conn.take(packet, now, out))
            }
            Route::NoServer => self.refuse_no_server(packet, out),
            Route::TableFull => self.refuse_table_full(packet, out),
            Route::Request(place) => self.take_request(place, packet, now, out),
            Route::SendLos => self.tell_lost(packet, out),
            Route::DropSilently => HostDisposition::Dropped(Why::NoConn),
        }
    }

    /// Refuses a request for a contact that nobody listens to. Replies are made in functions of
    /// their own, so that the way of a packet to its connection has no room for a reply.
    fn refuse_no_server(&self, packet: &Packet, out: &mut Outbox) -> HostDisposition
        requires { 0 < room_of out.old }
        ensures put { out.new ≡ with_put out.old (no_server self.now packet.now ∷ []) }
        ensures told { result ≡ HostDisposition.NoServer }
    {
        out.put(self.no_server(packet));
        HostDisposition::NoServer
    }

    /// Refuses a request for which no slot is free.
    fn refuse_table_full(&self, packet: &Packet, out: &mut Outbox) -> HostDisposition
        requires { 0 < room_of out.old }
        ensures put { out.new ≡ with_put out.old (table_full self.now packet.now ∷ []) }
        ensures told { result ≡ HostDisposition.TableFull }
    {
        out.put(self.table_full(packet));
        HostDisposition::TableFull
    }

    /// Answers that there is no such connection.
    fn tell_lost(&self, packet: &Packet, out: &mut Outbox) -> HostDisposition
        requires { 0 < room_of out.old }
        ensures put { out.new ≡ with_put out.old (los_packet packet.now ∷ []) }
        ensures told { result ≡ HostDisposition.NoConnection }
    {
        out.put(los_packet(packet));
        HostDisposition::NoConnection
    }

    /// The connection in a free slot takes a request.
    fn take_request(
        &mut self,
        place: usize,
        packet: &Packet,
        now: u64,
        out: &mut Outbox,
    ) -> HostDisposition
        requires { IsRequest self.old packet.now place }
        ensures does { HostDoes self.old 1
            (take_request_slot self.old packet.now now place (slice_get self.old.slots place))
            self.new out.old out.new (host_with_packet result packet.now) }
        ensures holds { (id : ℕ) → result ≡ HostDisposition.Requested id →
            named_state self.new.slots id ≡ Some State.RfcReceived }
    {
        let id = index_at(&self.slots, place);
        let me = id.end_at(self.address);
        let _ = self.slots[place].conn.take_request(packet, me, now);
        self.in_use.set(place, true);
        HostDisposition::Requested(id)
    }
}

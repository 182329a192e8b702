//! Connections asked for.
ghost use Rattle.std.specs.Prelude.{◌≡◌, ◌==◌, ◌<◌, ◌≤◌, false, length, slice_get, IfOk, Ok, Some};
ghost use Rattle.chaos_conn.specs.declared.state.State.{State};
ghost use Rattle.chaos_host.specs.Slot.{named_state, is_used_at};
ghost use Rattle.chaos_packet.specs.Outbox.{room_of};
ghost use Rattle.chaos_host.specs.Acted.{HostDoes};
ghost use Rattle.chaos_host.specs.Connect.{host_connect, connect_slot};

use crate::fault::ConnectFault;
use crate::host::Host;
use crate::index::ConnId;
use crate::slots::{free_place, index_at};
use chaos_packet::{MAX_DATA, Outbox, PktNum};

impl Host {
    /// Asks a peer for a contact, and returns the index of the new connection. It sends an RFC, and
    /// what it writes is numbered from `start` on. The contact is the data of the RFC: a name, and
    /// its arguments after a space.
    ///
    /// Refused, in this order: `TableFull` where no slot is free; `TooLong` for a contact of more
    /// than 488 bytes; `BadAddress` where the peer's address is 0. Nothing changes then.
    ///
    /// The cost is a walk over the table.
    pub fn connect(
        &mut self,
        peer: u16,
        contact: &[u8],
        start: PktNum,
        now: u64,
        out: &mut Outbox,
    ) -> Result<ConnId, ConnectFault>
        requires { 0 < room_of out.old }
        // The connection of the lowest free slot asks the peer. The call is refused for a full
        // table, for a contact that is too long, and for address 0.
        ensures does { HostDoes self.old 1 (host_connect self.old peer contact.now start now)
            self.new out.old out.new result }
        // The connection with the returned index waits for its OPN.
        ensures asks { IfOk result (λ id. named_state self.new.slots id ≡ Some State.RfcSent) }
    {
        let place = free_place(&self.slots).ok_or(ConnectFault::TableFull)?;
        if contact.len() > MAX_DATA {
            return Err(ConnectFault::TooLong);
        }
        if peer == 0 {
            return Err(ConnectFault::BadAddress);
        }
        Ok(self.request(place, peer, contact, start, now, out))
    }

    /// The connection in a free slot makes a request.
    fn request(
        &mut self,
        place: usize,
        peer: u16,
        contact: &[u8],
        start: PktNum,
        now: u64,
        out: &mut Outbox,
    ) -> ConnId
        requires within { place < length self.old.slots }
        requires vacant { is_used_at self.old.slots place ≡ false }
        requires fits { length contact.now ≤ MAX_DATA }
        requires peer { (peer == 0) ≡ false }
        requires room { 0 < room_of out.old }
        ensures does { HostDoes self.old 1
            (connect_slot self.old place peer contact.now start now
            (slice_get self.old.slots place))
            self.new out.old out.new (Ok result) }
        ensures asks { named_state self.new.slots result ≡ Some State.RfcSent }
    {
        let id = index_at(&self.slots, place);
        let me = id.end_at(self.address);
        let _ = self.slots[place]
            .conn
            .request(me, peer, contact, start, now, out);
        self.in_use.set(place, true);
        id
    }
}

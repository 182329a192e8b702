//! A node: a host of Chaosnet, and the datagrams that are to go out.

ghost use Rattle.std.specs.Prelude.{◌≡◌, ◌≤◌, ◌<◌, ◌↔◌, [], length, slice_get, take, true, Err, Ok, IfErr, IfOk, OnErr, OnOk};
ghost use Rattle.chaos_conn.specs.Act.{Accept, Answer, Close, FinishRead, Reject, Write};
ghost use Rattle.chaos_conn.specs.Calls.{can_write, front_of, is_drained};
ghost use Rattle.chaos_conn.specs.Config.{config_with};
ghost use Rattle.chaos_host.specs.Calls.{host_call, host_end, host_release};
ghost use Rattle.chaos_host.specs.Connect.{host_connect};
ghost use Rattle.chaos_host.specs.Deliver.{host_deliver};
ghost use Rattle.chaos_host.specs.Listening.{after_listen, listen_fault};
ghost use Rattle.chaos_host.specs.NextDue.{IsNextDue};
ghost use Rattle.chaos_host.specs.Requested.{host_asked, part_of};
ghost use Rattle.chaos_host.specs.View.{host_look, id_at, new_host};
ghost use Rattle.chaos_link.specs.declared.limits.TheConstants.{MAX_PACKETS};
ghost use Rattle.chaos_packet.specs.Outbox.{room_of, with_put, without_oldest};
ghost use Rattle.chaos_packet.specs.Request.{arguments_in, contact_in};
ghost use Rattle.chaos_ncp.specs.Node.{IsUnused, MakesCall, Takes, after_pass, item_of};

use crate::fault::Fault;
use chaos_conn::{ConnConfig, Disposition, ReadDone, State};
use chaos_host::{ConnId, Host, HostDisposition};
use chaos_link::{MAX_DATAGRAM, MAX_PACKETS, open_datagram, write_datagram};
use chaos_node::pass_indices;
use chaos_packet::{Opcode, Outbox, Packet, PktNum};
use std::alloc::Global;
use std::mem::swap;

/// The packets that an outbox has room for: the greatest send window, and two more.
const OUT_ROOM: usize = 66;

/// The greatest window, in packets.
const MAX_WINDOW: u16 = 64;

/// The peer of the connections that use up indices. Their packets are never sent.
const ANYONE: u16 = 1;

/// A datagram that goes out.
#[derive(Clone, Copy, Debug, PartialEq, Eq)]
pub struct Outgoing {
    /// The Chaosnet address that it goes to.
    pub to: u16,
    /// How many bytes it has, in the front of the caller's buffer.
    pub count: u16,
}

/// What is in front of a connection.
#[derive(Clone, Copy, Debug, PartialEq, Eq)]
pub struct Front {
    pub op: Opcode,
    /// How many bytes it has, in the front of the caller's buffer.
    pub count: u16,
}

/// A host with its outbox.
#[derive(Drop)]
pub struct Node {
    host: Host,
    out: Outbox,
    /// The place into which packets are read.
    packet: Packet,
    /// The connection that a packet ended last, and that packet.
    ended: ConnId,
    ending: Packet,
    /// The slot at which the next tick begins.
    next_slot: usize,
}

/// Whether what became of a packet is that it ended its connection.
fn ends(became: Disposition) -> bool {
    matches!(
        became,
        Disposition::Answered | Disposition::Forwarded | Disposition::Closed | Disposition::Lost
    )
}

/// Copies bytes to the front of a caller's buffer, and says how many there are.
fn copy_to(buffer: &mut [u8], bytes: &[u8]) -> Result<u16, Fault>
    ensures { IfOk result (λ count. take count buffer.new ≡ bytes.now) }
{
    if buffer.len() < bytes.len() {
        return Err(Fault::SmallBuffer);
    }
    let Ok(count) = u16::try_from(bytes.len()) else {
        return Err(Fault::TooLong);
    };
    buffer[..bytes.len()].copy_from_slice(bytes);
    Ok(count)
}

impl Node {
    /// A node at this address with so many connections, each with windows of so many packets. It
    /// takes all memory that it will ever have.
    ///
    /// # Errors
    /// `BadWindow`, `BadAddress`, `BadCount`, `NoMemory`, in this order.
    pub fn new(alloc: Global, address: u16, conns: usize, window: u16) -> Result<Self, Fault>
        // A node is a new host of this address and so many connections, whose windows have so many
        // packets. Nothing waits, and there is room for 66 packets.
        ensures host { IfOk result
            (λ node. node.host ≡ new_host address conns (config_with window)) }
        ensures out { IfOk result (λ node. node.out ≡ record { packets = []; cap = OUT_ROOM }) }
    {
        if window == 0 || window > MAX_WINDOW {
            return Err(Fault::BadWindow);
        }
        let host = Host::new(alloc, address, conns, ConnConfig::with_window(window))?;
        let out = Outbox::new(alloc, OUT_ROOM).map_err(|_| Fault::NoMemory)?;
        Ok(Node {
            host,
            out,
            packet: Packet::default(),
            ended: ConnId(0),
            ending: Packet::default(),
            next_slot: 0,
        })
    }

    /// Listens to a contact.
    pub fn listen(&mut self, contact: &[u8]) -> Result<(), Fault>
        // The host listens to a contact that it doesn't refuse. Nothing else changes.
        ensures { self.new ≡ record self.old {
          host = after_listen (listen_fault self.old.host.listeners contact.now) self.old.host
              contact.now;
        } }
    {
        Ok(self.host.listen(contact)?)
    }

    /// Passes over so many indices of each slot, which an older process may have had.
    ///
    /// # Errors
    /// `InUse` if a connection is in use, or a datagram waits.
    pub fn pass(&mut self, count: u8) -> Result<(), Fault>
        // Each slot used up so many indices. Nothing else changes.
        ensures passed { OnOk result (self.new ≡ after_pass count self.old) }
        // The call is made where no connection is in use and the outbox is empty. Otherwise the
        // call is refused, and nothing changes.
        ensures unused { OnOk result (IsUnused self.old) }
        ensures taken { IsUnused self.old → 0 < room_of self.old.out → result ≡ Ok tt }
        ensures refused { OnErr result (self.new ≡ self.old) }
        ensures fault { IfErr result (λ fault. fault ≡ Fault.InUse) }
    {
        if !self.is_unused() || self.out.room() == 0 {
            return Err(Fault::InUse);
        }
        pass_indices(&mut self.host, ANYONE, count, &mut self.out);
        Ok(())
    }

    /// Whether no connection is in use, and no packet waits.
    #[tactic(auto, using(crate::proofs::Empty::none_first))]
    fn is_unused(&self) -> bool
        // The answer is whether that is so.
        ensures yes { result ≡ true → IsUnused self.now }
        ensures no { IsUnused self.now → result ≡ true }
    {
        matches!(self.host.next_conn(0), None) && matches!(self.out.front(), None)
    }

    /// Takes a datagram that came, of either version.
    ///
    /// # Errors
    /// `OutboxFull`, `BadDatagram`.
    pub fn feed(&mut self, bytes: &[u8], now: u64) -> Result<(), Fault>
        // A refused call leaves everything as it is. A call is refused for the outbox exactly if
        // the outbox hasn't room for what eight packets may put out.
        ensures refused { OnErr result (self.new ≡ self.old) }
        ensures full { (result ≡ Err Fault.OutboxFull) ↔ (room_of self.old.out < MAX_PACKETS) }
    {
        if self.out.room() < MAX_PACKETS {
            return Err(Fault::OutboxFull);
        }
        let mut packets = open_datagram(bytes).map_err(|_| Fault::BadDatagram)?;
        for _place in 0..MAX_PACKETS {
            if !packets.next_into(&mut self.packet) {
                break;
            }
            self.deliver(now);
        }
        Ok(())
    }

    /// Delivers the packet that was read.
    fn deliver(&mut self, now: u64)
        requires { 0 < room_of self.old.out }
        ensures host { self.new.host ≡ (host_deliver self.old.host self.old.packet now).view }
        ensures out { self.new.out
            ≡ with_put self.old.out (host_deliver self.old.host self.old.packet now).packets }
        ensures few { length (host_deliver self.old.host self.old.packet now).packets ≤ 1 }
    {
        if let HostDisposition::At(id, became) = self.host.take(&self.packet, now, &mut self.out) {
            if ends(became) {
                self.ended = id;
                swap(&mut self.ending, &mut self.packet);
            }
        }
    }

    /// Does what is due in each slot.
    ///
    /// # Errors
    /// `OutboxFull` where a slot's window has no room. The next tick goes on from that slot.
    pub fn tick(&mut self, now: u64) -> Result<(), Fault>
        // The only refusal is for the outbox.
        ensures { IfErr result (λ fault. fault ≡ Fault.OutboxFull) }
    {
        for slot in self.next_slot..self.host.conns() {
            if self.out.room() < usize::from(self.host.config().send_cap()) {
                self.next_slot = slot;
                return Err(Fault::OutboxFull);
            }
            let _ticked = self.host.tick(slot, now, &mut self.out);
        }
        self.next_slot = 0;
        Ok(())
    }

    /// The next moment at which a tick does something, in milliseconds, if there is one.
    pub fn next_due(&self) -> Option<u64>
        // Before this moment no tick finds anything due, and from this moment on a tick does.
        ensures { IsNextDue self.now.host result }
    {
        self.host.next_due()
    }

    /// Writes the next datagram to the front of the caller's buffer, if one waits.
    ///
    /// # Errors
    /// `SmallBuffer` for fewer than 508 bytes: the datagram stays.
    pub fn take(&mut self, buffer: &mut [u8]) -> Result<Option<Outgoing>, Fault>
        // What is taken is the oldest packet that waits, as its canonical datagram, with the
        // address of its destination. It waits no longer, and nothing else changes.
        ensures taken { IfOk result (Takes (slice_get self.old.out.packets 0) buffer.new) }
        ensures rest { OnOk result
            (self.new ≡ record self.old { out = without_oldest self.old.out }) }
        // A refused call leaves everything as it is.
        ensures refused { OnErr result (self.new ≡ self.old) }
    {
        let Some(packet) = self.out.front() else {
            return Ok(None);
        };
        if buffer.len() < MAX_DATAGRAM {
            return Err(Fault::SmallBuffer);
        }
        let outgoing = Outgoing {
            to: packet.dst,
            count: write_datagram(packet, buffer) as u16,
        };
        self.out.drop_front();
        Ok(Some(outgoing))
    }
}

/// The calls on connections.
impl Node {
    /// Asks a peer for a contact, and gives the new connection.
    pub fn connect(
        &mut self,
        peer: u16,
        contact: &[u8],
        first: PktNum,
        now: u64,
    ) -> Result<ConnId, Fault>
        // With room for a packet the host makes this call, and the packets that it puts out wait.
        // Otherwise the call is refused, and nothing changes.
        ensures { MakesCall self.old self.new (host_connect self.old.host peer contact.now first now) result }
    {
        self.check_room()?;
        Ok(self.host.connect(peer, contact, first, now, &mut self.out)?)
    }

    /// The connection in a slot, if the slot is in use.
    pub fn id_of(&self, slot: usize) -> Option<ConnId>
        // The answer is the host's for this slot.
        ensures { result ≡ id_at self.now.host slot }
    {
        self.host.id_of(slot)
    }

    /// The state of a connection.
    pub fn state(&self, id: ConnId) -> Result<State, Fault>
        // The answer is the state of the connection with this index.
        ensures { IfOk result
            (λ state. host_look self.now.host id (λ conn. conn.state) ≡ Ok state) }
    {
        Ok(self.host.state(id)?)
    }

    /// The Chaosnet address of a connection's peer.
    pub fn peer(&self, id: ConnId) -> Result<u16, Fault> {
        match self.host.peer(id)? {
            Some((address, _)) => Ok(address),
            None => Err(Fault::NoConnection),
        }
    }

    /// Copies the contact of a request that waits.
    pub fn contact(&self, id: ConnId, buffer: &mut [u8]) -> Result<u16, Fault>
        // What is copied is the contact of the request that waits there.
        ensures { IfOk result
            (λ count. part_of contact_in (host_asked self.now.host id) ≡ Ok (take count buffer.new)) }
    {
        copy_to(buffer, self.host.contact(id)?)
    }

    /// Copies the arguments of a request that waits.
    pub fn arguments(&self, id: ConnId, buffer: &mut [u8]) -> Result<u16, Fault>
        // What is copied are the arguments of the request that waits there.
        ensures { IfOk result
            (λ count. part_of arguments_in (host_asked self.now.host id)
            ≡ Ok (take count buffer.new)) }
    {
        copy_to(buffer, self.host.arguments(id)?)
    }

    /// Accepts a request.
    pub fn accept(&mut self, id: ConnId, first: PktNum, now: u64) -> Result<(), Fault>
        // With room for a packet the host makes this call, and the packets that it puts out wait.
        // Otherwise the call is refused, and nothing changes.
        ensures { MakesCall self.old self.new (host_call self.old.host id (Accept first now)) result }
    {
        self.check_room()?;
        Ok(self.host.accept(id, first, now, &mut self.out)?)
    }

    /// Answers a request by one ANS, which frees the slot.
    pub fn answer(&mut self, id: ConnId, bytes: &[u8]) -> Result<(), Fault>
        // With room for a packet the host makes this call, and the packets that it puts out wait.
        // Otherwise the call is refused, and nothing changes.
        ensures { MakesCall self.old self.new (host_end self.old.host id (Answer bytes.now)) result }
    {
        self.check_room()?;
        Ok(self.host.answer(id, bytes, &mut self.out)?)
    }

    /// Refuses a request by a CLS, which frees the slot.
    pub fn reject(&mut self, id: ConnId, text: &[u8]) -> Result<(), Fault>
        // With room for a packet the host makes this call, and the packets that it puts out wait.
        // Otherwise the call is refused, and nothing changes.
        ensures { MakesCall self.old self.new (host_end self.old.host id (Reject text.now)) result }
    {
        self.check_room()?;
        Ok(self.host.reject(id, text, &mut self.out)?)
    }

    /// Whether a write of data is taken.
    pub fn can_write(&self, id: ConnId) -> Result<bool, Fault>
        // If the answer is yes, the connection takes a write, and there is room for a packet.
        ensures { IfOk result (λ can. can ≡ true →
            (host_look self.now.host id (λ conn. can_write conn) ≡ Ok true)
            × (0 < room_of self.now.out)) }
    {
        Ok(self.host.can_write(id)? && self.out.room() > 0)
    }

    /// Whether the peer acknowledged all that was written.
    pub fn is_drained(&self, id: ConnId) -> Result<bool, Fault>
        // The answer is that of the connection with this index.
        ensures { IfOk result
            (λ drained. host_look self.now.host id (λ conn. is_drained conn) ≡ Ok drained) }
    {
        Ok(self.host.drained(id)?)
    }

    /// Writes data or an EOF.
    pub fn write(&mut self, id: ConnId, op: Opcode, bytes: &[u8], now: u64) -> Result<(), Fault>
        // With room for a packet the host makes this call, and the packets that it puts out wait.
        // Otherwise the call is refused, and nothing changes.
        ensures { MakesCall self.old self.new (host_call self.old.host id (Write op bytes.now now)) result }
    {
        self.check_room()?;
        self.host.write(id, op, bytes, now, &mut self.out)?;
        Ok(())
    }

    /// Copies what is in front of a connection, if anything is. It stays there.
    pub fn front(&self, id: ConnId, buffer: &mut [u8]) -> Result<Option<Front>, Fault>
        // What is copied is the item in front there, with its opcode, if any is in front.
        ensures { IfOk result (λ front. host_look self.now.host id (λ conn. front_of conn)
            ≡ Ok (item_of buffer.new front)) }
    {
        let Some(item) = self.host.front(id)? else {
            return Ok(None);
        };
        let count = copy_to(buffer, item.bytes())?;
        Ok(Some(Front { op: item.op, count }))
    }

    /// Passes over what is in front of a connection, and says whether anything was there.
    pub fn read_done(&mut self, id: ConnId) -> Result<bool, Fault>
        // With room for a packet the host makes this call, and the packets that it puts out wait.
        // Otherwise the call is refused, and nothing changes.
        ensures { MakesCall self.old self.new (host_call self.old.host id FinishRead) result }
    {
        self.check_room()?;
        let done = self.host.read_done(id, &mut self.out)?;
        Ok(matches!(done, ReadDone::Done))
    }

    /// Copies what the packet said by which a connection ended, while no other has ended so since.
    pub fn ending(&self, id: ConnId, buffer: &mut [u8]) -> Result<Option<Front>, Fault> {
        if !self.host.state(id)?.is_ended() || self.ended != id {
            return Ok(None);
        }
        let count = copy_to(buffer, self.ending.bytes())?;
        let op = self.ending.op;
        Ok(Some(Front { op, count }))
    }

    /// Gives a connection up, which frees its slot.
    pub fn close(&mut self, id: ConnId, text: &[u8]) -> Result<(), Fault>
        // With room for a packet the host makes this call, and the packets that it puts out wait.
        // Otherwise the call is refused, and nothing changes.
        ensures { MakesCall self.old self.new (host_end self.old.host id (Close text.now)) result }
    {
        self.check_room()?;
        Ok(self.host.close(id, text, &mut self.out)?)
    }

    /// Frees the slot of a connection that has ended.
    pub fn release(&mut self, id: ConnId) -> Result<(), Fault>
        // With room for a packet the host makes this call, and the packets that it puts out wait.
        // Otherwise the call is refused, and nothing changes.
        ensures { MakesCall self.old self.new (host_release self.old.host id) result }
    {
        self.check_room()?;
        Ok(self.host.release(id, &mut self.out)?)
    }

    /// Refuses a call that may put out a packet where no more fits.
    fn check_room(&self) -> Result<(), Fault>
        ensures room { OnOk result (0 < room_of self.now.out) }
        ensures full { OnErr result (room_of self.now.out ≡ 0) }
        ensures fault { IfErr result (λ fault. fault ≡ Fault.OutboxFull) }
    {
        if self.out.room() == 0 {
            return Err(Fault::OutboxFull);
        }
        Ok(())
    }
}

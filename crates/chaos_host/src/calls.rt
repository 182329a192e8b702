//! The user's calls on one connection, which its own index names.
ghost use Rattle.std.specs.Prelude.{◌<◌};
ghost use Rattle.chaos_packet.specs.Outbox.{room_of};
ghost use Rattle.chaos_conn.specs.Act.{Accept, Answer, Reject, Write, Unc, Read, FinishRead, Announce, Close, Did, Wrote, Gave, Finished};
ghost use Rattle.chaos_host.specs.Acted.{HostDoes};
ghost use Rattle.chaos_host.specs.Calls.{host_call, host_end, reply_of, plain_reply_of};

use crate::fault::CallFault;
use crate::host::Host;
use crate::index::ConnId;
use crate::slots::named_mut;
use chaos_conn::{ReadDone, ReadEnd};
use chaos_packet::{Opcode, Outbox, PktNum};

impl Host {
    /// Accepts the request that a connection holds. It sends an OPN, and what it writes is numbered
    /// from `start` on.
    ///
    /// All calls here are `NoSuchConnection`, and change nothing, if no connection has this index.
    /// What the connection refuses is `Refused`.
    pub fn accept(
        &mut self,
        id: ConnId,
        start: PktNum,
        now: u64,
        out: &mut Outbox,
    ) -> Result<(), CallFault>
        requires { 0 < room_of out.old }
        // The answer is NoSuchConnection exactly if no slot in use has the index. Otherwise that
        // connection accepts, and no other changes.
        ensures { HostDoes self.old 1 (host_call self.old id (Accept start now))
            self.new out.old out.new (reply_of Did result) }
    {
        let slot = named_mut(&mut self.slots, id)?;
        let done = slot.conn.accept(start, now, out);
        done.map_err(CallFault::Refused)
    }

    /// Writes data, or an EOF, and returns its number.
    pub fn write(
        &mut self,
        id: ConnId,
        op: Opcode,
        bytes: &[u8],
        now: u64,
        out: &mut Outbox,
    ) -> Result<PktNum, CallFault>
        requires { 0 < room_of out.old }
        // A write through an index does what `Conn::write` does there, and changes no other slot.
        // If no slot in use has the index, the answer is NoSuchConnection.
        ensures { HostDoes self.old 1 (host_call self.old id (Write op bytes.now now))
            self.new out.old out.new (reply_of Wrote result) }
    {
        let slot = named_mut(&mut self.slots, id)?;
        let done = slot.conn.write(op, bytes, now, out);
        done.map_err(CallFault::Refused)
    }

    /// Sends uncontrolled data, which may be lost and is kept nowhere.
    pub fn unc(&mut self, id: ConnId, bytes: &[u8], out: &mut Outbox) -> Result<(), CallFault>
        requires { 0 < room_of out.old }
        // Uncontrolled data through an index is sent as `Conn::unc` sends it there, and no slot
        // changes. If no slot in use has the index, the answer is NoSuchConnection.
        ensures { HostDoes self.old 1 (host_call self.old id (Unc bytes.now))
            self.new out.old out.new (reply_of Did result) }
    {
        let slot = named_mut(&mut self.slots, id)?;
        slot.conn.unc(bytes, out).map_err(CallFault::Refused)
    }

    /// Announces another window, which an STS carries to the peer. [`chaos_conn::Conn::announce`]
    /// says when to announce again.
    pub fn announce(&mut self, id: ConnId, window: u16, out: &mut Outbox) -> Result<(), CallFault>
        requires { 0 < room_of out.old }
        // An announcement through an index does what `Conn::announce` does there, and changes no
        // other slot. If no slot in use has the index, the answer is NoSuchConnection.
        ensures { HostDoes self.old 1 (host_call self.old id (Announce window))
            self.new out.old out.new (reply_of Did result) }
    {
        let slot = named_mut(&mut self.slots, id)?;
        slot.conn.announce(window, out).map_err(CallFault::Refused)
    }

    /// Reads the next item, where it is held, and hands it out.
    pub fn read(&mut self, id: ConnId, out: &mut Outbox) -> Result<ReadEnd, CallFault>
        requires { 0 < room_of out.old }
        // A read through an index does what `Conn::read` does there, and changes no other slot. If
        // no slot in use has the index, the answer is NoSuchConnection.
        ensures { HostDoes self.old 1 (host_call self.old id Read)
            self.new out.old out.new (plain_reply_of Gave result) }
    {
        let slot = named_mut(&mut self.slots, id)?;
        Ok(slot.conn.read(out))
    }

    /// Reads the next item, where it is held, and drops it where it lies. [`Host::front`] lends the
    /// item beforehand.
    pub fn read_done(&mut self, id: ConnId, out: &mut Outbox) -> Result<ReadDone, CallFault>
        requires { 0 < room_of out.old }
        // A read that hands nothing out does what `Conn::read_done` does there, and changes no
        // other slot. If no slot in use has the index, the answer is NoSuchConnection.
        ensures { HostDoes self.old 1 (host_call self.old id FinishRead)
            self.new out.old out.new (plain_reply_of Finished result) }
    {
        let slot = named_mut(&mut self.slots, id)?;
        Ok(slot.conn.read_done(out))
    }

    /// Answers the request that a connection holds by one ANS: a simple transaction.
    pub fn answer(&mut self, id: ConnId, bytes: &[u8], out: &mut Outbox) -> Result<(), CallFault>
        requires { 0 < room_of out.old }
        // An answer through an index does what `Conn::answer` does there, and changes no other
        // slot. If it is taken, it frees the slot, whose generation moves on by one modulo 256. If
        // no slot in use has the index, the answer is NoSuchConnection.
        ensures { HostDoes self.old 1 (host_end self.old id (Answer bytes.now))
            self.new out.old out.new (reply_of Did result) }
    {
        let slot = named_mut(&mut self.slots, id)?;
        let done = slot.conn.answer(bytes, out);
        self.in_use.set(id.place(), slot.end_call());
        done.map_err(CallFault::Refused)
    }

    /// Refuses the request that a connection holds by a CLS with a text.
    pub fn reject(&mut self, id: ConnId, text: &[u8], out: &mut Outbox) -> Result<(), CallFault>
        requires { 0 < room_of out.old }
        // A rejection through an index does what `Conn::reject` does there, and changes no other
        // slot. If it is taken, it frees the slot. If no slot in use has the index, the answer is
        // NoSuchConnection.
        ensures { HostDoes self.old 1 (host_end self.old id (Reject text.now))
            self.new out.old out.new (reply_of Did result) }
    {
        let slot = named_mut(&mut self.slots, id)?;
        let done = slot.conn.reject(text, out);
        self.in_use.set(id.place(), slot.end_call());
        done.map_err(CallFault::Refused)
    }

    /// Gives a connection up, in any state. An open connection, and a connection that holds a
    /// request, sends a CLS with the text.
    pub fn close(&mut self, id: ConnId, text: &[u8], out: &mut Outbox) -> Result<(), CallFault>
        requires { 0 < room_of out.old }
        // A close through an index does what `Conn::close` does there, and changes no other slot.
        // If it is taken, it frees the slot. If no slot in use has the index, the answer is
        // NoSuchConnection.
        ensures { HostDoes self.old 1 (host_end self.old id (Close text.now))
            self.new out.old out.new (reply_of Did result) }
    {
        let slot = named_mut(&mut self.slots, id)?;
        let done = slot.conn.close(text, out);
        self.in_use.set(id.place(), slot.end_call());
        done.map_err(CallFault::Refused)
    }
}

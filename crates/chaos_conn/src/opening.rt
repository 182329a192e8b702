//! The calls that open a connection, or refuse one.
ghost use Rattle.std.specs.Prelude.{◌≡◌, ◌<◌, ◌≤◌, true, length};
ghost use Rattle.chaos_packet.specs.Outbox.{room_of};
ghost use Rattle.chaos_window.specs.Send.{outstanding_of};
ghost use Rattle.chaos_conn.specs.State.{is_inactive};
ghost use Rattle.chaos_conn.specs.View.{moment};
ghost use Rattle.chaos_conn.specs.Acted.{Acts, ActsQuietly};
ghost use Rattle.chaos_conn.specs.Opening.{request_between, after_asking, take_rfc, after_taking_rfc, after_accepting, with_opn, turn_away, closed_conn};
ghost use Rattle.chaos_conn.specs.Act.{Request, TakeRequest, Accept, Answer, Reject, Did, Does, DoesQuietly};

use crate::conn::Conn;
use crate::fault::ConnFault;
use crate::state::{End, State};
use chaos_packet::{MAX_DATA, Opcode, Outbox, Packet, PktNum};

impl Conn {
    /// Asks a peer for a contact, as the own end `me`. What it writes is numbered from `start` on.
    /// The contact is the data of the RFC: a name, and its arguments after a space.
    ///
    /// Refused, in this order: `TooLong` for a contact of more than 488 bytes; `Busy` where the end
    /// isn't inactive; `BadAddress` where either address is 0. Nothing changes then.
    pub fn request(
        &mut self,
        me: End,
        peer: u16,
        contact: &[u8],
        start: PktNum,
        now: u64,
        out: &mut Outbox,
    ) -> Result<(), ConnFault>
        requires { 0 < room_of out.old }
        // The RFC goes out as item 0, or the answer is the refusal of the least number.
        ensures does { Does self.old (Request me peer contact.now start now)
            self.new out.old out.new (Did result) }
        // Every packet number is below 65,536.
        ensures number { start < 65536 }
    {
        if contact.len() > MAX_DATA {
            return Err(ConnFault::TooLong);
        }
        if !self.state.is_inactive() {
            return Err(ConnFault::Busy);
        }
        self.request_between(me, peer, contact, start, now, out)
    }

    /// Asks between two addresses other than 0.
    fn request_between(
        &mut self,
        me: End,
        peer: u16,
        contact: &[u8],
        start: PktNum,
        now: u64,
        out: &mut Outbox,
    ) -> Result<(), ConnFault>
        requires room { 0 < room_of out.old }
        requires fits { length contact.now ≤ MAX_DATA }
        ensures { Acts self.old
            (request_between self.old me peer contact.now start (moment self.old now))
            self.new out.old out.new result }
    {
        if me.address == 0 || peer == 0 {
            return Err(ConnFault::BadAddress);
        }
        self.ask(me, peer, start, now);
        self.send_item(Opcode::RFC, contact, out);
        Ok(())
    }

    /// Makes this the end that asks.
    fn ask(&mut self, me: End, peer: u16, start: PktNum, now: u64)
        ensures room { outstanding_of self.new.send < self.new.send.window }
        ensures view { self.new ≡ after_asking self.old me peer start (moment self.old now) }
    {
        self.hear(now);
        self.state = State::RfcSent;
        self.me = me;
        self.peer = peer;
        self.peer_index = None;
        self.asked = true;
        self.request = start;
        self.send.clear();
        self.send.start(start);
    }

    /// Takes a request that came, as the own end `me`. The end holds it until the user accepts it
    /// or turns it away.
    ///
    /// Refused, in this order: `Busy` where the end isn't inactive; `BadAddress` where either
    /// address is 0; `BadRequest` where the packet isn't an RFC. Nothing changes then.
    pub fn take_request(&mut self, rfc: &Packet, me: End, now: u64) -> Result<(), ConnFault>
        // A request is taken and held, or refused. Nothing is sent.
        ensures { DoesQuietly self.old (TakeRequest rfc.now me now) self.new (Did result) }
    {
        if !self.state.is_inactive() {
            return Err(ConnFault::Busy);
        }
        if me.address == 0 || rfc.src == 0 {
            return Err(ConnFault::BadAddress);
        }
        self.take_rfc(rfc, me, now)
    }

    /// Takes a request between two addresses other than 0.
    fn take_rfc(&mut self, rfc: &Packet, me: End, now: u64) -> Result<(), ConnFault>
        ensures { ActsQuietly self.old (take_rfc self.old rfc.now me (moment self.old now))
            self.new result }
    {
        if !rfc.op.kind().is_rfc() {
            return Err(ConnFault::BadRequest);
        }
        self.hold(rfc, me, now);
        Ok(())
    }

    /// Makes this the end that was asked.
    fn hold(&mut self, rfc: &Packet, me: End, now: u64)
        ensures { self.new ≡ after_taking_rfc self.old rfc.now me (moment self.old now) }
    {
        self.hear(now);
        self.state = State::RfcReceived;
        self.me = me;
        self.peer = rfc.src;
        self.peer_index = Some(rfc.src_index);
        self.asked = false;
        self.request = rfc.num;
        self.recv.clear();
        self.recv.start(PktNum(rfc.num.0.wrapping_sub(1)));
        let _ = self.recv.arrive_lent(rfc.num, rfc.op, rfc.bytes());
    }

    /// Accepts the request that the end holds. What it writes is numbered from `start` on.
    ///
    /// Refused with `WrongState` where it holds none. Nothing changes then.
    pub fn accept(&mut self, start: PktNum, now: u64, out: &mut Outbox) -> Result<(), ConnFault>
        requires { 0 < room_of out.old }
        // The request is read, and the OPN goes out as item 0.
        ensures { Does self.old (Accept start now) self.new out.old out.new (Did result) }
    {
        if !self.state.is_requested() {
            return Err(ConnFault::WrongState);
        }
        self.open_at(start, now);
        self.put_opn(out);
        Ok(())
    }

    /// Reads the request, and opens.
    fn open_at(&mut self, start: PktNum, now: u64)
        ensures room { outstanding_of self.new.send < self.new.send.window }
        ensures view { self.new ≡ after_accepting self.old start (moment self.old now) }
    {
        self.hear(now);
        self.state = State::Open;
        self.probed = self.last;
        self.untold = 0;
        let _ = self.recv.advance();
        self.send.clear();
        self.send.start(start);
    }

    /// Sends the OPN, with the status of this moment.
    fn put_opn(&mut self, out: &mut Outbox)
        requires room { 0 < room_of out.old }
        requires window { outstanding_of self.old.send < self.old.send.window }
        ensures { Acts self.old (with_opn self.old) self.new out.old out.new (Ok tt) }
    {
        let body = self.status_body();
        self.send_item(Opcode::OPN, &body, out);
    }

    /// Answers the request that the end holds, and is inactive then.
    ///
    /// Refused, in this order: `TooLong` for more than 488 bytes; `WrongState` where it holds no
    /// request. Nothing changes then.
    pub fn answer(&mut self, bytes: &[u8], out: &mut Outbox) -> Result<(), ConnFault>
        requires { 0 < room_of out.old }
        // A simple transaction is answered by one ANS.
        ensures { Does self.old (Answer bytes.now) self.new out.old out.new (Did result) }
    {
        self.turn_away(Opcode::ANS, bytes, out)
    }

    /// Refuses the request that the end holds, and is inactive then.
    ///
    /// Refused itself, in this order: `TooLong` for more than 488 bytes; `WrongState` where it
    /// holds no request. Nothing changes then.
    pub fn reject(&mut self, text: &[u8], out: &mut Outbox) -> Result<(), ConnFault>
        requires { 0 < room_of out.old }
        // A request is rejected by a CLS with its text.
        ensures { Does self.old (Reject text.now) self.new out.old out.new (Did result) }
    {
        self.turn_away(Opcode::CLS, text, out)
    }

    /// Turns the request that it holds away by one packet.
    fn turn_away(&mut self, op: Opcode, bytes: &[u8], out: &mut Outbox) -> Result<(), ConnFault>
        requires { 0 < room_of out.old }
        ensures { Acts self.old (turn_away self.old op bytes.now) self.new out.old out.new result }
    {
        if bytes.len() > MAX_DATA {
            return Err(ConnFault::TooLong);
        }
        if !self.state.is_requested() {
            return Err(ConnFault::WrongState);
        }
        self.put_untelling(op, bytes, out);
        self.reset();
        Ok(())
    }

    /// Makes the connection as new, but for its moments.
    pub(crate) fn reset(&mut self)
        ensures { self.new ≡ closed_conn self.old }
    {
        self.state = State::Inactive;
        self.me = End {
            address: 0,
            index: 0,
        };
        self.peer = 0;
        self.peer_index = None;
        self.asked = false;
        self.request = PktNum(0);
        self.untold = 0;
        self.send.clear();
        self.recv.clear();
    }
}

//! What arrives: the delivery table, a function a row.
ghost use Rattle.std.specs.Prelude.{◌≡◌, ◌<◌, ◌≤◌, length};
ghost use Rattle.chaos_packet.specs.Opcode.{kind_of};
ghost use Rattle.chaos_packet.specs.Outbox.{room_of};
ghost use Rattle.chaos_conn.specs.View.{heard_at};
ghost use Rattle.chaos_conn.specs.Acted.{Acts, ActsQuietly};
ghost use Rattle.chaos_conn.specs.Arriving.{with_ack, with_status, heard_with_ack, heard_with_status, is_between_hosts, is_between_indices, is_index, may_be_index, after_rfc, after_opn, after_opening, after_ans, after_fwd, after_end, after_cls, after_los, after_item_came, after_data, after_eof, after_second_opn, after_sns, after_sts, after_unc, deliver_in, deliver_asking, deliver_requested, deliver_open};
ghost use Rattle.chaos_conn.specs.Act.{Deliver, Came, Does};
ghost use Rattle.chaos_conn.specs.Disposition.{with_packet};

use crate::answers::{Delivered, Disposition, Why};
use crate::conn::Conn;
use crate::state::State;
use chaos_packet::{Kind, MAX_DATA, Outbox, Packet, PktNum};
use chaos_window::Arrived;

impl Conn {
    /// Takes a packet that came, and returns what became of it. Its acknowledgement and its status
    /// count, and an STS goes out where the delivery table says so.
    ///
    /// The checks have this order. A packet that fails a check is `Dropped`:
    ///
    /// 1. `NotOpen`: the end isn't live.
    /// 2. `Stranger`: an address isn't the address of its end.
    /// 3. An RFC has checks of its own.
    /// 4. `Stranger`: an index isn't the index of its end.
    /// 5. The row of the state and the opcode.
    ///
    /// The data are copied once, into the window or into the answer. They aren't copied if the
    /// packet is dropped or its item isn't taken.
    pub fn deliver(&mut self, packet: &Packet, now: u64, out: &mut Outbox) -> Delivered
        requires { 0 < room_of out.old }
        // A packet that arrives has the effect of its row of the delivery table. A packet that is
        // dropped changes nothing.
        ensures { Does self.old (Deliver packet.now now) self.new out.old out.new (Came result) }
    {
        self.take(packet, now, out).with_packet(packet)
    }

    /// Takes a packet as [`Conn::deliver`] does, for a caller that keeps the packet.
    pub fn take(&mut self, packet: &Packet, now: u64, out: &mut Outbox) -> Disposition
        requires { 0 < room_of out.old }
        // Together with the packet the answer is the answer of `deliver`. Everything else is the
        // same.
        ensures { Does self.old (Deliver packet.now now)
            self.new out.old out.new (Came (with_packet result packet.now)) }
    {
        if !self.state.is_live() {
            return Disposition::Dropped(Why::NotOpen);
        }
        if !self.is_between_hosts(packet) {
            return Disposition::Dropped(Why::Stranger);
        }
        if packet.op.kind().is_rfc() {
            return self.take_rfc_again(packet, now, out);
        }
        if !self.is_between_indices(packet) {
            return Disposition::Dropped(Why::Stranger);
        }
        self.deliver_in_state(packet, now, out)
    }

    /// Whether the packet comes from the peer's address and goes to the own address.
    fn is_between_hosts(&self, packet: &Packet) -> bool
        ensures { result ≡ is_between_hosts self.now packet.now }
    {
        packet.dst == self.me.address && packet.src == self.peer
    }

    /// Whether the packet goes to the own index, and comes from the peer's index where that is
    /// known.
    fn is_between_indices(&self, packet: &Packet) -> bool
        ensures { result ≡ is_between_indices self.now packet.now }
    {
        packet.dst_index == self.me.index
            && match self.peer_index {
                Some(known) => known == packet.src_index,
                None => true,
            }
    }

    /// Whether the peer's index is known, and is this one.
    fn is_peer_index(&self, index: u16) -> bool
        ensures { result ≡ is_index self.now.peer_index index }
    {
        match self.peer_index {
            Some(known) => known == index,
            None => false,
        }
    }

    /// The delivery table, by the state.
    fn deliver_in_state(&mut self, packet: &Packet, now: u64, out: &mut Outbox) -> Disposition
        requires { 0 < room_of out.old }
        ensures { Acts self.old (deliver_in self.old.state self.old packet.now now)
            self.new out.old out.new (with_packet result packet.now) }
    {
        match self.state {
            State::RfcSent => self.deliver_asking(packet, now, out),
            State::RfcReceived => self.deliver_requested(packet, now),
            State::Open => self.deliver_open(packet, now, out),
            _ => Disposition::Dropped(Why::NotOpen),
        }
    }

    /// The rows of the table in RfcSent.
    fn deliver_asking(&mut self, packet: &Packet, now: u64, out: &mut Outbox) -> Disposition
        requires { 0 < room_of out.old }
        ensures { Acts self.old (deliver_asking self.old packet.now now (kind_of packet.now.op))
            self.new out.old out.new (with_packet result packet.now) }
    {
        match packet.op.kind() {
            Kind::Opn => self.take_opn(packet, now, out),
            Kind::Ans => self.take_ans(packet, now),
            Kind::Fwd => self.take_fwd(packet, now),
            Kind::Cls => self.take_cls(packet, now),
            Kind::Los => self.take_los(packet, now),
            _ => Disposition::Dropped(Why::NotOpen),
        }
    }

    /// The rows of the table in RfcReceived.
    fn deliver_requested(&mut self, packet: &Packet, now: u64) -> Disposition
        ensures { ActsQuietly self.old
            (deliver_requested self.old packet.now now (kind_of packet.now.op))
            self.new (with_packet result packet.now) }
    {
        match packet.op.kind() {
            Kind::Cls => self.take_cls(packet, now),
            Kind::Los => self.take_los(packet, now),
            _ => Disposition::Dropped(Why::NotOpen),
        }
    }

    /// The rows of the table in Open.
    fn deliver_open(&mut self, packet: &Packet, now: u64, out: &mut Outbox) -> Disposition
        requires { 0 < room_of out.old }
        ensures { Acts self.old (deliver_open self.old packet.now now (kind_of packet.now.op))
            self.new out.old out.new (with_packet result packet.now) }
    {
        match packet.op.kind() {
            Kind::Data => self.take_data(packet, now, out),
            Kind::Eof => self.take_eof(packet, now, out),
            Kind::Opn => self.take_second_opn(packet, now, out),
            Kind::Sns => self.take_sns(packet, now, out),
            Kind::Sts => self.take_sts(packet, now),
            Kind::Unc => self.take_unc(packet, now),
            Kind::Cls => self.take_cls(packet, now),
            Kind::Los => self.take_los(packet, now),
            _ => Disposition::Dropped(Why::BadOp),
        }
    }

    /// The RFC that the end took comes again.
    fn take_rfc_again(&mut self, packet: &Packet, now: u64, out: &mut Outbox) -> Disposition
        requires { 0 < room_of out.old }
        ensures { Acts self.old (after_rfc self.old packet.now now)
            self.new out.old out.new (with_packet result packet.now) }
    {
        if self.asked {
            return Disposition::Dropped(Why::BadOp);
        }
        if !self.is_peer_index(packet.src_index) {
            return Disposition::Dropped(Why::Stranger);
        }
        if packet.num != self.request {
            return Disposition::Dropped(Why::OtherNumber);
        }
        self.hear(now);
        if self.state == State::Open {
            self.put_sts(out);
        }
        Disposition::Duplicate
    }

    /// An OPN opens the end that asked.
    fn take_opn(&mut self, packet: &Packet, now: u64, out: &mut Outbox) -> Disposition
        requires { 0 < room_of out.old }
        ensures { Acts self.old (after_opn self.old packet.now now)
            self.new out.old out.new (with_packet result packet.now) }
    {
        let Some(told) = packet.status() else {
            return Disposition::Dropped(Why::BadStatus);
        };
        self.hear_status(packet, now, told);
        self.open_by(packet);
        self.put_sts(out);
        Disposition::Opened
    }

    /// Opens by an OPN: its number is read as item 0.
    fn open_by(&mut self, opn: &Packet)
        ensures { self.new ≡ after_opening self.old opn.now }
    {
        self.state = State::Open;
        self.peer_index = Some(opn.src_index);
        self.probed = self.last;
        self.recv.clear();
        self.recv.start(opn.num);
    }

    /// An ANS answers the request, and ends it.
    fn take_ans(&mut self, packet: &Packet, now: u64) -> Disposition
        ensures { ActsQuietly self.old (after_ans self.old packet.now now)
            self.new (with_packet result packet.now) }
    {
        self.hear(now);
        self.state = State::Answered;
        Disposition::Answered
    }

    /// A FWD names where to ask instead, and ends the request.
    fn take_fwd(&mut self, packet: &Packet, now: u64) -> Disposition
        ensures { ActsQuietly self.old (after_fwd self.old packet.now now)
            self.new (with_packet result packet.now) }
    {
        self.hear(now);
        self.state = State::Forwarded;
        Disposition::Forwarded
    }

    /// A CLS closes the connection, or refuses the request.
    fn take_cls(&mut self, packet: &Packet, now: u64) -> Disposition
        ensures { ActsQuietly self.old (after_cls self.old packet.now now)
            self.new (with_packet result packet.now) }
    {
        self.hear(now);
        self.end_in(State::ClsReceived);
        Disposition::Closed
    }

    /// A LOS says that the peer's host doesn't know the connection.
    fn take_los(&mut self, packet: &Packet, now: u64) -> Disposition
        ensures { ActsQuietly self.old (after_los self.old packet.now now)
            self.new (with_packet result packet.now) }
    {
        self.hear(now);
        self.end_in(State::LosReceived);
        Disposition::Lost
    }

    /// Ends in a state. A request that was not accepted is dropped.
    fn end_in(&mut self, state: State)
        ensures { self.new ≡ after_end self.old state }
    {
        if self.state.is_requested() {
            self.recv.clear();
        }
        self.state = state;
    }

    /// Data is held, unless it came before or is past the window.
    fn take_data(&mut self, packet: &Packet, now: u64, out: &mut Outbox) -> Disposition
        requires { 0 < room_of out.old }
        ensures { Acts self.old (after_data self.old packet.now now)
            self.new out.old out.new (with_packet result packet.now) }
    {
        self.hear_ack(packet, now);
        self.take_item(packet, packet.bytes(), out)
    }

    /// An EOF is held as data is, without its data bytes.
    fn take_eof(&mut self, packet: &Packet, now: u64, out: &mut Outbox) -> Disposition
        requires { 0 < room_of out.old }
        ensures { Acts self.old (after_eof self.old packet.now now)
            self.new out.old out.new (with_packet result packet.now) }
    {
        self.hear_ack(packet, now);
        self.take_item(packet, &[], out)
    }

    /// Holds a copy of an item that came, or sends the status.
    fn take_item(&mut self, packet: &Packet, bytes: &[u8], out: &mut Outbox) -> Disposition
        requires room { 0 < room_of out.old }
        requires fits { length bytes.now ≤ MAX_DATA }
        ensures { Acts self.old
            (after_item_came self.old packet.now.num
            (record { op = packet.now.op; body = bytes.now }))
            self.new out.old out.new (with_packet result packet.now) }
    {
        match self.recv.arrive_lent(packet.num, packet.op, bytes) {
            Arrived::Took => Disposition::Took,
            Arrived::Duplicate => {
                self.put_sts(out);
                Disposition::Duplicate
            }
            Arrived::Outside => {
                self.put_sts(out);
                Disposition::Outside
            }
        }
    }

    /// An OPN at an open end came before, and is answered by a status.
    fn take_second_opn(&mut self, packet: &Packet, now: u64, out: &mut Outbox) -> Disposition
        requires { 0 < room_of out.old }
        ensures { Acts self.old (after_second_opn self.old packet.now now)
            self.new out.old out.new (with_packet result packet.now) }
    {
        let Some(told) = packet.status() else {
            return Disposition::Dropped(Why::BadStatus);
        };
        self.hear_status(packet, now, told);
        self.put_sts(out);
        Disposition::Duplicate
    }

    /// An SNS is answered by a status.
    fn take_sns(&mut self, packet: &Packet, now: u64, out: &mut Outbox) -> Disposition
        requires { 0 < room_of out.old }
        ensures { Acts self.old (after_sns self.old packet.now now)
            self.new out.old out.new (with_packet result packet.now) }
    {
        self.hear_ack(packet, now);
        self.put_sts(out);
        Disposition::Probed
    }

    /// An STS carries receipt and window, and isn't answered.
    fn take_sts(&mut self, packet: &Packet, now: u64) -> Disposition
        ensures { ActsQuietly self.old (after_sts self.old packet.now now)
            self.new (with_packet result packet.now) }
    {
        let Some(told) = packet.status() else {
            return Disposition::Dropped(Why::BadStatus);
        };
        self.hear_status(packet, now, told);
        Disposition::Status
    }

    /// Uncontrolled data is handed out, and kept nowhere.
    fn take_unc(&mut self, packet: &Packet, now: u64) -> Disposition
        ensures { ActsQuietly self.old (after_unc self.old packet.now now)
            self.new (with_packet result packet.now) }
    {
        self.hear(now);
        Disposition::Unc
    }

    /// Hears the peer at a moment.
    pub(crate) fn hear(&mut self, now: u64)
        ensures { self.new ≡ heard_at self.old now }
    {
        self.last = self.last.max(now);
        self.heard = self.last;
    }

    /// Hears the peer, and takes the packet's acknowledgement.
    fn hear_ack(&mut self, packet: &Packet, now: u64)
        ensures { self.new ≡ heard_with_ack self.old packet.now now }
    {
        self.hear(now);
        self.send.acknowledge(packet.ack);
    }

    /// Hears the peer, and takes the packet's acknowledgement, receipt and window, in this order.
    fn hear_status(&mut self, packet: &Packet, now: u64, told: (PktNum, u16))
        ensures { self.new ≡ heard_with_status self.old packet.now now told }
    {
        let (receipt, window) = told;
        self.hear_ack(packet, now);
        self.send.receipt(receipt);
        self.send.set_window(window);
    }
}

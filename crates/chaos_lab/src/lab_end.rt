//! One end of the laboratory.
ghost use Rattle.std.specs.Prelude.{◌≡◌, ℕ, ◌<◌, ◌≤◌, [], ◌∷◌, ◌++◌, length, OnOk, OnErr, IfOk, Ok, Some, None, map, slice_get};
ghost use Rattle.chaos_packet.specs.Outbox.{room_of, with_put};
ghost use Rattle.chaos_lab.specs.Turn.{Turn};
ghost use Rattle.chaos_lab.specs.Turning.{EndTurns};
ghost use Rattle.chaos_packet.specs.Packet.{blank, item_of};
ghost use Rattle.chaos_conn.specs.Act.Call.{Accept, Deliver, Read, Write};
ghost use Rattle.chaos_conn.specs.Calls.{front_of};
ghost use Rattle.chaos_lab.specs.History.{HasPlace};
ghost use Rattle.chaos_lab.specs.Inside.{end_view, happening_of, HasRoom};
ghost use Rattle.chaos_lab.specs.Calling.{call_of, told_of};
ghost use Rattle.chaos_lab.specs.Makes.{Makes};
ghost use Rattle.chaos_lab.specs.Told.{told};
ghost use Rattle.chaos_conn.specs.View.{new_conn};
ghost use Rattle.chaos_conn.specs.Opening.{rfc_item};
ghost use Rattle.chaos_lab.specs.Laboratory.{request_for};

use crate::event::{Event, StepDone};
use crate::fault::LabFault;
use crate::history::History;
use crate::user::{Turned, User};
use chaos_conn::{Conn, ConnConfig, Disposition, End};
use chaos_packet::{Item, MAX_DATA, Opcode, Outbox, Packet, PktNum};
use chaos_window::MAX_WINDOW;
use std::alloc::{AllocError, Global};

/// Where A is.
const PLACE_A: End = End {
    address: 0o401,
    index: 1,
};

/// Where B is.
const PLACE_B: End = End {
    address: 0o402,
    index: 1,
};

/// A connection with its whole history.
#[derive(Drop)]
pub(crate) struct LabEnd {
    pub(crate) conn: Conn,
    /// The number of its item 0.
    pub(crate) first: PktNum,
    /// All that it wrote.
    pub(crate) written: History,
    /// All that its user read.
    pub(crate) read: History,
}

impl LabEnd {
    /// An end that wasn't asked.
    pub(crate) fn new(alloc: Global, config: ConnConfig) -> Result<Self, AllocError>
        ensures { IfOk result (λ e. end_view e
            ≡ record { conn = new_conn config; first = 0; written = []; read = [] }) }
    {
        Ok(LabEnd {
            conn: Conn::new(alloc, config)?,
            first: PktNum(0),
            written: History::new(alloc),
            read: History::new(alloc),
        })
    }

    /// The end that asks the other at moment 0.
    pub(crate) fn asking(
        alloc: Global,
        config: ConnConfig,
        contact: &[u8],
        start: PktNum,
        out: &mut Outbox,
    ) -> Result<Self, AllocError>
        requires short { length contact.now ≤ MAX_DATA }
        requires empty { out.old.packets ≡ [] }
        requires fits { 0 < out.old.cap }
        ensures end { IfOk result
            (λ e. end_view e ≡ record {
              conn = (request_for contact.now config start).view;
              first = start;
              written = rfc_item contact.now ∷ [];
              read = [];
            }) }
        ensures number { IfOk result (λ e. start < 65536) }
        ensures packets { IfOk result (λ e. out.new
            ≡ record out.old { packets = (request_for contact.now config start).packets }) }
    {
        let mut end = LabEnd::new(alloc, config)?;
        end.first = start;
        end.written.grow()?;
        end.written.keep(Opcode::RFC, contact);
        let _ = end
            .conn
            .request(PLACE_A, PLACE_B.address, contact, start, 0, out);
        Ok(end)
    }

    /// Makes room for one more item in both lists.
    // inlined, since most calls are four tests
    #[inline(always)]
    pub(crate) fn grow(&mut self) -> Result<(), AllocError>
        ensures same { end_view self.new ≡ end_view self.old }
        ensures room { OnOk result (HasRoom self.new) }
    {
        self.written.grow()?;
        self.read.grow()
    }

    /// Makes the call of an event, and keeps what it wrote and what its user read. A copy's packet
    /// has come to this place, as the request or as a packet of the connection.
    // inlined at both ends, since a call of it and its answer take as long as what it does
    #[inline(always)]
    pub(crate) fn call(
        &mut self,
        event: &Event<'_>,
        asks: bool,
        came: &Packet,
        now: u64,
        out: &mut Outbox,
    ) -> Result<StepDone, LabFault>
        requires room { HasRoom self.old }
        requires empty { out.old.packets ≡ [] }
        requires fits { (self.old.conn.config.send_cap ≤ MAX_WINDOW) × (MAX_WINDOW ≤ out.old.cap) }
        ensures { Makes (end_view self.old) (call_of (happening_of event.now) asks came.now now)
            (end_view self.new) out.old out.new
            (told_of (happening_of event.now) came.now self.new.read.list.items result) }
    {
        match event {
            Event::Write(_, op, bytes) => self.write(*op, bytes, now, out),
            Event::Read(_) => self.read(out),
            Event::Announce(_, window) => match self.conn.announce(*window, out) {
                Ok(()) => Ok(StepDone::Announced(*window)),
                Err(why) => Err(LabFault::Refused(why)),
            },
            Event::Tick(_, moment) => Ok(StepDone::Ticked(self.conn.tick(*moment, out))),
            Event::Close(_, text) => match self.conn.close(text, out) {
                Ok(()) => Ok(StepDone::Closed),
                Err(why) => Err(LabFault::Refused(why)),
            },
            Event::Accept(start) => self.accept(*start, now, out),
            Event::Deliver(_) => {
                if !asks {
                    return self.deliver(came, now, out);
                }
                match self.conn.take_request(came, PLACE_B, now) {
                    Ok(()) => Ok(StepDone::Requested),
                    Err(why) => Err(LabFault::Refused(why)),
                }
            }
        }
    }

    /// Writes an item.
    fn write(
        &mut self,
        op: Opcode,
        bytes: &[u8],
        now: u64,
        out: &mut Outbox,
    ) -> Result<StepDone, LabFault>
        requires room { HasRoom self.old }
        requires empty { out.old.packets ≡ [] }
        requires fits { 0 < out.old.cap }
        ensures { Makes (end_view self.old) (Write op bytes.now now)
            (end_view self.new) out.old out.new (told blank [] result) }
    {
        match self.conn.write(op, bytes, now, out) {
            Ok(number) => {
                self.written.keep(op, bytes);
                Ok(StepDone::Wrote(number))
            }
            Err(why) => Err(LabFault::Refused(why)),
        }
    }

    /// Reads the next item, and keeps a copy of it.
    fn read(&mut self, out: &mut Outbox) -> Result<StepDone, LabFault>
        requires room { HasRoom self.old }
        requires empty { out.old.packets ≡ [] }
        requires fits { 0 < out.old.cap }
        ensures { Makes (end_view self.old) Read (end_view self.new) out.old out.new
            (told blank self.new.read.list.items result) }
    {
        if !self.conn.state().is_opening() {
            if let Some(item) = self.conn.front() {
                self.read.keep(item.op, item.bytes());
            }
        }
        Ok(StepDone::Read(self.conn.read_done(out)))
    }

    /// Takes a packet. An OPN that opens the end is read by that.
    fn deliver(&mut self, packet: &Packet, now: u64, out: &mut Outbox) -> Result<StepDone, LabFault>
        requires room { HasRoom self.old }
        requires empty { out.old.packets ≡ [] }
        requires fits { 0 < out.old.cap }
        ensures { Makes (end_view self.old) (Deliver packet.now now)
            (end_view self.new) out.old out.new (told packet.now [] result) }
    {
        let disposition = self.conn.take(packet, now, out);
        if disposition == Disposition::Opened {
            self.keep_read(packet);
        }
        Ok(StepDone::Delivered(disposition))
    }

    /// Keeps a copy of the item that a packet carries, which was read.
    #[inline(never)]
    fn keep_read(&mut self, packet: &Packet)
        requires { HasPlace self.old.read }
        ensures { end_view self.new ≡ record (end_view self.old) {
          read = self.old.read.list.items
              ++ item_of packet.now ∷ [];
        } }
    {
        self.read.keep(packet.op, packet.bytes());
    }

    /// Accepts the request, which is read by that.
    #[inline(never)]
    fn accept(&mut self, start: PktNum, now: u64, out: &mut Outbox) -> Result<StepDone, LabFault>
        requires room { HasRoom self.old }
        requires empty { out.old.packets ≡ [] }
        requires fits { 0 < out.old.cap }
        ensures { Makes (end_view self.old) (Accept start now) (end_view self.new) out.old out.new
            (told blank [] result) }
    {
        let rfc = self.front();
        match self.conn.accept(start, now, out) {
            Ok(()) => {
                self.first = start;
                if let Some(rfc) = rfc {
                    self.read.keep(rfc.op, rfc.bytes());
                }
                if let Some(opn) = out.take() {
                    self.written.keep(opn.op, opn.bytes());
                    out.put(opn);
                }
                Ok(StepDone::Accepted(start))
            }
            Err(why) => Err(LabFault::Refused(why)),
        }
    }

    /// Lets its user take a turn, and keeps a copy of the item that is read in it.
    pub(crate) fn take_turn<U: User>(
        &mut self,
        alloc: Global,
        user: &mut U,
        now: u64,
        out: &mut Outbox,
    ) -> Turned
        requires room { HasRoom self.old }
        requires fits { 2 ≤ room_of out.old }
        ensures turn { (turn : Turn) × U.may_turn user.old user.new self.old.conn now turn
            × EndTurns (end_view self.old) now turn (end_view self.new) out.old out.new result }
        ensures same { self.new.written ≡ self.old.written }
    {
        let front = self.front();
        let turned = user.turn(alloc, &mut self.conn, now, out);
        if turned != Turned::Rested {
            if let Some(item) = front {
                self.read.keep(item.op, item.bytes());
            }
        }
        turned
    }

    /// A copy of the next item that its user can read.
    fn front(&self) -> Option<Item>
        ensures { result ≡ front_of self.now.conn }
    {
        let item = self.conn.front()?;
        Some(Item::new(item.op, item.bytes()))
    }
}

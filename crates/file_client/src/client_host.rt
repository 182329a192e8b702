//! A client's host: one connection after another, and what waits to be sent.
ghost use Rattle.std.specs.Prelude.{◌≡◌, ◌<◌, ◌⊎◌, ◌↔◌, [], IfErr, IfOk, None, OnErr, OnOk, is_some, true};
ghost use Rattle.file_copy.specs.Talk.{Turned, counted, taken};
ghost use Rattle.file_client.specs.Calls.{is_over};
ghost use Rattle.file_client.specs.Caller.{Receives, ReceivesBehind, Sends, SendsOnce, all_read, asked, asked_again, caller_by, closed, doubled, is_asking, is_late};
ghost use Rattle.chaos_host.specs.View.{conn_at};
ghost use Rattle.file_client.specs.Line.{has_gap_in, line_by, losses_after, shows_loss, window_in};
ghost use Rattle.file_client.specs.Missing.{noted, untried};

use crate::calls::{is_over, take_reply};
use crate::contact::Contact;
use crate::driver::Driver;
use crate::reply_timer::ReplyTimer;
use crate::route::Route;
use chaos_conn::{Disposition, State};
use chaos_file::Reply;
use chaos_host::{ConnId, Host, HostDisposition};
use chaos_link::Carriage;
use chaos_node::{LastPacket, NodeFault, TURN_ROOM, pass_indices};
use chaos_packet::{Opcode, Outbox, PktNum};
use file_copy::{Line, NoReply};
use std::alloc::Global;
use std::marker::Model;

/// The host of a client of a FILE server: with the one connection that it has asked for last, and
/// what waits to be sent. A [`Client`](crate::Client) borrows it, and takes its turns.
#[derive(Drop)]
pub struct ClientHost {
    pub(crate) host: Host,
    pub(crate) out: Outbox,
    /// The server's Chaosnet address.
    to: u16,
    /// What the server is asked for.
    contact: Contact,
    /// The form of the datagrams in which packets go out.
    pub(crate) carriage: Carriage,
    id: Option<ConnId>,
    /// The moment at which a connection was asked for last.
    since: u64,
    /// For how many milliseconds its OPN is waited for.
    wait: u64,
    /// The moment of the last turn, or of the last look at the clock.
    pub(crate) now: u64,
    /// How many turns were begun.
    count: u64,
    /// How many items were written over this connection for which no reply was received.
    unanswered: u64,
    /// Since when a reply is waited for, and why none came.
    reply_timer: ReplyTimer,
    /// The last packet that came in a turn which wasn't noted yet.
    pub(crate) last_arrival: LastPacket,
    /// How many packets showed that a packet of the server's was lost.
    losses: u64,
}

impl Model for ClientHost {
    ghost use Rattle.std.specs.Prelude.{◌≡◌};
    ghost use Rattle.chaos_node.specs.Arrive.{answer_to};
    ghost use Rattle.file_client.specs.ClientHost.{ClientHostView};
    ghost use Rattle.chaos_node.specs.declared.limits.TheConstants.{TURN_ROOM};

    ghost Value = { ClientHostView };

    ghost view = { λ c.
        record {
          caller = record {
            host = c.host;
            to = c.to;
            contact = c.contact;
            carriage = c.carriage;
            id = c.id;
            since = c.since;
            wait = c.wait;
            out = c.out;
          };
          now = c.now;
          count = c.count;
          since = c.reply_timer.since;
          missing = c.reply_timer.missing;
          last_arrival = answer_to c.last_arrival;
          losses = c.losses;
        } };

    ghost invariant = { λ c. c.out.cap ≡ TURN_ROOM };
}

impl ClientHost {
    /// The host of the route, which will ask the route's server for connections, one at a time, and
    /// has none yet. It passes over so many indices, which an older process may have had.
    ///
    /// A client reads all that is there before it writes more, so each command also acknowledges
    /// what was read. So a server never has more to answer than it has room for replies, whatever
    /// the two windows are.
    ///
    /// # Errors
    /// `NoMemory`.
    pub fn new(alloc: Global, route: &Route, passed: u8) -> Result<Self, NodeFault>
        requires { 0 < route.now.me }
        // It fails only when out of memory.
        ensures faults { IfErr result (λ fault. fault ≡ NodeFault.NoMemory) }
        // The host has the route's address and configuration, with one connection to come, and an
        // empty outbox. It has the route's server, contact and carriage, and has used up so many
        // indices.
        ensures made { IfOk result (λ host. host.caller ≡ caller_by route.now passed) }
    {
        let Ok(mut host) = Host::new(alloc, route.me, 1, route.config) else {
            return Err(NodeFault::NoMemory);
        };
        let Ok(mut out) = Outbox::new(alloc, TURN_ROOM) else {
            return Err(NodeFault::NoMemory);
        };
        pass_indices(&mut host, route.to, passed, &mut out);
        Ok(ClientHost {
            host,
            out,
            to: route.to,
            contact: route.contact,
            carriage: route.carriage,
            id: None,
            since: 0,
            wait: 0,
            now: 0,
            count: 0,
            unanswered: 0,
            reply_timer: ReplyTimer::new(),
            last_arrival: LastPacket::default(),
            losses: 0,
        })
    }

    /// Writes an item, if there is room for its packet and one more. Says whether the connection
    /// took it.
    pub(crate) fn write(&mut self, op: Opcode, bytes: &[u8]) -> bool
        // The item is written to the connection as it is, and the result says whether the
        // connection took it. Without room for its packet and one more nothing is done.
        ensures sent { Sends (record { op = op; body = bytes.now }) self.old.now result
            self.old.caller self.new.caller }
        // The moment and the count of turns stay.
        ensures same { (self.new.now ≡ self.old.now) × (self.new.count ≡ self.old.count) }
    {
        if self.out.room() < 2 {
            return false;
        }
        let Some(id) = self.id else {
            return false;
        };
        let is_written = self
            .host
            .write(id, op, bytes, self.now, &mut self.out)
            .is_ok();
        self.unanswered = self.unanswered.saturating_add(u64::from(is_written));
        is_written
    }

    /// Reads the next item, if it is there. Says whether it is data, which are then left in the
    /// caller's place. An item that isn't data is dropped: an EOF is no reply.
    pub(crate) fn take(&mut self, reply: &mut Reply) -> bool
        // The result is true if one read of the connection gave data, which are then in the
        // caller's place. Otherwise the result is false, also for an EOF, which is read. Without
        // room nothing is done.
        ensures received { Receives (taken result reply.new.items) self.old.caller self.new.caller }
        // The moment and the count of turns stay.
        ensures same { (self.new.now ≡ self.old.now) × (self.new.count ≡ self.old.count) }
    {
        if self.out.room() == 0 {
            return false;
        }
        let came = take_reply(&mut self.host, self.id, &mut self.out, reply);
        if came {
            self.reply_timer.begin(self.now);
            self.unanswered = self.unanswered.saturating_sub(1);
        }
        came
    }

    /// Writes the item, where it isn't written yet and there is room. Says whether it is written.
    pub(crate) fn write_once(&mut self, op: Opcode, bytes: &[u8], is_written: bool) -> bool
        ensures sent { SendsOnce is_written (record { op = op; body = bytes.now }) self.old.now
            result self.old.caller self.new.caller }
        ensures same { (self.new.now ≡ self.old.now) × (self.new.count ≡ self.old.count) }
    {
        if is_written {
            return true;
        }
        self.write(op, bytes)
    }

    /// Takes the reply to a command, where that was written and a reply is there. Says whether one
    /// came.
    pub(crate) fn take_behind(&mut self, is_written: bool, reply: &mut Reply) -> bool
        ensures received { ReceivesBehind is_written (taken result reply.new.items) self.old.caller
            self.new.caller }
        ensures written { result ≡ true → is_written ≡ true }
        ensures same { (self.new.now ≡ self.old.now) × (self.new.count ≡ self.old.count) }
    {
        if !is_written {
            return false;
        }
        self.take(reply)
    }

    /// Whether the connection has ended, or there is none.
    pub(crate) fn is_over(&self) -> bool
        // A client is over exactly where its connection has ended or there is none.
        ensures { result ≡ is_over self.entry.now.caller.host self.entry.now.caller.id }
    {
        is_over(&self.host, self.id)
    }

    /// Why no reply came, as far as is known: how long a reply was waited for since the last, or
    /// what the server sent that ended the connection. A second call doesn't repeat what the server
    /// sent.
    pub(crate) fn no_reply(&mut self) -> NoReply
        // It is what came of the turns since then.
        ensures reason { result ≡ self.old.missing }
        // The connection doesn't change.
        ensures same { self.new.caller ≡ self.old.caller }
        // The moment, the count of turns and the count of losses stay.
        ensures still { (self.new.now ≡ self.old.now) × (self.new.count ≡ self.old.count)
            × (self.new.losses ≡ self.old.losses) }
    {
        self.reply_timer.no_reply()
    }

    /// Reads the clock, and keeps its moment for what is done next.
    pub(crate) fn look<D: Driver>(&mut self, driver: &D) -> Result<(), NodeFault>
        ensures faults { IfErr result
            (λ fault. (fault ≡ NodeFault.Clock) × D.stops (D.time driver.now)) }
        ensures moment { OnOk result ((D.pace (D.time driver.now)).Shows self.new.now) }
        ensures still { OnErr result (self.new.now ≡ self.old.now) }
        ensures same { (self.new.caller ≡ self.old.caller) × (self.new.count ≡ self.old.count) }
    {
        self.now = driver.now()?;
        Ok(())
    }

    /// Begins to wait for a reply at the moment that the clock shows.
    pub(crate) fn begin<D: Driver>(&mut self, driver: &D) -> Result<(), NodeFault>
        ensures faults { IfErr result
            (λ fault. (fault ≡ NodeFault.Clock) × D.stops (D.time driver.now)) }
        ensures moment { OnOk result ((D.pace (D.time driver.now)).Shows self.new.now) }
        ensures same { (self.new.caller ≡ self.old.caller) × (self.new.count ≡ self.old.count) }
    {
        self.look(driver)?;
        self.reply_timer.begin(self.now);
        Ok(())
    }

    /// Begins a turn at the moment that the clock shows. Where no OPN came for long, another
    /// connection is asked for.
    pub(crate) fn begin_turn<D: Driver>(&mut self, driver: &D) -> Result<(), NodeFault>
        ensures faults { IfErr result
            (λ fault. (fault ≡ NodeFault.Clock) × D.stops (D.time driver.now)) }
        ensures moment { OnOk result ((D.pace (D.time driver.now)).Shows self.new.now) }
        ensures again { OnOk result
            (self.new.caller
            ≡ asked_again (D.pace (D.time driver.now)) self.new.now self.old.caller) }
        ensures stopped { OnErr result
            ((self.new.now ≡ self.old.now) × (self.new.caller ≡ self.old.caller)) }
        ensures counted { Turned 1 (counted self.old.count) (counted self.new.count) }
        ensures same_server { (self.new.caller.to ≡ self.old.caller.to)
            × (self.new.caller.contact ≡ self.old.caller.contact)
            × (self.new.caller.carriage ≡ self.old.caller.carriage) }
    {
        self.count_turn();
        self.look(driver)?;
        self.ask_again(driver);
        Ok(())
    }

    /// Asks for another connection, where no OPN came for long.
    fn ask_again<D: Driver>(&mut self, driver: &D)
        ensures again { self.new.caller
            ≡ asked_again (D.pace (D.time driver.now)) self.old.now self.old.caller }
        ensures same { (self.new.now ≡ self.old.now) × (self.new.count ≡ self.old.count) }
    {
        if self.is_late() {
            let wait = self.next_wait();
            self.close();
            let start = driver.start(self.now);
            self.ask_for(start, wait);
        }
    }

    /// Whether the packet that came last shows that a packet was lost: it came before, or it is ahead
    /// of one that is missing.
    fn shows_loss(&self) -> bool
        ensures { result ≡ shows_loss self.entry.now.last_arrival
            (has_gap_in (conn_at self.entry.now.caller.host 0)) }
    {
        match self.last_arrival.became {
            Some(HostDisposition::At(_, Disposition::Duplicate)) => true,
            Some(HostDisposition::At(_, Disposition::Took)) => self.has_gap(),
            _ => false,
        }
    }

    /// Whether an item of the connection is held, and an item before it is missing.
    fn has_gap(&self) -> bool
        ensures { result ≡ has_gap_in (conn_at self.entry.now.caller.host 0) }
    {
        match self.host.conn_at(0) {
            Some((_, conn)) => conn.has_gap(),
            None => false,
        }
    }

    /// How many items the server's window allows. It is 0 where no connection is open: only an OPN
    /// shows that window.
    fn window(&self) -> u16
        ensures { result ≡ window_in (conn_at self.entry.now.caller.host 0) }
    {
        match self.host.conn_at(0) {
            Some((_, conn)) if conn.state().is_open() => conn.window(),
            _ => 0,
        }
    }

    /// What is known of the line to the server, where kept items were sent again so often, and packets
    /// wait in a queue or don't.
    pub(crate) fn line(&self, resent: u64, is_crowded: bool) -> Line
        ensures { result
            ≡ line_by resent is_crowded self.entry.now.caller.host self.entry.now.losses }
    {
        Line {
            window: usize::from(self.window()),
            losses: resent.saturating_add(self.losses),
            is_crowded,
        }
    }

    /// Notes what became of the packet that came last in a turn, once.
    pub(crate) fn note(&mut self)
        ensures { self.new
            ≡ record self.old {
              missing = noted self.old.since self.old.now self.old.last_arrival self.old.missing;
              last_arrival = None;
              losses = losses_after self.old.last_arrival self.old.caller.host self.old.losses;
            } }
    {
        if self.shows_loss() {
            self.losses = self.losses.saturating_add(1);
        }
        self.reply_timer.note(self.now, &self.last_arrival);
        self.last_arrival.became = None;
    }

    /// The moment of the last turn, or of the last look at the clock.
    pub(crate) fn last_moment(&self) -> u64
        ensures { result ≡ self.entry.now.now }
    {
        self.now
    }

    /// A connection is to be asked for, over which nothing was said yet.
    pub(crate) fn forget(&mut self)
        ensures { self.new ≡ record self.old { since = self.old.now; missing = untried } }
    {
        self.unanswered = 0;
        self.reply_timer = ReplyTimer::new();
        self.reply_timer.begin(self.now);
    }

    /// One turn more is begun.
    fn count_turn(&mut self)
        ensures counted { Turned 1 (counted self.old.count) (counted self.new.count) }
        ensures same { (self.new.caller ≡ self.old.caller) × (self.new.now ≡ self.old.now) }
    {
        self.count = self.count.saturating_add(1);
    }

    /// Asks for a connection to the contact, where there is room for its RFC. For so many
    /// milliseconds its OPN is waited for.
    pub(crate) fn ask_for(&mut self, start: PktNum, wait: u64)
        ensures asked { self.new.caller ≡ asked start self.old.now wait self.old.caller }
        ensures same { (self.new.now ≡ self.old.now) × (self.new.count ≡ self.old.count) }
    {
        self.since = self.now;
        self.wait = wait;
        self.id = None;
        if self.out.room() > 0 {
            let contact = self.contact.bytes();
            self.id = self
                .host
                .connect(self.to, contact, start, self.now, &mut self.out)
                .ok();
        }
    }

    /// Closes the connection, where there is one, with an empty text, where there is room for its
    /// CLS.
    pub(crate) fn close(&mut self)
        ensures closed { self.new.caller ≡ closed self.old.caller }
        ensures same { (self.new.now ≡ self.old.now) × (self.new.count ≡ self.old.count) }
    {
        let Some(id) = self.id else {
            return;
        };
        self.id = None;
        if self.out.room() > 0 {
            let _ = self.host.close(id, b"", &mut self.out);
        }
    }

    /// Whether a connection was asked for, and no OPN came.
    fn is_asking(&self) -> bool
        ensures { result ≡ is_asking self.entry.now.caller.host self.entry.now.caller.id }
    {
        match self.id {
            Some(id) => matches!(self.host.state(id), Ok(State::RfcSent)),
            None => false,
        }
    }

    /// Whether a connection was asked for, and its OPN was waited for long enough.
    fn is_late(&self) -> bool
        ensures { result ≡ is_late self.entry.now.now self.entry.now.caller }
    {
        self.is_asking() && self.now.saturating_sub(self.since) >= self.wait
    }

    /// Twice as long as the last OPN was waited for.
    fn next_wait(&self) -> u64
        ensures { result ≡ doubled self.entry.now.caller.wait }
    {
        self.wait.saturating_add(self.wait)
    }

    /// Whether there is a connection.
    pub(crate) fn has_connection(&self) -> bool
        ensures { result ≡ is_some self.entry.now.caller.id }
    {
        self.id.is_some()
    }

    /// Whether nothing waits to be sent.
    pub(crate) fn has_sent_all(&self) -> bool
        ensures { result ≡ true ↔ (self.entry.now.caller.out.packets ≡ []) }
    {
        self.out.room() == TURN_ROOM
    }

    /// Whether the connection has ended, or the server has read all, the EOF among it.
    pub(crate) fn is_parted(&self, is_written: bool) -> bool
        ensures { result ≡ true
            ↔ ((is_over self.entry.now.caller.host self.entry.now.caller.id ≡ true)
            ⊎ ((is_written ≡ true)
            × (all_read self.entry.now.caller.host self.entry.now.caller.id ≡ true))) }
    {
        self.is_over() || (is_written && self.is_drained())
    }

    /// Whether the server read all that was written.
    fn is_drained(&self) -> bool
        ensures { result ≡ all_read self.entry.now.caller.host self.entry.now.caller.id }
    {
        let Some(id) = self.id else {
            return false;
        };
        match self.host.drained(id) {
            Ok(drained) => drained,
            Err(_) => false,
        }
    }

    /// Whether a reply was received for each item that was written over this connection.
    pub(crate) fn is_answered(&self) -> bool {
        self.unanswered == 0
    }
}

//! A client of FILE: it asks for a connection, writes to it and reads from it, turn by turn.
ghost use Rattle.std.specs.Prelude.{◌≡◌, ◌≤◌, [], Err, IfErr, IfOk, None, OnOk, refl, true};
ghost use Rattle.chaos_link.specs.Link.{Asks};
ghost use Rattle.chaos_packet.specs.Opcode.{op_data};
ghost use Rattle.file_copy.specs.Talk.{Turned, counted, taken};
ghost use Rattle.file_client.specs.Calls.{is_over};
ghost use Rattle.file_client.specs.Caller.{Connects, HangsUp, Receives, Sends, TurnsAt, TurnsOrStops, asked_again};
ghost use Rattle.file_client.specs.Fault.{IsTurnFault};
ghost use Rattle.file_client.specs.Line.{line_of};
ghost use Rattle.file_client.specs.Patience.{millis_waited};
ghost use Rattle.file_client.specs.Talk.{Exchanges, SendsFarewell, Talks, SaysAt, silence, talker, says_none_at};

use crate::client_host::ClientHost;
use crate::driver::Driver;
use crate::limits::END_TURNS;
use chaos_file::Reply;
use chaos_node::NodeFault;
use chaos_packet::Opcode;
use file_copy::{Line, MOST_TURNS, NoReply, Talk};

/// A client of a FILE server, with the driver by which it takes its turns. It says which steps it
/// took: which commands its connection wrote, which replies it read, in which turns, and what its
/// link was asked in these. No clause says what became of that in the network.
///
/// The host is borrowed, since a driver may hold a reference of its maker's. The prover loses what
/// such a reference ends as, where it lies in a value that owns memory, as a host does.
#[derive(Drop)]
pub struct Client<'c, D: Driver> {
    /// The client's host, with its connection.
    pub host: &'c mut ClientHost,
    /// What the client takes turns with.
    pub driver: D,
}

impl<D: Driver> Client<'_, D> {
    /// Writes a command as soon as there is room, and takes turns until its reply comes, as many as
    /// the driver's patience allows. Says whether a reply came, which is then left in the caller's
    /// place. No reply comes any more once the connection ended. If there is no connection, the
    /// client asks for one first.
    ///
    /// # Errors
    /// `Link` and `Clock`.
    #[tactic(auto, using(crate::proofs::Spent::within_none))]
    pub fn ask(&mut self, command: &[u8], reply: &mut Reply) -> Result<bool, NodeFault>
        // It fails only by a clock that may fail, or by a link of which failures were counted.
        ensures faults { IfErr result
            (IsTurnFault (D.stops (D.time self.old.driver)) (D.failures self.new.driver)) }
        // If a reply came, the connection wrote this command and nothing else, and was read once
        // with data, which are the reply. If none came, the connection wrote the command or
        // nothing, and was given no data. Then the driver's patience was spent or the connection
        // had ended. The patience is spent after so many turns, or when so many milliseconds lie
        // between two moments that the driver may show. A client without a connection asked for one
        // first. Each turn was at a moment that the driver may show, and the link was asked just
        // what these turns ask, in order.
        ensures talk { IfOk result
            (λ came. Exchanges (D.pace (D.time self.old.driver))
            (Asks (D.asked self.old.driver) (D.asked self.new.driver))
            (talker self.old.host.now.caller (D.queue self.old.driver)) command.now
            (taken came reply.new.items)
            (talker self.new.host.now.caller (D.queue self.new.driver))) }
        // If it ends well, the links' count of failures didn't rise.
        ensures unfailed { OnOk result
            (D.failures self.new.driver ≤ D.failures self.old.driver) }
        // The links and the clock stay.
        ensures same_driver { (D.links self.new.driver ≡ D.links self.old.driver)
            × (D.time self.new.driver ≡ D.time self.old.driver) }
    {
        self.call()?;
        self.host.begin(&self.driver)?;
        let patience = self.driver.patience();
        let since = self.host.last_moment();
        let mut is_written = false;
        for turn in 0..MOST_TURNS {
            let waited = self.host.last_moment().saturating_sub(since);
            if patience.is_spent(turn, waited) {
                return Ok(false);
            }
            is_written = self.host.write_once(Opcode::DATA, command, is_written);
            self.turn()?;
            if self.host.take_behind(is_written, reply) {
                return Ok(true);
            }
            if self.host.is_over() {
                return Ok(false);
            }
        }
        Ok(false)
    }

    /// Says farewell: writes an EOF as soon as there is room, and takes turns until the server has
    /// read all or the connection has ended, 100 turns at most. Without a connection nothing is
    /// done.
    ///
    /// # Errors
    /// `Link` and `Clock`.
    pub fn take_leave(&mut self) -> Result<(), NodeFault>
        // It fails only by a clock that may fail, or by a link of which failures were counted.
        ensures faults { IfErr result
            (IsTurnFault (D.stops (D.time self.old.driver)) (D.failures self.new.driver)) }
        // If it ends well, the connection wrote an EOF or nothing, and was given no data, in 100
        // turns at most. It stopped when the server had read all, the EOF too, after 100 turns, or
        // when the connection had ended or there was none. The link was asked just what these turns
        // ask, in order.
        ensures talk { OnOk result
            (SendsFarewell (D.pace (D.time self.old.driver))
            (Asks (D.asked self.old.driver) (D.asked self.new.driver))
            (talker self.old.host.now.caller (D.queue self.old.driver))
            (talker self.new.host.now.caller (D.queue self.new.driver))) }
        // If it ends well, the links' count of failures didn't rise.
        ensures unfailed { OnOk result
            (D.failures self.new.driver ≤ D.failures self.old.driver) }
        // The links and the clock stay.
        ensures same_driver { (D.links self.new.driver ≡ D.links self.old.driver)
            × (D.time self.new.driver ≡ D.time self.old.driver) }
    {
        if !self.host.has_connection() {
            return Ok(());
        }
        self.host.look(&self.driver)?;
        let mut is_written = false;
        for turn in 0..END_TURNS {
            if self.host.is_parted(is_written) {
                return Ok(());
            }
            is_written = self.host.write_once(Opcode::EOF, b"", is_written);
            self.turn()?;
        }
        Ok(())
    }

    /// Closes the connection with an empty text, if there is one, and sends what waits in one more
    /// turn, if anything does. The server then drops the session, and what was written through its
    /// handles.
    ///
    /// # Errors
    /// `Link` and `Clock`. The connection is given up also then.
    pub fn hang_up(&mut self) -> Result<(), NodeFault>
        // It fails only by a clock that may fail, or by a link of which failures were counted.
        ensures faults { IfErr result
            (IsTurnFault (D.stops (D.time self.old.driver)) (D.failures self.new.driver)) }
        // If it ends well, the connection was closed with an empty text, where there was room for
        // the CLS. What then waited was sent in one turn, which doesn't wait, at a moment that the
        // driver may show. The link was asked just what that turn asks. Without a connection
        // nothing was done, and the link was asked nothing.
        ensures well { OnOk result
            (HangsUp (D.pace (D.time self.old.driver))
            (Asks (D.asked self.old.driver) (D.asked self.new.driver)) (D.queue self.old.driver)
            (D.queue self.new.driver) self.old.host.now.caller self.new.host.now.caller) }
        // If it ends well, the links' count of failures didn't rise.
        ensures unfailed { OnOk result
            (D.failures self.new.driver ≤ D.failures self.old.driver) }
        // However it ends, the client has no connection afterwards.
        ensures gone { self.new.host.now.caller.id ≡ None }
        // The server, the contact, the carriage, the links and the clock stay.
        ensures same_server { (self.new.host.now.caller.to ≡ self.old.host.now.caller.to)
            × (self.new.host.now.caller.contact ≡ self.old.host.now.caller.contact)
            × (self.new.host.now.caller.carriage ≡ self.old.host.now.caller.carriage) }
        ensures same_driver { (D.links self.new.driver ≡ D.links self.old.driver)
            × (D.time self.new.driver ≡ D.time self.old.driver) }
    {
        if !self.host.has_connection() {
            return Ok(());
        }
        self.host.close();
        if self.host.has_sent_all() {
            return Ok(());
        }
        self.host.look(&self.driver)?;
        let host = &mut *self.host;
        // Nothing is waited for.
        let end = self.driver.turn(
            &mut host.host,
            host.now,
            &mut host.out,
            &mut host.last_arrival,
            host.carriage,
            false,
        );
        host.note();
        end
    }

    /// Asks for a connection, where there is none.
    fn call(&mut self) -> Result<(), NodeFault>
        ensures faults { IfErr result
            (IsTurnFault (D.stops (D.time self.old.driver)) (D.failures self.new.driver)) }
        ensures talk { OnOk result
            (Talks (D.pace (D.time self.old.driver))
            (talker self.old.host.now.caller (D.queue self.old.driver)) silence
            (talker self.new.host.now.caller (D.queue self.new.driver))) }
        ensures asked { OnOk result (Asks (D.asked self.old.driver) (D.asked self.new.driver) []) }
        ensures unfailed { OnOk result
            (D.failures self.new.driver ≤ D.failures self.old.driver) }
        ensures same_driver { (D.links self.new.driver ≡ D.links self.old.driver)
            × (D.time self.new.driver ≡ D.time self.old.driver) }
    {
        if self.host.has_connection() {
            return Ok(());
        }
        self.connect()
    }
}

impl<D: Driver> Talk for Client<'_, D> {
    /// What it wrote and what it read, turn by turn, by one clock, and that its link was asked just
    /// what these turns ask.
    ghost talked = { λ now start talk. (D.time now.driver ≡ D.time start.driver)
        × SaysAt (D.pace (D.time start.driver)) (D.asked now.driver start.driver)
        (talker start.host.now.caller (D.queue start.driver)) start.host.now.now talk
        (talker now.host.now.caller (D.queue now.driver)) now.host.now.now };

    ghost began = { λ client. (
      refl,
      says_none_at (D.pace (D.time client.driver)) (D.asked client.driver client.driver)
          (talker client.host.now.caller (D.queue client.driver)) client.host.now.now
          (D.began client.driver),
    ) };

    ghost ready = { λ _. None };

    ghost missing = { λ client. client.host.now.missing };

    /// It counts turns as far as they can be.
    ghost course = { λ client.
        record {
          turns = counted client.host.now.count;
          moment = client.host.now.now;
          is_over = is_over client.host.now.caller.host client.host.now.caller.id;
          patience = millis_waited (D.pace (D.time client.driver)).patience;
          failures = D.failures client.driver;
          line = line_of (D.timed client.driver) client.host.now.caller.host client.host.now.losses;
        } };

    /// It hung up, and asked its server for its contact, at a moment that its clock may show.
    ghost connects = { λ old new. (D.time new.driver ≡ D.time old.driver)
        × Connects (D.pace (D.time old.driver)) (Asks (D.asked old.driver) (D.asked new.driver))
        new.host.now.now (D.queue old.driver) (D.queue new.driver) old.host.now.caller
        new.host.now.caller };

    /// A fault of the clock, where that may fail, or of the link, where it counts a failure.
    ghost failed_by = { λ client. IsTurnFault (D.stops (D.time client.driver))
        (D.failures client.driver) };

    fn send(&mut self, command: &[u8]) -> bool
        // A command is written to the connection as it is, as data, and the result says whether the
        // connection took it. Without room nothing is done.
        ensures sent { Sends (record { op = op_data; body = command.now }) self.old.host.now.now
            result self.old.host.now.caller self.new.host.now.caller }
        // The count of turns, the driver and the moment stay.
        ensures still { self.new.host.now.count ≡ self.old.host.now.count }
        ensures same { (self.new.driver ≡ self.old.driver)
            × (self.new.host.now.now ≡ self.old.host.now.now) }
    {
        self.host.write(Opcode::DATA, command)
    }

    fn receive(&mut self, reply: &mut Reply) -> bool
        // The result is true if one read of the connection gave data, which are then in the
        // caller's place. Otherwise the result is false, also for an EOF, which is read. Without
        // room nothing is done.
        ensures received { Receives (taken result reply.new.items) self.old.host.now.caller
            self.new.host.now.caller }
        // The count of turns, the driver and the moment stay.
        ensures still { self.new.host.now.count ≡ self.old.host.now.count }
        ensures same { (self.new.driver ≡ self.old.driver)
            × (self.new.host.now.now ≡ self.old.host.now.now) }
    {
        self.host.take(reply)
    }

    /// One turn at the moment that the clock shows: what was written is sent, and a datagram that
    /// comes is taken, for which the turn may wait. If no OPN came within its wait, the client
    /// first asks for another connection, whose OPN is waited for twice as long.
    ///
    /// # Errors
    /// `Link` and `Clock`.
    fn turn(&mut self) -> Result<(), NodeFault>
        // It fails only by a clock that may fail, or by a link that failed in this turn and of
        // which failures were counted.
        ensures faults { IfErr result
            (IsTurnFault (D.stops (D.time self.old.driver)) (D.failures self.new.driver)) }
        ensures failed { result ≡ Err NodeFault.Link → D.failed self.old.driver self.new.driver }
        // A turn that ends well is a client's, over the link and by the carriage, at the moment
        // that the client then has. If the OPN of a connection had been waited for long enough,
        // that connection was closed first. Another connection was then asked for, for the same
        // contact, whose OPN is waited for twice as long.
        ensures well { OnOk result
            (TurnsAt (Asks (D.asked self.old.driver) (D.asked self.new.driver))
            ((D.pace (D.time self.old.driver)).Waits true) self.new.host.now.now
            (D.queue self.old.driver) (D.queue self.new.driver)
            (asked_again (D.pace (D.time self.old.driver)) self.new.host.now.now
            self.old.host.now.caller)
            self.new.host.now.caller) }
        // The client's moment is one that its driver may show.
        ensures moment { OnOk result
            ((D.pace (D.time self.old.driver)).Shows self.new.host.now.now) }
        // However a turn ends, its link was asked just what a turn asks: to send what waited, once
        // to receive, and to send what the turn put out. The receive may wait as the pace says. If
        // the clock couldn't be read, the link was asked nothing.
        ensures went { TurnsOrStops (D.pace (D.time self.old.driver))
            (Asks (D.asked self.old.driver) (D.asked self.new.driver)) self.old.host.now.now
            self.new.host.now.now (D.queue self.old.driver) (D.queue self.new.driver)
            self.old.host.now.caller self.new.host.now.caller }
        // One turn more is counted, up to the greatest count.
        ensures counted { Turned 1 (counted self.old.host.now.count)
            (counted self.new.host.now.count) }
        // If it ends well, the links' count of failures didn't rise.
        ensures unfailed { OnOk result
            (D.failures self.new.driver ≤ D.failures self.old.driver) }
        // The server, the contact, the carriage, the links and the clock stay.
        ensures same_server { (self.new.host.now.caller.to ≡ self.old.host.now.caller.to)
            × (self.new.host.now.caller.contact ≡ self.old.host.now.caller.contact)
            × (self.new.host.now.caller.carriage ≡ self.old.host.now.caller.carriage) }
        ensures same_driver { (D.links self.new.driver ≡ D.links self.old.driver)
            × (D.time self.new.driver ≡ D.time self.old.driver) }
    {
        self.host.begin_turn(&self.driver)?;
        let host = &mut *self.host;
        let end = self.driver.turn(
            &mut host.host,
            host.now,
            &mut host.out,
            &mut host.last_arrival,
            host.carriage,
            true,
        );
        host.note();
        end
    }

    fn moment(&self) -> u64 {
        self.host.last_moment()
    }

    /// A client waits for a reply as long as the patience of its driver says.
    fn patience(&self) -> Option<u64> {
        self.driver.patience().millis()
    }

    fn line(&self) -> Line {
        self.host
            .line(self.driver.resent(), self.driver.is_crowded())
    }

    fn is_over(&self) -> bool
        // A client is over exactly where its connection has ended or there is none.
        ensures { result ≡ is_over self.now.host.now.caller.host self.now.host.now.caller.id }
    {
        self.host.is_over()
    }

    /// Asks for a connection, in place of one that there was. It is open once the server has
    /// answered, within turns.
    ///
    /// # Errors
    /// `Clock`, and what [`Client::hang_up`] gives.
    fn connect(&mut self) -> Result<(), NodeFault>
        // It fails only by a clock that may fail, or by a link of which failures were counted.
        ensures faults { IfErr result
            (IsTurnFault (D.stops (D.time self.old.driver)) (D.failures self.new.driver)) }
        // If it ends well, the client hung up first and then asked its server for its contact, at a
        // moment that its driver may show and with the first number of that moment. Without room
        // for the request it did nothing.
        ensures well { OnOk result
            (Connects (D.pace (D.time self.old.driver))
            (Asks (D.asked self.old.driver) (D.asked self.new.driver)) self.new.host.now.now
            (D.queue self.old.driver) (D.queue self.new.driver) self.old.host.now.caller
            self.new.host.now.caller) }
        // If it ends well, the links' count of failures didn't rise.
        ensures unfailed { OnOk result
            (D.failures self.new.driver ≤ D.failures self.old.driver) }
        // The server, the contact, the carriage, the links and the clock stay.
        ensures same_server { (self.new.host.now.caller.to ≡ self.old.host.now.caller.to)
            × (self.new.host.now.caller.contact ≡ self.old.host.now.caller.contact)
            × (self.new.host.now.caller.carriage ≡ self.old.host.now.caller.carriage) }
        ensures same_driver { (D.links self.new.driver ≡ D.links self.old.driver)
            × (D.time self.new.driver ≡ D.time self.old.driver) }
    {
        self.hang_up()?;
        self.host.look(&self.driver)?;
        self.host.forget();
        let start = self.driver.start(self.host.last_moment());
        self.host.ask_for(start, self.driver.wait());
        Ok(())
    }

    /// Takes its leave, as [`Client::take_leave`] does, where it may wait and every reply was
    /// received, and hangs up, as [`Client::hang_up`] does. What fails is passed over.
    fn end(&mut self, may_wait: bool)
        // The client has no connection afterwards.
        ensures gone { self.new.host.now.caller.id ≡ None }
        // The links and the clock stay.
        ensures same_driver { (D.links self.new.driver ≡ D.links self.old.driver)
            × (D.time self.new.driver ≡ D.time self.old.driver) }
    {
        if may_wait && self.host.is_answered() {
            let _ = self.take_leave();
        }
        let _ = self.hang_up();
    }

    /// Why no reply came, as far as is known: how long a reply was waited for since the last, or
    /// what the server sent that ended the connection. A second call doesn't repeat what the server
    /// sent.
    fn no_reply(&mut self) -> NoReply
        // It is what came of the turns since then.
        ensures reason { result ≡ self.old.host.now.missing }
        // The connection and the driver don't change.
        ensures same { (self.new.host.now.caller ≡ self.old.host.now.caller)
            × (self.new.driver ≡ self.old.driver) }
        // The moment, the count of turns and the count of losses stay.
        ensures still { (self.new.host.now.now ≡ self.old.host.now.now)
            × (self.new.host.now.count ≡ self.old.host.now.count)
            × (self.new.host.now.losses ≡ self.old.host.now.losses) }
    {
        self.host.no_reply()
    }
}

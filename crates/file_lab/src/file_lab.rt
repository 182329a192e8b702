//! The laboratory whose B serves FILE.
ghost use Rattle.std.specs.Prelude.{◌≡◌, ◌||◌, ◌⊎◌, ◌≤◌, length, codes, map, ◌<◌, ℕ, take, Ok, Err, IfOk, IfErr, OnOk, OnErr, true, false, is_none, ◌↔◌, IsTrue};
ghost use Rattle.chaos_conn.specs.Calls.{front_of};
ghost use Rattle.chaos_lab.specs.Laboratory.Happening.{AnnounceBy, TickOf};
ghost use Rattle.chaos_lab.specs.Settling.{resend_moment};
ghost use Rattle.file_lab.specs.Progress.{CanServe, Serves};
ghost use Rattle.file_lab.specs.Settling.{file_settling, unread};
ghost use Rattle.std.specs.FinMap as files;
ghost use Rattle.chaos_file.specs.Session.{new_session};
ghost use Rattle.chaos_conn.specs.Stored.{stored_packets, stored_bytes};
ghost use Rattle.chaos_lab.specs.Inside.{happening_of};
ghost use Rattle.chaos_lab.specs.Laboratory.{lab_end, start_for};
ghost use Rattle.chaos_lab.specs.Tied.{HasMachine};
ghost use Rattle.file_lab.specs.View.{FileLabView, commands_of, replies_to_a, wrote_mem};
ghost use Rattle.file_lab.specs.Events.{At, Serve, FileHappens, LabHappens, ServeHappens, HasPassed, Passes, Runs, Stops, file_event, is_by_server};
ghost use Rattle.file_lab.specs.Bodies.{is_mem, told_want};
ghost use Rattle.file_lab.specs.Exact.{IsExact, ServeWants, Wants};
ghost use Rattle.file_lab.specs.Law.{RepliesBegin};

use crate::bodies::Bodies;
use crate::event::{FileEvent, FileStepped};
use crate::server::Server;
use chaos_conn::ConnConfig;
use chaos_file::{
    CONTACT, MemStore, Served, Session, is_want, law_memory, law_replies, law_reply_taken, law_want,
};
use chaos_lab::{Event, KeptItem, Lab, LabFault, Side, Stamped, law_delivery, law_phases};
use chaos_packet::{Kind, PktNum};
use std::alloc::{AllocError, Global};
use std::marker::Model;

/// Two ends of one connection, and every packet that was ever sent between them. A is a client of
/// FILE, whose user is the caller. B's user is a server with its own session and store, which
/// serves one command at a time. A contract sees the laboratory, the session and the files.
#[derive(Drop)]
pub struct FileLab {
    lab: Lab,
    server: Server,
    /// Whether B wrote an out-of-memory reply.
    wanted: bool,
}

impl Model for FileLab {
    ghost use Rattle.file_lab.specs.View.{FileLabView};
    ghost use Rattle.file_lab.specs.Kept.{IsSound, file_view, files_code};
    ghost use Rattle.std.specs.Coded.{codes};

    ghost Value = { FileLabView };

    ghost coded = { Prim.hlevel (codes, files_code) };

    ghost view = { file_view };

    ghost invariant = { λ s. IsSound s };
}

impl FileLab {
    /// A laboratory whose two ends have these configurations. A numbers what it writes from
    /// `start_a` on, and its RFC is copy 0.
    ///
    /// # Errors
    /// No memory.
    pub fn new(
        alloc: Global,
        config_a: ConnConfig,
        config_b: ConnConfig,
        start_a: PktNum,
    ) -> Result<Self, AllocError>
        // A has asked B for the contact `FILE` at moment 0. B has a new session and no files.
        ensures { IfOk result (λ l. l ≡ record {
          lab = start_for (codes "FILE") config_a config_b
              start_a;
          session = new_session;
          files = files.empty;
        }) }
    {
        let lab = Lab::asking_for(alloc, config_a, config_b, CONTACT, start_a)?;
        let server = Server {
            session: Session::new(),
            store: MemStore::new(alloc),
            served: Served::Idle,
        };
        Ok(FileLab {
            lab,
            server,
            wanted: false,
        })
    }

    /// Lets an event happen. Where B's server has no memory for a command, it replies so, and its
    /// session and files stay.
    ///
    /// # Errors
    /// `ByServer` for a write and a read at B, otherwise what [`Lab::step`] refuses.
    pub fn step(&mut self, alloc: Global, event: &FileEvent<'_>) -> Result<FileStepped, LabFault>
        // A write and a read at B, and no other event, are refused by ByServer. Every other event
        // of the laboratory is the laboratory's, and leaves session and files. A Serve serves once
        // at B, or there was no memory for the histories, and nothing changed.
        ensures happens { FileHappens self.old (file_event event.now) self.new result }
        // A refusal changes nothing.
        ensures refused { OnErr result (self.new ≡ self.old) }
        // An event is a function of what was before, except where memory runs out. Without memory
        // for the histories it is refused by NoMemory, and nothing changes. At a Serve of a command
        // that may take memory, the server may reply that there is none. That reply is written and
        // answered as any other, and neither the session nor the files change.
        ensures exact { IsExact self.old (file_event event.now) self.new result
            ⊎ Wants self.old (file_event event.now) self.new result }
        // Only a serve writes an out-of-memory reply.
        ensures mem { (file_event event.now ≡ Serve)
            ⊎ (wrote_mem self.new ≡ wrote_mem self.old) }
    {
        match event {
            FileEvent::Serve => self.serve(alloc),
            FileEvent::At(event) => self.happen(alloc, event),
        }
    }

    /// Lets an event of the laboratory happen, as [`FileLab::step`] does.
    ///
    /// # Errors
    /// `ByServer` for a write and a read at B, otherwise what [`Lab::step`] refuses.
    #[tactic(auto, using(crate::proofs::Exactly::server_exact))]
    pub fn happen(&mut self, alloc: Global, event: &Event<'_>) -> Result<FileStepped, LabFault>
        // A write and a read at B, and no other event, are refused by ByServer. Every other event
        // is the laboratory's, and leaves session and files.
        ensures happens { FileHappens self.old (At (happening_of event.now)) self.new result }
        // A refusal changes nothing.
        ensures refused { OnErr result (self.new ≡ self.old) }
        // An event is a function of what was before. Memory may run out for the histories alone:
        // then the event is refused by NoMemory, and nothing changes.
        ensures exact { IsExact self.old (At (happening_of event.now)) self.new result }
        // Only a serve writes an out-of-memory reply.
        ensures mem { wrote_mem self.new ≡ wrote_mem self.old }
    {
        if is_by_server(event) {
            return Err(LabFault::ByServer);
        }
        self.at(alloc, event)
    }

    /// Lets events happen, one after the other. A refused event changes nothing, and the next event
    /// follows.
    ///
    /// # Errors
    /// No memory for the histories.
    pub fn run(&mut self, alloc: Global, events: &[FileEvent<'_>]) -> Result<(), AllocError>
        // All events happened, the refused events passed over.
        ensures all { OnOk result (Runs self.old (map file_event events.now) self.new) }
        // Where there is no memory for the histories it stops, with all as after the events before.
        // The event at which it stops had passed its checks.
        ensures no_memory { OnErr result (Stops self.old (map file_event events.now) self.new) }
    {
        for event in events {
            self.attempt(alloc, event)?;
        }
        Ok(())
    }

    /// Lets an event happen, whatever it answers, unless there is no memory.
    fn attempt(&mut self, alloc: Global, event: &FileEvent<'_>) -> Result<(), AllocError>
        ensures ok { OnOk result (Passes self.old (file_event event.now) self.new) }
        ensures err { OnErr result (self.new ≡ self.old) }
        ensures passed { OnErr result (HasPassed self.old (file_event event.now)) }
    {
        match self.step(alloc, event) {
            Ok(_) => Ok(()),
            Err(LabFault::NoMemory) => Err(AllocError),
            Err(_) => Ok(()),
        }
    }

    /// Lets an event of the laboratory happen that is none of B's server.
    #[tactic(auto, using(crate::proofs::Exactly::at_exact))]
    fn at(&mut self, alloc: Global, event: &Event<'_>) -> Result<FileStepped, LabFault>
        requires { is_by_server (happening_of event.now) ≡ false }
        ensures happens { LabHappens self.old (happening_of event.now) self.new result }
        ensures refused { OnErr result (self.new ≡ self.old) }
        ensures exact { IsExact self.old (At (happening_of event.now)) self.new result }
        ensures mem { wrote_mem self.new ≡ wrote_mem self.old }
    {
        self.lab.law_headline();
        law_phases();
        match self.lab.step(alloc, event) {
            Ok(stepped) => Ok(FileStepped::Lab(stepped)),
            Err(why) => Err(why),
        }
    }

    /// Lets B's server serve once, as [`FileLab::step`] does.
    ///
    /// # Errors
    /// No memory for the histories.
    #[tactic(auto, using(crate::proofs::KeptSteps::serves_not, crate::proofs::KeptSteps::stays_sound))]
    pub fn serve(&mut self, alloc: Global) -> Result<FileStepped, LabFault>
        // B's server serves the item in front of its connection once, or there was no memory for
        // the histories, and nothing changed.
        ensures happens { ServeHappens self.old self.new result }
        // What comes of it is a function of what was before, except where memory runs out.
        ensures exact { IsExact self.old Serve self.new result
            ⊎ ServeWants self.old self.new result }
    {
        self.lab.law_headline();
        law_delivery();
        law_replies();
        law_memory();
        law_want();
        let Ok(()) = self.lab.take_turn(alloc, &mut self.server) else {
            return Err(LabFault::NoMemory);
        };
        let served = self.server.served;
        self.wanted = wanted_after(self.wanted, served, self.lab.written(Side::B));
        Ok(FileStepped::Served(served))
    }

    /// The commands of A: the bodies of the data items that A wrote.
    pub fn commands(&self) -> Bodies<'_>
        // The bodies of the data items that A wrote are lent, in order.
        ensures { result ≡ commands_of self.now }
    {
        Bodies::new(self.lab.written(Side::A))
    }

    /// The replies that A's user has read, as the bodies of data items.
    pub fn replies(&self) -> Bodies<'_>
        // The bodies of the data items that A's user has read are lent, in order.
        ensures { result ≡ replies_to_a self.now }
    {
        Bodies::new(self.lab.read(Side::A))
    }

    /// Whether B wrote an out-of-memory reply.
    pub fn wrote_mem(&self) -> bool
        // The answer is whether a data item that B wrote is an out-of-memory reply.
        ensures { result ≡ wrote_mem self.now }
    {
        self.wanted
    }

    /// Every packet that was sent, the oldest first. An event names a copy by its place here.
    pub fn copies(&self) -> &[Stamped]
        // These are all packets that were sent, each with its stamp.
        ensures { result.now ≡ self.now.lab.copies }
    {
        self.lab.copies()
    }

    /// How many packets an end stores, and their bytes with a header for each.
    pub fn stored(&self, side: Side) -> (usize, usize)
        // The first number counts the packets that the end stores, and the second their bytes.
        ensures packets { result.0 ≡ stored_packets (lab_end self.now.lab side).conn }
        ensures bytes { result.1 ≡ stored_bytes (lab_end self.now.lab side).conn }
    {
        self.lab.stored(side)
    }

    /// The law of replies: FILE over a losing network, whatever happened.
    pub fn law_replies(&self)
        // The laboratory stands for a state of the plain machine.
        ensures machine { HasMachine self.now.lab }
        // The replies that A has read are a prefix of the FILE machine's replies to the commands
        // that A wrote, over no files at first. That holds after any deliveries, losses, repeats
        // and orders of fresh copies, unless B wrote an out-of-memory reply.
        ensures replies { RepliesBegin self.now }
    {
        self.lab.law_headline();
        law_replies();
    }

    /// The law of progress of FILE. Nothing that was lost, late or out of order keeps the ends from
    /// it, and no window that was announced. It doesn't hold where there is no memory for the
    /// histories or at the server.
    pub fn law_progress(&self)
        // Each command is served, and its reply read. Where both ends can settle and B wrote no
        // out-of-memory reply, at most 586 events lead to where A has read the right replies to all
        // commands that it wrote. Then neither end stores a packet, and both are drained and open.
        // Each event is taken, each serve reads an item, no other event is the server's, and none
        // is a write, a close or an acceptance of the client's. Only copies are delivered that were
        // put out since.
        ensures { CanServe self.now → Serves self.now (file_settling self.now) }
    {
        self.lab.law_headline();
        self.lab.law_sound();
        law_phases();
        law_replies();
        law_reply_taken();
    }

    /// Whether [`FileLab::settle`] may be called.
    pub fn can_settle(&self) -> bool
        // It can settle where both ends are open, each sends again before it would count the other
        // as down, moments are left for that, and B wrote no out-of-memory reply.
        ensures { IsTrue result ↔ CanServe self.now }
    {
        self.lab.can_settle() && !self.wrote_mem()
    }

    /// How many items that A wrote B's server hasn't read.
    pub(crate) fn unread(&self) -> usize
        ensures { result ≡ unread self.now.lab }
    {
        let read = self.lab.read(Side::B).len();
        self.lab.written(Side::A).len().saturating_sub(read)
    }

    /// How many items B wrote.
    pub(crate) fn wrote(&self) -> usize
        ensures { result ≡ length self.now.lab.b.written }
    {
        self.lab.written(Side::B).len()
    }

    /// Whether the user at a side has nothing to read.
    pub(crate) fn waits(&self, side: Side) -> bool
        ensures { result ≡ is_none (front_of (lab_end self.now.lab side).conn) }
    {
        self.lab.waits(side)
    }

    /// The greatest window that an end may announce.
    pub(crate) fn recv_cap(&self, side: Side) -> u16
        ensures { result ≡ (lab_end self.now.lab side).conn.config.recv_cap }
    {
        self.lab.recv_cap(side)
    }

    /// The event by which an end announces its greatest window.
    pub(crate) fn announcement(&self, side: Side) -> FileEvent<'static>
        ensures { file_event result
            ≡ At (AnnounceBy side (lab_end self.now.lab side).conn.config.recv_cap) }
    {
        FileEvent::At(self.lab.announcement(side))
    }

    /// The event by which an end sends again what it has no receipt for.
    pub(crate) fn resending(&self, side: Side) -> FileEvent<'static>
        ensures { file_event result ≡ At (TickOf side (resend_moment side self.now.lab)) }
    {
        FileEvent::At(Event::Tick(side, self.lab.resend_moment(side)))
    }
}

/// Whether an event is B's server's alone.
fn is_by_server(event: &Event<'_>) -> bool
    ensures { result ≡ is_by_server (happening_of event.now) }
{
    match event {
        Event::Write(Side::B, _, _) => true,
        Event::Read(Side::B) => true,
        _ => false,
    }
}

/// Whether an item is an out-of-memory reply.
fn is_mem(item: &KeptItem) -> bool
    ensures { result ≡ is_mem item.now }
{
    item.op().kind() == Kind::Data && is_want(item.bytes())
}

/// Whether serving ended with such a reply, which is then the last item that B wrote.
fn told_want(served: Served, written: &[KeptItem]) -> bool
    ensures { result ≡ told_want served written.now }
{
    match (served, written.last()) {
        (Served::Replied, Some(reply)) => is_mem(reply),
        _ => false,
    }
}

/// Whether B wrote such a reply: before, or by serving just now.
fn wanted_after(wanted: bool, served: Served, written: &[KeptItem]) -> bool
    ensures { result ≡ (wanted || told_want served written.now) }
{
    wanted || told_want(served, written)
}

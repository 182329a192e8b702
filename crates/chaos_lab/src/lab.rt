//! The laboratory.
ghost use Rattle.std.specs.Prelude.{◌≡◌, true, ◌<◌, ◌≤◌, Ok, length, slice_get, ℕ, List, ◌∷◌, map, Some, Err, IfOk, OnOk, OnErr};
ghost use Rattle.chaos_conn.specs.Stored.{stored_packets, stored_bytes};
ghost use Rattle.chaos_conn.specs.declared.state.State.TheVariants.{Open};
ghost use Rattle.chaos_packet.specs.Begins.{Begins};
ghost use Rattle.chaos_packet.specs.Opcode.{is_controlled};
ghost use Rattle.chaos_packet.specs.Packet.{item_of};
ghost use Rattle.chaos_conn.specs.declared.answers.Ticked.TheVariants.{Resent};
ghost use Rattle.chaos_lab.specs.declared.event.Stepped.TheVariants.{Ticked};
ghost use Rattle.chaos_lab.specs.declared.side.Side.{Side};
ghost use Rattle.chaos_lab.specs.declared.stamped.Stamped.{Stamped};
ghost use Rattle.chaos_lab.specs.Machine.{Machine, Step, Run, other, greatest_window};
ghost use Rattle.chaos_lab.specs.Laboratory.{LabView, Happening, Happens, happen, check, lab_end, lab_start, start_for, after_all};
ghost use Rattle.chaos_lab.specs.Laboratory.Happening.{TickOf, DeliverCopy};
ghost use Rattle.chaos_lab.specs.Headline.{IsCopyOf, ComesInside, Unclosed, ReadsInTurn};
ghost use Rattle.chaos_lab.specs.Opening.{CanOpen, Opens, HasTimeToSettle, opening};
ghost use Rattle.chaos_lab.specs.Progress.{CanSettle, Settles, ReadThrough, Waits, IsDue, Round, GoesOn, Rounds, ComesAgain, IsAnswered, Report, Knows, HadRead, KeepsNone};
ghost use Rattle.chaos_lab.specs.Settling.{settling};
ghost use Rattle.chaos_lab.specs.Inside.{happening_of};
ghost use Rattle.chaos_lab.specs.Told.{told_at, items_at};
ghost use Rattle.chaos_lab.specs.Turn.{Turn};
ghost use Rattle.chaos_lab.specs.Turns.{TurnHappens};
ghost use Rattle.chaos_lab.specs.Tied.{Ties, HasMachine, Stops, lab_machine, machine_for, plain_event, plain_run};

use crate::event::{Event, StepDone, Stepped};
use crate::fault::LabFault;
use crate::kept_item::KeptItem;
use crate::rig::Rig;
use crate::side::Side;
use crate::stamped::Stamped;
use crate::user::User;
use chaos_conn::ConnConfig;
use chaos_packet::{MAX_DATA, Packet, PktNum};
use std::alloc::{AllocError, Global};
use std::marker::Model;

/// The contact that A asks for.
const CONTACT: &[u8] = b"LAB";

/// Two ends of one connection, and every packet that was ever sent between them. A contract sees
/// both connections with all that each end wrote and its user read, and the packets with their
/// stamps.
///
/// In every laboratory both connections and all packets stand for a state of the plain machine
/// (`Ties`), and each event that is taken is a step of that machine. So what
/// [`crate::law_delivery`] says of the machine holds of the two connections: [`Lab::law_headline`].
#[derive(Drop)]
pub struct Lab {
    pub(crate) rig: Rig,
    /// The copy that was delivered last: a packet's place, which each delivery writes anew.
    delivered: Packet,
}

impl Model for Lab {
    ghost use Rattle.chaos_lab.specs.Laboratory.{LabView};
    ghost use Rattle.chaos_lab.specs.Tied.{HasMachine};

    ghost Value = { LabView };

    ghost view = { λ s. s.rig };

    ghost invariant = { λ s. HasMachine s.rig };
}

impl Lab {
    /// A laboratory whose two ends have these configurations. A, host 401 octal, has asked B, host
    /// 402 octal, for the contact `LAB` at moment 0, and numbers what it writes from `start_a` on.
    /// Its RFC is copy 0.
    ///
    /// # Errors
    /// No memory.
    pub fn new(
        alloc: Global,
        config_a: ConnConfig,
        config_b: ConnConfig,
        start_a: PktNum,
    ) -> Result<Self, AllocError>
        // In a new laboratory A has asked, and A's RFC is copy 0.
        ensures start { IfOk result (λ lab. lab ≡ lab_start config_a config_b start_a) }
        // The laboratory stands for the plain machine's start.
        ensures machine { IfOk result (λ lab. Ties (lab_machine config_a config_b) lab) }
    {
        Lab::asking_for(alloc, config_a, config_b, CONTACT, start_a)
    }

    /// The same as [`Lab::new`] with another contact, of at most 488 bytes.
    ///
    /// # Errors
    /// No memory.
    pub fn asking_for(
        alloc: Global,
        config_a: ConnConfig,
        config_b: ConnConfig,
        contact: &[u8],
        start_a: PktNum,
    ) -> Result<Self, AllocError>
        requires { length contact.now ≤ MAX_DATA }
        // In a new laboratory A has asked for this contact, and A's RFC is copy 0.
        ensures start { IfOk result (λ lab. lab ≡ start_for contact.now config_a config_b start_a) }
        // The laboratory stands for the plain machine's start with this contact.
        ensures machine { IfOk result
            (λ lab. Ties (machine_for contact.now config_a config_b) lab) }
    {
        let rig = Rig::new(alloc, config_a, config_b, contact, start_a)?;
        Ok(Lab {
            rig,
            delivered: Packet::default(),
        })
    }

    /// Lets an event happen. A call without a moment of its own gets the greatest moment that was
    /// ticked.
    ///
    /// The costs don't grow with what was sent before: no list is searched, and each grows by
    /// doubling. The item that was read and the packet that was delivered are copied into the
    /// answer; [`Lab::happen`] copies neither.
    ///
    /// # Errors
    /// The first of these that holds. `NoSuchCopy`: the copy isn't there. `Stale`: an end has
    /// written 32,640 items or more since the copy was sent. `NoMemory`: one of the lists can't
    /// grow. `Refused`: the connection refuses its call.
    pub fn step(&mut self, alloc: Global, event: &Event<'_>) -> Result<Stepped, LabFault>
        // An event does what the connection's `act` says of its call. The other end stays, exactly
        // the packets put out join the copies, and both histories grow by just their items. Or
        // there was no memory, and nothing changed.
        ensures happens { Happens self.old (happening_of event.now) self.new result }
        // An event whose copy isn't there is refused by NoSuchCopy, and an event whose copy isn't
        // fresh by Stale, before all else, whatever memory there is.
        ensures checked { (why : LabFault) → check self.old (happening_of event.now) ≡ Some why →
            result ≡ Err why }
        // A refusal changes nothing.
        ensures refused { OnErr result (self.new ≡ self.old) }
        // An event that is taken is a step of the plain machine, by the row that the table has for
        // it, and the laboratory stands for the machine again.
        ensures machine { IfOk result (λ _. (m : Machine) → Ties m self.old → (n : Machine)
            × Step m (plain_event self.old (happening_of event.now)) n × Ties n self.new) }
    {
        let packet = self.rig.packet_at(event);
        let done = self.happen(alloc, event)?;
        Ok(done.in_full(&packet, self.rig.items_at(event)))
    }

    /// Lets an event happen as [`Lab::step`] does, and hands out neither item nor packet. An item
    /// that was read is the last of [`Lab::read_in`], and a packet that was delivered is the
    /// copy's.
    ///
    /// # Errors
    /// Those of [`Lab::step`].
    pub fn happen(&mut self, _alloc: Global, event: &Event<'_>) -> Result<StepDone, LabFault>
        // The event does what it does by `step`. With the last of the items that the reader has
        // read, or with the copy's packet, the answer is that of `step`.
        ensures happens { Happens self.old (happening_of event.now) self.new
            (told_at self.old self.new (happening_of event.now) result) }
        // An event whose copy isn't there is refused by NoSuchCopy, and an event whose copy isn't
        // fresh by Stale, before all else, whatever memory there is.
        ensures checked { (why : LabFault) → check self.old (happening_of event.now) ≡ Some why →
            result ≡ Err why }
        // A refusal changes nothing.
        ensures refused { OnErr result (self.new ≡ self.old) }
        // An event that is taken is a step of the plain machine, by the row that the table has for
        // it, and the laboratory stands for the machine again.
        ensures machine { IfOk result (λ _. (m : Machine) → Ties m self.old → (n : Machine)
            × Step m (plain_event self.old (happening_of event.now)) n × Ties n self.new) }
    {
        self.rig.step(event, &mut self.delivered)
    }

    /// All that the user of an event's read has read, item 0 of the other end first.
    pub fn read_in(&self, event: &Event<'_>) -> &[KeptItem]
        // For an event that lets a user read, the answer is all that this user has read. For any
        // other event it is nothing.
        ensures { result.now ≡ items_at self.now (happening_of event.now) }
    {
        self.rig.items_at(event)
    }

    /// Lets events happen, one after the other. A refused event changes nothing, and the next event
    /// follows.
    ///
    /// # Errors
    /// No memory for an event. The laboratory is as after the events before that event.
    pub fn run(&mut self, _alloc: Global, events: &[Event<'_>]) -> Result<(), AllocError>
        // All events happened, the refused events passed over.
        ensures all { OnOk result (self.new ≡ after_all self.old (map happening_of events.now)) }
        // Where there is no memory, so many events happened, of which those that were taken are a
        // run of the plain machine. The next event had passed its checks.
        ensures no_memory { OnErr result (Stops self.old (map happening_of events.now) self.new) }
        // The events that were taken are a run of the plain machine.
        ensures machine { OnOk result ((m : Machine) → Ties m self.old → (n : Machine)
            × Run m (plain_run self.old (map happening_of events.now)) n × Ties n self.new) }
    {
        self.rig.run(events, &mut self.delivered)
    }

    /// Lets a user of B's connection take a turn, at the greatest moment that was ticked. The
    /// user's read and write are events of their own: what the read puts out is stamped before the
    /// write is counted.
    ///
    /// # Errors
    /// No memory. The user takes no turn.
    pub fn take_turn<U: User>(&mut self, alloc: Global, user: &mut U) -> Result<(), AllocError>
        // A user's turn at B is events of the laboratory, each taken, at the greatest moment
        // ticked.
        ensures turn { OnOk result ((turn : Turn) × U.may_turn user.old user.new self.old.b.conn
            self.old.clock turn × TurnHappens self.old turn self.new) }
        // Without memory nothing changes, neither the laboratory nor the user.
        ensures no_memory { OnErr result ((self.new ≡ self.old) × (user.new ≡ user.old)) }
    {
        self.rig.take_turn(alloc, user)
    }

    /// All that an end wrote, its item 0 first.
    pub fn written(&self, side: Side) -> &[KeptItem]
        // These are the items that the contract sees as written by this end.
        ensures { result.now ≡ (lab_end self.now side).written }
    {
        self.rig.written(side)
    }

    /// All that the user at an end read, item 0 of the other end first.
    pub fn read(&self, side: Side) -> &[KeptItem]
        // These are the items that the contract sees as read at this end.
        ensures { result.now ≡ (lab_end self.now side).read }
    {
        self.rig.read(side)
    }

    /// Every packet that was sent, with its stamp, the oldest first. An event names a copy by its
    /// place here.
    pub fn copies(&self) -> &[Stamped]
        // These are all packets that were sent, each with its stamp.
        ensures { result.now ≡ self.now.copies }
    {
        self.rig.copies()
    }

    /// How many packets an end stores, and their bytes with a header for each.
    pub fn stored(&self, side: Side) -> (usize, usize)
        // The first number counts the packets that the end stores, and the second their bytes.
        ensures packets { result.0 ≡ stored_packets (lab_end self.now side).conn }
        ensures bytes { result.1 ≡ stored_bytes (lab_end self.now side).conn }
    {
        self.rig.stored(side)
    }

    /// The law of every laboratory, whatever happened in it and whatever will.
    pub fn law_headline(&self)
        // Both connections and all packets of every laboratory stand for a state of the plain
        // machine.
        ensures machine { HasMachine self.now }
        // What a user has read is a prefix of what the other user wrote, in both directions: after
        // any deliveries, losses, repeats and orders of fresh copies.
        ensures beginning { (x : Side) →
            Begins (lab_end self.now (other x)).read (lab_end self.now x).written }
        // An open end's user has read the first item of the other end.
        ensures opened { (x : Side) → (lab_end self.now x).conn.state ≡ Open →
            1 ≤ length (lab_end self.now x).read }
        // Each copy of a numbered packet, an RFC, OPN, EOF or data, is a copy of an item that its
        // sender wrote.
        ensures items { (copy : ℕ) (s : Stamped) → slice_get self.now.copies copy ≡ Some s →
            is_controlled s.packet.op ≡ true → (i : ℕ) × IsCopyOf self.now s i }
        // A packet delivered to an open end inside the window that the end announces can be read in
        // its turn. After any events but a close by the end's own user, where its item is next, a
        // read answers it.
        ensures in_turn { (copy : ℕ) (s : Stamped) (i : ℕ) (events : List Happening) →
            ComesInside self.now copy s i → Unclosed (other s.side) events → ReadsInTurn
            (after_all self.now (DeliverCopy copy ∷ events)) (other s.side) i (item_of s.packet) }
    {
        let _ = &self.rig;
    }

    /// The law of opening: a laboratory opens in which A has sent its request, where B's user
    /// accepts.
    pub fn law_opening(&self)
        // `CanOpen` has three cases. B took no request yet, and A sends its request again before it
        // would count B as down; or B holds the request; or B has accepted it, and sends its OPN
        // again in time. At most five events lead to where both ends are open. Each is taken, none
        // is a write or a close, B's user accepts where it hasn't, and only copies are delivered
        // that were put out since. A's items stay, B has written its OPN at most, and neither end
        // keeps its first item.
        ensures opens { (start : ℕ) → CanOpen self.now → Opens self.now (opening start self.now) }
        // Then both ends can settle, where both times of retransmission are below those of going
        // down and moments are left.
        ensures settles { (start : ℕ) → CanOpen self.now → HasTimeToSettle self.now →
            CanSettle (after_all self.now (opening start self.now)) }
    {
        self.rig.sound();
    }

    /// The law of progress: whatever happened in a laboratory, its open ends can settle. Nothing
    /// that was lost, late or out of order keeps them from it, and no window that was announced.
    pub fn law_progress(&self)
        // Two open ends settle, where each sends again before it would count the other as down, and
        // moments are left. At most 394 events lead to where both users have read all that was
        // written, neither end stores a packet, and both are drained and open. Each of these events
        // is taken, none is a write, a close or an acceptance, and only copies are delivered that
        // were put out since.
        ensures settles { CanSettle self.now → Settles self.now (settling self.now) }
        // So each item that was written, an EOF too, is at its place in what the other user has
        // read, and its writer is drained.
        ensures closing { CanSettle self.now → (x : Side) →
            ReadThrough x self.now (after_all self.now (settling self.now)) }
    {
        self.rig.sound();
    }

    /// The law of rounds: how the ends of a laboratory go on whatever happens, as long as what is
    /// sent again comes.
    pub fn law_rounds(&self)
        // While a reader waits for what was written, the writer keeps something.
        ensures keeps { (x : Side) →
            ((y : Side) → (lab_end self.now y).conn.state ≡ Open) → Waits self.now (other x) →
            length (lab_end self.now (other x)).read < length (lab_end self.now x).written →
            0 < length (lab_end self.now x).conn.send.kept }
        // The writer sends what it keeps again at each moment when that is due and going down is
        // not.
        ensures sends { (x : Side) (now : ℕ) →
            IsDue (lab_end self.now x).conn now → (happen self.now (TickOf x now)).answer
            ≡ Ok (Ticked (Resent (length (lab_end self.now x).conn.send.kept))) }
        // A reader that waits gets on by an item in each round in which what is sent again comes,
        // or had read all. The copies may come in any order, and anything else may happen. Both
        // ends are open, the reader announces a window, and its user meanwhile neither closes nor
        // announces 0.
        ensures round { (x : Side) (m : LabView) → Round x self.now m → GoesOn x self.now m }
        // So after 64 rounds an open reader that waits has read all that was written before them.
        ensures rounds { (x : Side) (m : LabView) → Rounds greatest_window x self.now m →
            (lab_end m (other x)).conn.state ≡ Open → Waits m (other x) →
            Begins (lab_end self.now x).written (lab_end m (other x)).read }
        // An SNS, or a copy of an item that was read, that comes fresh to an open end makes the end
        // put out one STS, and nothing else.
        ensures answers { (copy : ℕ) (s : Stamped) → ComesAgain self.now copy s →
            IsAnswered self.now copy s }
        // Where that STS comes back, the writer is free of all that was read. It keeps no more, and
        // counts no more as outstanding, than it has written beyond what had been read when the
        // event began that put the STS out.
        ensures report { (x : Side) (m : LabView) → Report x self.now m → Knows x self.now m }
        // Where the reader had read all that the writer has written by then, its EOF too, the
        // writer keeps nothing and is drained.
        ensures drained { (x : Side) (m : LabView) → Report x self.now m → HadRead x self.now m →
            KeepsNone x m }
    {
        self.rig.sound();
    }
}

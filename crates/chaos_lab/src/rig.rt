//! Two connections and the packets between them.
ghost use Rattle.std.specs.Prelude.{◌≡◌, ℕ, ◌<◌, ◌+◌, ◌-◌, ◌^◌, ◌≤◌, [], ◌∷◌, ◌++◌, length, map, Option, Some, None, Ok, Err, IfOk, IfErr, OnErr, OnOk, nat_lt, ◌⊎◌};
ghost use Rattle.chaos_lab.specs.Machine.{fresh_span};
ghost use Rattle.chaos_conn.specs.Config.{IsConfig};
ghost use Rattle.chaos_conn.specs.View.{IsConn};
ghost use Rattle.chaos_lab.specs.declared.side.Side.{Side};
ghost use Rattle.chaos_conn.specs.Stored.{stored_packets, stored_bytes};
ghost use Rattle.chaos_lab.specs.Laboratory.{Happens, happen, check, lab_end, start_for, after_all, refusal, StopsWithin, asked_after, clock_after, is_fresh, is_request, stamp};
ghost use Rattle.chaos_lab.specs.Laboratory.Happening.{DeliverCopy};
ghost use Rattle.chaos_lab.specs.History.{HasPlace};
ghost use Rattle.chaos_lab.specs.Inside.{end_view, happening_of, HasRoomAt, HasSpace};
ghost use Rattle.chaos_lab.specs.Told.{told_at, packet_at, items_at};
ghost use Rattle.chaos_lab.specs.Calling.{call_of, IsCall};
ghost use Rattle.chaos_packet.specs.Packet.{PacketView};
ghost use Rattle.chaos_lab.specs.Turn.{Turn, IsTaken, turn_events};
ghost use Rattle.chaos_lab.specs.Turning.{stamped_reply, reply_items};

use crate::both_ends::BothEnds;
use crate::copy_list::CopyList;
use crate::event::{Event, StepDone};
use crate::fault::LabFault;
use crate::kept_item::KeptItem;
use crate::lab_end::LabEnd;
use crate::side::Side;
use crate::stamped::Stamped;
use crate::target::Target;
use crate::user::{Turned, User};
use chaos_conn::{Conn, ConnConfig};
use chaos_packet::{Kind, MAX_DATA, Outbox, Packet, PktNum};
use chaos_window::MAX_WINDOW;
use std::alloc::{AllocError, Global};
use std::marker::Model;

/// How many items either end may write before a copy is stale.
pub const FRESH_SPAN: usize = 32_640;

/// Two ends of one connection, and every packet that was ever sent between them.
#[derive(Drop)]
pub(crate) struct Rig {
    ends: BothEnds,
    /// Every packet that was sent, the oldest first.
    copies: CopyList,
    /// Whether B took a request.
    asked: bool,
    /// The greatest moment that was ticked.
    clock: u64,
    /// Empty between two events.
    out: Outbox,
}

impl Model for Rig {
    ghost use Rattle.std.specs.Prelude.{◌≡◌, ◌≤◌, []};
    ghost use Rattle.chaos_lab.specs.Laboratory.{LabView};
    ghost use Rattle.chaos_lab.specs.Inside.{end_view};
    ghost use Rattle.chaos_lab.specs.Sound.{lab_view, IsSound};

    ghost Value = { LabView };

    ghost view = { lab_view };

    ghost invariant = { IsSound };
}

impl Rig {
    /// Two ends with these configurations. A, which is host 401 octal, has asked B, which is host
    /// 402 octal, for a contact at moment 0, and numbers what it writes from `start_a` on. Its RFC
    /// is copy 0.
    pub(crate) fn new(
        alloc: Global,
        config_a: ConnConfig,
        config_b: ConnConfig,
        contact: &[u8],
        start_a: PktNum,
    ) -> Result<Self, AllocError>
        requires { length contact.now ≤ MAX_DATA }
        ensures start { IfOk result (λ rig. rig ≡ start_for contact.now config_a config_b start_a) }
        ensures number { IfOk result (λ rig. start_a < 65536) }
        ensures configs { IsConfig config_a × IsConfig config_b }
    {
        let (_, _) = (config_a.send_cap(), config_b.send_cap());
        let mut out = Outbox::new(alloc, MAX_WINDOW as usize)?;
        let a = LabEnd::asking(alloc, config_a, contact, start_a, &mut out)?;
        let b = LabEnd::new(alloc, config_b)?;
        let mut copies = CopyList::new(alloc)?;
        let ends = BothEnds { a, b };
        post(&mut copies, &mut out, Side::A, &ends);
        Ok(Rig {
            ends,
            copies,
            asked: false,
            clock: 0,
            out,
        })
    }

    /// All that an end wrote, its item 0 first.
    pub(crate) fn written(&self, side: Side) -> &[KeptItem]
        ensures { result.now ≡ (lab_end self.now side).written }
    {
        match side {
            Side::A => self.ends.a.written.list.as_slice(),
            Side::B => self.ends.b.written.list.as_slice(),
        }
    }

    /// All that the user at an end read, item 0 of the other end first.
    pub(crate) fn read(&self, side: Side) -> &[KeptItem]
        ensures { result.now ≡ (lab_end self.now side).read }
    {
        match side {
            Side::A => self.ends.a.read.list.as_slice(),
            Side::B => self.ends.b.read.list.as_slice(),
        }
    }

    /// Every packet that was sent, with its stamp, the oldest first. An event names a copy by its
    /// place here.
    pub(crate) fn copies(&self) -> &[Stamped]
        ensures { result.now ≡ self.now.copies }
    {
        self.copies.list.as_slice()
    }

    /// How many packets an end stores, and their bytes with a header for each.
    pub(crate) fn stored(&self, side: Side) -> (usize, usize)
        ensures packets { result.0 ≡ stored_packets (lab_end self.now side).conn }
        ensures bytes { result.1 ≡ stored_bytes (lab_end self.now side).conn }
    {
        match side {
            Side::A => self.ends.a.conn.stored(),
            Side::B => self.ends.b.conn.stored(),
        }
    }

    /// What holds of both connections.
    pub(crate) fn sound(&self)
        ensures { (x : Side) → IsConn (lab_end self.now x).conn }
    {
        let _ = (self.ends.a.conn.config(), self.ends.b.conn.config());
    }

    /// The connection of an end.
    pub(crate) fn conn(&self, side: Side) -> &Conn
        ensures { result.now ≡ (lab_end self.now side).conn }
    {
        match side {
            Side::A => &self.ends.a.conn,
            Side::B => &self.ends.b.conn,
        }
    }

    /// The greatest moment that was ticked.
    pub(crate) fn clock(&self) -> u64
        ensures { result ≡ self.now.clock }
    {
        self.clock
    }

    /// Lets events happen, one after the other. A refused event changes nothing, and the next one
    /// follows. Where there is no memory it stops, with the laboratory as after the events before
    /// that one. Each packet that is delivered is written into the same place.
    pub(crate) fn run(&mut self, events: &[Event<'_>], place: &mut Packet) -> Result<(), AllocError>
        ensures all { OnOk result (self.new ≡ after_all self.old (map happening_of events.now)) }
        ensures no_memory { OnErr result
            (StopsWithin self.old (map happening_of events.now) self.new) }
    {
        for event in events {
            self.attempt(event, place)?;
        }
        Ok(())
    }

    /// Lets an event happen, whatever it answers, unless there is no memory.
    fn attempt(&mut self, event: &Event<'_>, place: &mut Packet) -> Result<(), AllocError>
        ensures ok { OnOk result (self.new ≡ (happen self.old (happening_of event.now)).lab) }
        ensures err { OnErr result (self.new ≡ self.old) }
        ensures passed { OnErr result (check self.old (happening_of event.now) ≡ None) }
    {
        match self.step(event, place) {
            Ok(_) => Ok(()),
            Err(LabFault::NoMemory) => Err(AllocError),
            Err(_) => Ok(()),
        }
    }

    /// Lets an event happen, at the greatest moment that was ticked. What it puts out joins the
    /// copies.
    pub(crate) fn step(
        &mut self,
        event: &Event<'_>,
        place: &mut Packet,
    ) -> Result<StepDone, LabFault>
        ensures { Happens self.old (happening_of event.now) self.new
            (told_at self.old self.new (happening_of event.now) result) }
    {
        let target = self.target_of(event, place)?;
        grow(&mut self.ends, target.side, &mut self.copies)?;
        let done = self
            .ends
            .call(target, event, place, self.clock, &mut self.out)?;
        let (asked, clock) = noted(self.asked, self.clock, event, target.asks);
        self.asked = asked;
        self.clock = clock;
        post(&mut self.copies, &mut self.out, target.side, &self.ends);
        Ok(done)
    }

    /// The end at which an event happens. The packet of a copy that comes is written into the
    /// place.
    fn target_of(&self, event: &Event<'_>, place: &mut Packet) -> Result<Target, LabFault>
        ensures found { IfOk result (λ target. IsCall self.now (happening_of event.now) target.side
            target.asks place.new) }
        ensures refused { IfErr result
            (λ why. happen self.now (happening_of event.now) ≡ refusal self.now why) }
    {
        let side = match event {
            Event::Write(side, _, _) => *side,
            Event::Read(side) => *side,
            Event::Announce(side, _) => *side,
            Event::Tick(side, _) => *side,
            Event::Close(side, _) => *side,
            Event::Accept(_) => Side::B,
            Event::Deliver(k) => return self.target_of_copy(*k, place),
        };
        Ok(Target { side, asks: false })
    }

    /// The end that a copy was sent to, and whether it comes as the request or as a packet of the
    /// connection. Its packet is written into the place.
    fn target_of_copy(&self, k: usize, place: &mut Packet) -> Result<Target, LabFault>
        ensures found { IfOk result
            (λ target. IsCall self.now (DeliverCopy k) target.side target.asks place.new) }
        ensures refused { IfErr result (λ why. happen self.now (DeliverCopy k) ≡ refusal self.now why) }
    {
        let Some(copy) = self.copies.list.get(k) else {
            return Err(LabFault::NoSuchCopy);
        };
        if !is_fresh(&self.ends, copy) {
            return Err(LabFault::Stale);
        }
        copy.packet.write_into(place);
        Ok(Target {
            side: copy.side.other(),
            asks: is_request(self.asked, copy),
        })
    }

    /// The packet that an event delivers, where its copy is there.
    pub(crate) fn packet_at(&self, event: &Event<'_>) -> Packet
        ensures { result ≡ packet_at self.now (happening_of event.now) }
    {
        match event {
            Event::Deliver(k) => match self.copies.list.get(*k) {
                Some(copy) => copy.packet.packet(),
                None => Packet::default(),
            },
            _ => Packet::default(),
        }
    }

    /// All that the user has read whom an event lets read.
    pub(crate) fn items_at(&self, event: &Event<'_>) -> &[KeptItem]
        ensures { result.now ≡ items_at self.now (happening_of event.now) }
    {
        match event {
            Event::Read(side) => self.read(*side),
            _ => &[],
        }
    }

    /// Lets B's user take a turn. Where there is no memory it takes none.
    pub(crate) fn take_turn<U: User>(
        &mut self,
        alloc: Global,
        user: &mut U,
    ) -> Result<(), AllocError>
        ensures ok { OnOk result ((turn : Turn) × U.may_turn user.old user.new
            self.old.b.conn self.old.clock turn × IsTaken self.old.b.conn self.old.clock turn
            × (self.new ≡ after_all self.old (turn_events turn))) }
        ensures err { OnErr result ((self.new ≡ self.old) × (user.new ≡ user.old)) }
    {
        if grow(&mut self.ends, Side::B, &mut self.copies).is_err() {
            return Err(AllocError);
        }
        let turned = self
            .ends
            .b
            .take_turn(alloc, user, self.clock, &mut self.out);
        if turned == Turned::Replied {
            post_reply(&mut self.copies, &mut self.out, &mut self.ends);
        } else {
            post(&mut self.copies, &mut self.out, Side::B, &self.ends);
        }
        Ok(())
    }
}

/// Makes room for all that one call at an end may add.
// inlined for the same reason as `LabEnd::grow`
#[inline(always)]
fn grow(ends: &mut BothEnds, side: Side, copies: &mut CopyList) -> Result<(), LabFault>
    ensures ends { (end_view ends.new.a ≡ end_view ends.old.a)
        × (end_view ends.new.b ≡ end_view ends.old.b) }
    ensures copies { copies.new.list.items ≡ copies.old.list.items }
    ensures room { OnOk result (HasRoomAt side ends.new × HasSpace copies.new) }
    ensures err { IfErr result (λ fault. fault ≡ LabFault.NoMemory) }
{
    if ends.grow(side).is_err() || copies.grow().is_err() {
        return Err(LabFault::NoMemory);
    }
    Ok(())
}

/// Whether each end has written few enough items since a copy was sent.
fn is_fresh(ends: &BothEnds, copy: &Stamped) -> bool
    ensures { result ≡ is_fresh (end_view ends.now.a) (end_view ends.now.b) copy.now }
{
    is_near(ends.a.written.list.len(), copy.len_a) && is_near(ends.b.written.list.len(), copy.len_b)
}

/// Whether a length exceeds its stamp by less than what makes a copy stale.
fn is_near(len: usize, stamp: usize) -> bool
    ensures { result ≡ nat_lt (len - stamp) fresh_span }
{
    len.saturating_sub(stamp) < FRESH_SPAN
}

/// Whether a copy asks B, which took no request yet.
fn is_request(asked: bool, copy: &Stamped) -> bool
    ensures { result ≡ is_request asked copy.now }
{
    copy.side == Side::A && !asked && copy.packet.op().kind() == Kind::Rfc
}

/// Whether B took a request, and the greatest moment that was ticked, after an event at this moment
/// whose copy asks or doesn't.
fn noted(asked: bool, now: u64, event: &Event<'_>, asks: bool) -> (bool, u64)
    ensures asked { (came : PacketView) →
        result.0 ≡ asked_after asked (call_of (happening_of event.now) asks came now) }
    ensures clock { (came : PacketView) →
        result.1 ≡ clock_after now (call_of (happening_of event.now) asks came now) }
{
    match event {
        Event::Tick(_, moment) => (asked, now.max(*moment)),
        Event::Deliver(_) => (asks || asked, now),
        _ => (asked, now),
    }
}

/// Takes what was put out into the copies.
#[inline(always)]
fn post(copies: &mut CopyList, out: &mut Outbox, side: Side, ends: &BothEnds)
    requires few { length out.old.packets ≤ MAX_WINDOW }
    requires space { HasSpace copies.old }
    ensures copies { copies.new.list.items ≡ copies.old.list.items ++ map
        (stamp side (length ends.now.a.written.list.items) (length ends.now.b.written.list.items))
        out.old.packets }
    ensures out { out.new ≡ record out.old { packets = [] } }
{
    let (len_a, len_b) = (ends.a.written.list.len(), ends.b.written.list.len());
    for _ in 0..MAX_WINDOW {
        let Some(packet) = out.front() else {
            break;
        };
        copies.push(side, packet, len_a, len_b);
        out.drop_front();
    }
}

/// Takes what was put out in a turn that ended with B's reply into the copies, and the reply into
/// what B wrote. What went out before it is stamped before the reply is counted.
fn post_reply(copies: &mut CopyList, out: &mut Outbox, ends: &mut BothEnds)
    requires few { length out.old.packets ≤ 2 }
    requires space { HasSpace copies.old }
    requires room { HasPlace ends.old.b.written }
    ensures copies { copies.new.list.items
        ≡ copies.old.list.items ++ stamped_reply (length ends.old.a.written.list.items)
        (length ends.old.b.written.list.items) out.old.packets }
    ensures ends { (ends.new.a ≡ ends.old.a) × (end_view ends.new.b ≡ record (end_view
        ends.old.b) { written = ends.old.b.written.list.items ++ reply_items out.old.packets }) }
    ensures out { out.new ≡ record out.old { packets = [] } }
{
    let len_a = ends.a.written.list.len();
    let len_b = ends.b.written.list.len();
    let Some(first) = out.take() else {
        return;
    };
    let reply = match out.take() {
        None => first,
        Some(reply) => {
            copies.push(Side::B, &first, len_a, len_b);
            reply
        }
    };
    ends.b.written.keep(reply.op, reply.bytes());
    copies.push(Side::B, &reply, len_a, len_b + 1);
}

//! How two open ends settle.
ghost use Rattle.std.specs.Prelude.{◌≡◌, ◌≤◌, [], ◌∷◌, is_none, IfSome, IfNone, IsSomeAnd, OnOk, OnErr, ◌↔◌, IsTrue};
ghost use Rattle.chaos_conn.specs.Calls.{front_of};
ghost use Rattle.chaos_conn.specs.View.{IsConn};
ghost use Rattle.chaos_lab.specs.declared.side.Side.{Side};
ghost use Rattle.chaos_lab.specs.Inside.{happening_of};
ghost use Rattle.chaos_lab.specs.Laboratory.{LabView, lab_end, happen, after_all, StopsWithin};
ghost use Rattle.chaos_lab.specs.Progress.{CanSettle, IsInTime, IsSettled};
ghost use Rattle.chaos_lab.specs.Settling.{settling, last_moment, settling_moment, resend_moment};
ghost use Rattle.chaos_lab.specs.SettlingLeft.{left, left_at, sent_to, next_taking};
ghost use Rattle.chaos_lab.specs.Laboratory.Happening.{AnnounceBy};

use crate::event::Event;
use crate::lab::Lab;
use crate::side::Side;
use chaos_conn::State;
use std::alloc::{AllocError, Global};

/// Copies that an end sent again: from this number on, up to the second.
#[derive(Clone, Copy, Debug, PartialEq, Eq)]
pub(crate) struct Burst {
    pub(crate) from: usize,
    pub(crate) to: usize,
}

/// Where settling stands.
#[derive(Clone, Copy, Debug, PartialEq, Eq)]
pub(crate) enum Place {
    /// The user at a side announces its greatest window,
    Tell(Side),
    /// by an STS, this copy, which comes to the other end.
    Hear(Side, usize),
    /// A side's clock goes on until it sends again what it has no receipt for.
    Resend(Side),
    /// What was sent again comes to a side.
    Take(Side),
    /// The user at a side reads so many times, if there is something.
    Read(Side, u16),
    /// This copy comes to a side, and those that were sent with it later.
    Come(Side, usize),
    /// The user at a side reads what came, if there is something. Then this copy comes, and the
    /// others.
    ReadCome(Side, usize),
    /// The user at a side, to which all came, announces its greatest window,
    TellAll(Side),
    /// by an STS, this copy, which comes to the other end.
    HearAll(Side, usize),
    Over,
}

/// The events by which two open ends settle, one after the other. Each end announces its greatest
/// window, and the clock of the other goes on until it sends again what it has no receipt for. All
/// of that comes, the users read, and each end reports what its user read.
///
/// Only copies that were sent since are delivered, each once.
#[derive(Clone, Copy, Debug, PartialEq, Eq)]
pub struct Settling {
    place: Place,
    of_a: Burst,
    of_b: Burst,
}

impl Settling {
    /// Settling at its start.
    pub fn new() -> Self
        // What is left of settling at first is all of it.
        ensures { (l : LabView) → left result l ≡ settling l }
    {
        let none = Burst { from: 0, to: 0 };
        Settling {
            place: Place::Tell(Side::B),
            of_a: none,
            of_b: none,
        }
    }

    /// Takes the next event, in the laboratory as it is after those before.
    pub fn next(&mut self, lab: &Lab) -> Option<Event<'static>>
        // The answer is the first event of what is left, in the laboratory as it is then, and the
        // others are left.
        ensures some { IfSome result (λ event. left self.old lab.now
            ≡ happening_of event ∷ left self.new (happen lab.now (happening_of event)).lab) }
        // No event is answered where nothing is left.
        ensures none { IfNone result (left self.old lab.now ≡ []) }
    {
        match self.place {
            Place::Tell(side) => Some(self.tell(lab, side)),
            Place::Hear(side, copy) => {
                self.place = Place::Resend(side.other());
                Some(Event::Deliver(copy))
            }
            Place::Resend(side) => Some(self.resend(lab, side)),
            Place::Take(side) => Some(self.take(lab, side)),
            Place::Read(side, times) => Some(self.read(lab, side, times)),
            Place::Come(side, copy) => Some(self.come(lab, side, copy)),
            Place::ReadCome(side, copy) => Some(self.read_come(lab, side, copy)),
            Place::TellAll(side) => Some(self.tell_all(lab, side)),
            Place::HearAll(side, copy) => {
                self.place = after_all_came(side);
                Some(Event::Deliver(copy))
            }
            Place::Over => None,
        }
    }

    /// An end announces its greatest window. Where it is A, that has sent again.
    fn tell(&mut self, lab: &Lab, side: Side) -> Event<'static>
        ensures { left_at (Place.Tell side) self.old lab.now
            ≡ happening_of result ∷ left self.new (happen lab.now (happening_of result)).lab }
    {
        let copy = lab.copies().len();
        match side {
            Side::A => self.of_a.to = copy,
            Side::B => (),
        }
        self.place = Place::Hear(side, copy);
        lab.announcement(side)
    }

    /// An end sends again.
    fn resend(&mut self, lab: &Lab, side: Side) -> Event<'static>
        ensures { left_at (Place.Resend side) self.old lab.now
            ≡ happening_of result ∷ left self.new (happen lab.now (happening_of result)).lab }
    {
        let first = lab.copies().len();
        match side {
            Side::A => {
                self.of_a.from = first;
                self.place = Place::Tell(Side::A);
            }
            Side::B => {
                self.of_b.from = first;
                self.place = Place::Take(Side::A);
            }
        }
        Event::Tick(side, lab.resend_moment(side))
    }

    /// What the other end sent again comes to a side. Where that is A, B has just sent.
    fn take(&mut self, lab: &Lab, side: Side) -> Event<'static>
        ensures { left_at (Place.Take side) self.old lab.now
            ≡ happening_of result ∷ left self.new (happen lab.now (happening_of result)).lab }
    {
        match side {
            Side::A => self.of_b.to = lab.copies().len(),
            Side::B => (),
        }
        self.read(lab, side, lab.recv_cap(side))
    }

    /// The copies that come to a side.
    fn sent_to(&self, side: Side) -> Burst
        ensures { result ≡ sent_to side self.now }
    {
        match side {
            Side::A => self.of_b,
            Side::B => self.of_a,
        }
    }

    /// A user reads so many times, if there is something; then the copies come.
    fn read(&mut self, lab: &Lab, side: Side, times: u16) -> Event<'static>
        ensures { left_at (Place.Read side times) self.old lab.now
            ≡ happening_of result ∷ left self.new (happen lab.now (happening_of result)).lab }
    {
        if times == 0 || lab.waits(side) {
            return self.come(lab, side, self.sent_to(side).from);
        }
        self.place = Place::Read(side, times - 1);
        Event::Read(side)
    }

    /// This copy comes, and those that were sent with it later.
    fn come(&mut self, lab: &Lab, side: Side, copy: usize) -> Event<'static>
        ensures { left_at (Place.Come side copy) self.old lab.now
            ≡ happening_of result ∷ left self.new (happen lab.now (happening_of result)).lab }
    {
        if copy >= self.sent_to(side).to {
            return self.tell_all(lab, side);
        }
        self.place = Place::ReadCome(side, copy + 1);
        Event::Deliver(copy)
    }

    /// A user reads what came, if there is something; then this copy comes, and the others.
    fn read_come(&mut self, lab: &Lab, side: Side, copy: usize) -> Event<'static>
        ensures { left_at (Place.ReadCome side copy) self.old lab.now
            ≡ happening_of result ∷ left self.new (happen lab.now (happening_of result)).lab }
    {
        if lab.waits(side) {
            return self.come(lab, side, copy);
        }
        self.place = Place::Come(side, copy);
        Event::Read(side)
    }

    /// An end to which all came announces its greatest window.
    fn tell_all(&mut self, lab: &Lab, side: Side) -> Event<'static>
        ensures { left_at (Place.TellAll side) self.old lab.now
            ≡ happening_of result ∷ left self.new (happen lab.now (happening_of result)).lab }
    {
        self.place = Place::HearAll(side, lab.copies().len());
        lab.announcement(side)
    }
}

/// Where it goes on behind an end to which all came: B takes after A.
fn after_all_came(side: Side) -> Place
    ensures { result ≡ next_taking side }
{
    match side {
        Side::A => Place::Take(Side::B),
        Side::B => Place::Over,
    }
}

impl Lab {
    /// Whether [`Lab::settle`] may be called.
    pub fn can_settle(&self) -> bool
        // Both ends can settle where both are open, each sends again before it would count the
        // other as down, and moments are left for that.
        ensures { IsTrue result ↔ CanSettle self.now }
    {
        self.is_in_time(Side::A) && self.is_in_time(Side::B) && self.has_moments()
    }

    /// Lets both ends settle, by the events of [`Settling`], at most 394.
    ///
    /// # Errors
    /// No memory for an event.
    pub fn settle(&mut self, alloc: Global) -> Result<(), AllocError>
        requires { CanSettle self.old }
        // Afterwards both users have read all that was written, neither end stores a packet, and
        // both are drained.
        ensures settled { OnOk result (IsSettled self.old self.new) }
        // Exactly the events of settling happened.
        ensures events { OnOk result (self.new ≡ after_all self.old (settling self.old)) }
        // Where there is no memory it stops, with the laboratory as after the events before.
        ensures no_memory { OnErr result (StopsWithin self.old (settling self.old) self.new) }
    {
        self.rig.sound();
        let mut events = Settling::new();
        while let Some(event) = events.next(self) {
            self.run(alloc, &[event])?;
        }
        Ok(())
    }

    /// The law of what holds of both connections, whatever happened.
    pub fn law_sound(&self)
        // Both connections of every laboratory are as `IsConn` says.
        ensures { (x : Side) → IsConn (lab_end self.now x).conn }
    {
        self.rig.sound();
    }

    /// An end is open, and sends again before it would count the other as down.
    fn is_in_time(&self, side: Side) -> bool
        ensures { IsTrue result ↔ IsInTime (lab_end self.now side).conn }
    {
        let conn = self.rig.conn(side);
        conn.state() == State::Open && conn.config().retransmit() < conn.config().down()
    }

    /// There are moments left at which both ends can send again.
    fn has_moments(&self) -> bool
        ensures { IsTrue result ↔ (settling_moment self.now ≤ last_moment) }
    {
        let (a, b) = (self.rig.conn(Side::A), self.rig.conn(Side::B));
        let last = a.last().max(b.last()).max(self.rig.clock());
        let Some(moment) = last.checked_add(a.config().retransmit()) else {
            return false;
        };
        moment.checked_add(b.config().retransmit()).is_some()
    }

    /// The event by which the user at a side announces its greatest window.
    pub fn announcement(&self, side: Side) -> Event<'static>
        // The event announces the window of `recv_cap` at that side.
        ensures { happening_of result
            ≡ AnnounceBy side (lab_end self.now side).conn.config.recv_cap }
    {
        Event::Announce(side, self.recv_cap(side))
    }

    /// The greatest window that an end may announce.
    pub fn recv_cap(&self, side: Side) -> u16
        // The window is the `recv_cap` of the end's configuration.
        ensures { result ≡ (lab_end self.now side).conn.config.recv_cap }
    {
        self.rig.conn(side).config().recv_cap()
    }

    /// The moment at which an end that was just heard sends again, or the last moment that there
    /// is.
    pub fn resend_moment(&self, side: Side) -> u64
        // The moment is as long after the end was heard as its time of retransmission says.
        ensures { result ≡ resend_moment side self.now }
    {
        let conn = self.rig.conn(side);
        conn.heard().saturating_add(conn.config().retransmit())
    }

    /// Whether the user at a side has nothing to read.
    pub fn waits(&self, side: Side) -> bool
        // The user waits exactly where there is nothing in front for it to read.
        ensures { result ≡ is_none (front_of (lab_end self.now side).conn) }
    {
        self.rig.conn(side).front().is_none()
    }
}

//! When kept items are sent again.
ghost use Rattle.std.specs.Prelude.{◌≡◌, Some, length, slice_get};
ghost use Rattle.chaos_host.specs.View.{conn_at};
ghost use Rattle.chaos_node.specs.Timer.{back_off_ended, backed_off, base_of, begun, covers, has_progress, holds_at, holds_back, interval_of, floor_after, is_over, looked, looked_slots, measured, new_timer, progressed, resends, resends_any, resends_at, seen_at, sending_of, timed_from, timer_of, was_resent};

use crate::limits::{FIRST_INTERVAL, MOST_BACKED_OFF, MOST_FACTOR};
use crate::round_trip::RoundTrip;
use chaos_conn::{Conn, Due};
use chaos_host::{ConnId, Host};
use chaos_link::MAX_WAIT;
use chaos_packet::PktNum;

/// After how long kept items are sent again, where nothing was sent again since the last receipt.
#[derive(Clone, Copy, Debug, PartialEq, Eq)]
pub enum Interval {
    /// After so many milliseconds.
    Fixed(u64),
    /// After the time that the connection's round trips call for (RFC 6298), at most 10 seconds: 500
    /// milliseconds before a round trip was measured, then at least 200 milliseconds, and at least
    /// 20 milliseconds once four were.
    Measured,
}

/// What a connection shows of the items that it sent.
#[derive(Clone, Copy, Debug, PartialEq, Eq)]
pub struct Sending {
    /// The number up to which all arrived, as far as is known.
    pub receipted: PktNum,
    /// The number of the newest item.
    pub sent: PktNum,
    /// The moment when kept items were last sent again, or when an item was sent where none was
    /// kept.
    pub resent: u64,
    /// Whether any item is kept.
    pub keeps: bool,
}

/// An item whose receipt is waited for, to measure the round trip.
#[derive(Clone, Copy, Debug, PartialEq, Eq)]
pub struct Timed {
    /// The item's number.
    pub num: PktNum,
    /// The moment at which the item was seen first, in milliseconds.
    pub at: u64,
}

/// The timer of the connection in one slot: when its kept items are sent again.
///
/// A connection by itself sends all that it keeps again when the time `retransmit` has passed,
/// however well the line works. The timer makes that behave as TCP does (RFC 6298):
///
/// 1. The timer starts anew with each receipt.
/// 2. Its time doubles with each retransmission, up to 60 seconds, until the next receipt.
/// 3. Its time is the round trip, which it measures: one item at a time, and never an item that
///    was sent again, since its receipt may be that of either copy (Karn's rule).
///
/// [`look_at_conns`] looks at each connection before each turn. In the turn
/// [`Turn::tick_slots`](crate::Turn::tick_slots) leaves the ticks out that a timer holds back. A
/// tick is held back only where it would send kept items again. So the end of a silent peer comes
/// as before. Where a tick is held back, a peer that was silent for the time `probe` gets the kept
/// items in the place of a probe.
#[derive(Clone, Copy, Debug, PartialEq, Eq)]
pub struct RetransmitTimer {
    /// What its time goes by.
    pub interval: Interval,
    /// The connection, where one was seen.
    pub id: Option<ConnId>,
    /// What the connection showed last.
    pub seen: Sending,
    /// The moment at which a receipt was seen last.
    pub progressed: u64,
    /// By how much the time has grown: 1, and twice as much for each retransmission since a receipt.
    pub factor: u64,
    /// Since when the receipt was waited for before which kept items were sent again.
    pub waits_since: u64,
    /// Whether a round trip was measured since a receipt ended such a wait.
    pub is_measured: bool,
    /// The least time until a round trip is measured, where such waits followed each other.
    pub floor: u64,
    /// The round trip, where it was measured.
    pub trip: Option<RoundTrip>,
    /// The item that is timed, where one is.
    pub timed: Option<Timed>,
    /// How often kept items were sent again.
    pub retransmissions: u64,
}

impl RetransmitTimer {
    /// A timer that has seen no connection yet.
    pub const fn new(interval: Interval) -> Self
        // The timer goes by this interval, has seen nothing, and has measured nothing.
        ensures { result ≡ new_timer interval }
    {
        RetransmitTimer {
            interval,
            id: None,
            seen: Sending {
                receipted: PktNum(0),
                sent: PktNum(0),
                resent: 0,
                keeps: false,
            },
            progressed: 0,
            factor: 1,
            waits_since: 0,
            is_measured: false,
            floor: 0,
            trip: None,
            timed: None,
            retransmissions: 0,
        }
    }

    /// After how many milliseconds without a receipt kept items are sent again.
    pub fn interval(&self) -> u64
        // This is the fixed time, or the time of the round trips, multiplied by the factor, and at
        // most 60 seconds.
        ensures { result ≡ interval_of self.now }
    {
        self.base().saturating_mul(self.factor).min(MOST_BACKED_OFF)
    }

    /// The milliseconds where nothing was sent again since the last receipt.
    fn base(&self) -> u64
        ensures { result ≡ base_of self.now.interval self.now.floor self.now.trip }
    {
        match (self.interval, self.trip) {
            (Interval::Fixed(millis), _) => millis,
            (Interval::Measured, Some(trip)) => trip.interval().max(self.floor),
            (Interval::Measured, None) => FIRST_INTERVAL.max(self.floor),
        }
    }

    /// Looks at the connection that the timer's slot has at a moment. A timer that saw another
    /// connection before begins anew.
    pub fn look(&mut self, id: ConnId, conn: &Conn, now: u64)
        // The timer notes what the connection shows, and what that shows since the last look: a
        // receipt, a retransmission, and a round trip.
        ensures { self.new ≡ looked id conn.now now self.old }
    {
        if self.id != Some(id) {
            self.begin(id, conn);
        }
        self.see(&sending_of(conn), now);
    }

    /// Begins anew, with this connection.
    fn begin(&mut self, id: ConnId, conn: &Conn)
        ensures { self.new ≡ begun self.old.interval id conn.now }
    {
        *self = RetransmitTimer {
            id: Some(id),
            seen: Sending {
                receipted: conn.receipted(),
                sent: conn.receipted(),
                resent: conn.resent(),
                keeps: false,
            },
            ..RetransmitTimer::new(self.interval)
        };
    }

    /// Takes in what the connection shows at a moment.
    fn see(&mut self, sending: &Sending, now: u64)
        ensures { self.new ≡ seen_at now sending.now self.old }
    {
        let has_progress = self.has_progress(sending);
        let was_resent = self.was_resent(sending);
        if has_progress {
            self.progress(sending, now);
        } else if was_resent {
            self.back_off();
        }
        if !was_resent {
            self.time(sending, now);
        }
        self.seen = *sending;
    }

    /// Whether an item was receipted since the last look.
    fn has_progress(&self, sending: &Sending) -> bool
        ensures { result ≡ has_progress sending.now self.now }
    {
        sending.receipted != self.seen.receipted
    }

    /// Whether kept items were sent again since the last look.
    fn was_resent(&self, sending: &Sending) -> bool
        ensures { result ≡ was_resent sending.now self.now }
    {
        self.seen.keeps && !self.has_progress(sending) && sending.resent != self.seen.resent
    }

    /// Starts anew at a moment, and measures the round trip where the item that is timed was
    /// receipted.
    fn progress(&mut self, sending: &Sending, now: u64)
        ensures { self.new ≡ progressed now sending.now self.old }
    {
        self.progressed = now;
        match self.timed {
            Some(timed) => {
                if self.covers(sending, timed.num) {
                    self.measure(now.saturating_sub(timed.at));
                } else {
                    self.end_back_off(now);
                }
            }
            None => self.end_back_off(now),
        }
    }

    /// Takes in a round trip that was measured.
    fn measure(&mut self, millis: u64)
        ensures { self.new ≡ measured millis self.old }
    {
        self.trip = Some(RoundTrip::after(self.trip, millis));
        self.timed = None;
        self.factor = 1;
        self.is_measured = true;
        self.floor = 0;
    }

    /// Ends a back-off by a receipt that measures nothing. If no round trip was measured since a
    /// receipt ended the back-off so last, it may be that nothing was lost, and that the way takes
    /// longer than the time. So the time is somewhat longer than this wait until a round trip is
    /// measured.
    fn end_back_off(&mut self, now: u64)
        ensures { self.new ≡ back_off_ended now self.old }
    {
        if self.factor <= 1 {
            return;
        }
        if !self.is_measured {
            self.floor = floor_after(now.saturating_sub(self.waits_since));
        }
        self.factor = 1;
        self.is_measured = false;
    }

    /// Whether an item is among those that were receipted since the last look.
    fn covers(&self, sending: &Sending, num: PktNum) -> bool
        ensures { result ≡ covers sending.now self.now.seen num }
    {
        let before = self.seen.receipted;
        num.off(before) <= sending.receipted.off(before)
    }

    /// Doubles its time. The item that is timed was sent again, so it is timed no longer.
    fn back_off(&mut self)
        ensures { self.new ≡ backed_off self.old }
    {
        if self.factor == 1 {
            self.waits_since = self.seen.resent.max(self.progressed);
        }
        self.factor = self.factor.saturating_mul(2).min(MOST_FACTOR);
        self.timed = None;
        self.retransmissions = self.retransmissions.saturating_add(1);
    }

    /// Begins to time the newest item, where items were sent since the last look and none is timed.
    fn time(&mut self, sending: &Sending, now: u64)
        ensures { self.new ≡ timed_from now sending.now self.old }
    {
        if self.timed.is_none() && sending.sent != self.seen.sent {
            self.timed = Some(Timed {
                num: sending.sent,
                at: now,
            });
        }
    }

    /// Whether a tick of the connection is held back at a moment.
    pub fn holds_back(&self, conn: &Conn, now: u64) -> bool
        // A tick is held back exactly where it would send kept items again and the timer isn't
        // over.
        ensures { result ≡ holds_back self.now now conn.now }
    {
        conn.due_at(now) == Due::Resend && !self.is_over(conn, now)
    }

    /// Whether a tick of the connection sends kept items again at a moment.
    fn resends(&self, conn: &Conn, now: u64) -> bool
        // A tick sends them again exactly where the connection would and the timer is over.
        ensures { result ≡ resends self.now now conn.now }
    {
        conn.due_at(now) == Due::Resend && self.is_over(conn, now)
    }

    /// Whether the timer is over at a moment.
    fn is_over(&self, conn: &Conn, now: u64) -> bool
        ensures { result ≡ is_over self.now now conn.now }
    {
        let since = conn.resent().max(self.progressed);
        conn.receipted() == self.seen.receipted
            && (now.saturating_sub(since) >= self.interval()
                || now.saturating_sub(since.max(conn.heard())) >= conn.config().probe())
    }
}

/// The least time after so long a wait for a receipt.
fn floor_after(waited: u64) -> u64
    ensures { result ≡ floor_after waited }
{
    waited
        .saturating_add(waited / 4)
        .saturating_add(MAX_WAIT)
        .min(MOST_BACKED_OFF)
}

/// What a connection shows of the items that it sent.
fn sending_of(conn: &Conn) -> Sending
    ensures { result ≡ sending_of conn.now }
{
    Sending {
        receipted: conn.receipted(),
        sent: conn.sent(),
        resent: conn.resent(),
        keeps: conn.keeps_any(),
    }
}

/// Lets each timer look at the connection in its slot, at the moment of the turn that comes next.
/// There is a timer for each slot, in the slots' order. A slot without a timer is passed over.
pub fn look_at_conns(timers: &mut [RetransmitTimer], host: &Host, now: u64)
    // Each timer looks at the connection in its slot. The timer of a free slot stays as it is.
    ensures { timers.new ≡ looked_slots now host.now (length host.now.slots) timers.old }
{
    let mut from = 0;
    'slots: while let Some(at) = host.next_conn(from) {
        let place = at.0;
        if place < timers.len() {
            timers[place].look(at.1, at.2, now);
        }
        from = place + 1;
    }
}

/// Whether the timer of a slot holds back the tick of the slot's connection. Nothing holds back the
/// tick of a slot without a timer.
pub(crate) fn holds_at(timers: &[RetransmitTimer], place: usize, host: &Host, now: u64) -> bool
    ensures { result ≡ holds_at timers.now now place host.now }
{
    match (timers.get(place), host.conn_at(place)) {
        (Some(timer), Some((_, conn))) => timer.holds_back(conn, now),
        _ => false,
    }
}

/// Whether the timer of a slot lets the tick of the slot's connection send kept items again.
fn resends_at(timers: &[RetransmitTimer], place: usize, host: &Host, now: u64) -> bool
    ensures { result ≡ resends_at timers.now now host.now place }
{
    match (timers.get(place), host.conn_at(place)) {
        (Some(timer), Some((_, conn))) => timer.resends(conn, now),
        _ => false,
    }
}

/// Whether a tick sends kept items again in any slot, by the slot's timer. If so, a turn must not
/// wait for a datagram before its ticks: the time to wait is over.
pub fn resends_any(timers: &[RetransmitTimer], host: &Host, now: u64) -> bool
    // The result says whether the tick of any connection of the host sends kept items again.
    ensures { result ≡ resends_any timers.now now host.now }
{
    let mut from = 0;
    'slots: while let Some((place, _, _)) = host.next_conn(from) {
        if resends_at(timers, place, host, now) {
            return true;
        }
        from = place + 1;
    }
    false
}

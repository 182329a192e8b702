//! A driver by a clock, over a link to another process.
ghost use Rattle.std.specs.Prelude.{◌≡◌};

use crate::driver::Driver;
use crate::line::{is_crowded_in, resent_in};
use crate::patience::Patience;
use crate::timing::Timing;
use chaos_host::Host;
use chaos_link::{Carriage, LINK_ROOM, Link};
use chaos_node::{
    ClientTurn, LastPacket, NodeFault, ReadableClock, RetransmitTimer, TurnEnd, look_at_conns,
    resends_any, timed_client_turn,
};
use chaos_packet::{Outbox, PktNum};

/// A client's driver by a clock, over a link to another process.
#[derive(Drop)]
pub struct ClockDriver<'a, 'l, C: ReadableClock, L: Link> {
    /// The clock that shows the moments.
    pub clock: &'a C,
    /// The link to the other process.
    pub link: &'l mut L,
    /// When the run began, and how long a reply is waited for.
    pub timing: Timing,
    /// When kept items are sent again: the timer of the host's one slot.
    pub timers: &'l mut [RetransmitTimer; 1],
    /// Where datagrams are received.
    buffer: [u8; LINK_ROOM],
}

impl<'a, 'l, C: ReadableClock, L: Link> ClockDriver<'a, 'l, C, L> {
    ghost use Rattle.std.specs.Prelude.{◌&&◌, not};
    ghost use Rattle.chaos_node.specs.Timer.{resends_any};

    /// A driver of a run with this timing, whose kept items are sent again by this timer. Nothing is
    /// read or sent.
    pub fn new(
        clock: &'a C,
        link: &'l mut L,
        timing: Timing,
        timers: &'l mut [RetransmitTimer; 1],
    ) -> Self
        // The driver goes by the clock and the timing that were handed to it.
        ensures timing { (result.clock.now ≡ clock.now) × (result.timing ≡ timing) }
        // It goes over the link that was handed to it.
        ensures link { (result.link.ghost_name ≡ link.entry.ghost_name)
            × (result.link.now ≡ link.old) }
        // It goes by the timer that was handed to it.
        ensures timers { (result.timers.ghost_name ≡ timers.entry.ghost_name)
            × (result.timers.now ≡ timers.old) }
    {
        ClockDriver {
            clock,
            link,
            timing,
            timers,
            buffer: [0; LINK_ROOM],
        }
    }

    /// Whether a turn of this host waits for a datagram: where its caller lets it, and its tick
    /// doesn't send kept items again.
    fn waits(&self, host: &Host, now: u64, may_wait: bool) -> bool
        ensures { result ≡ (may_wait && not (resends_any self.now.timers.now now host.now)) }
    {
        may_wait && !resends_any(&*self.timers, host, now)
    }
}

impl<C: ReadableClock, L: Link> Driver for ClockDriver<'_, '_, C, L> {
    ghost use Rattle.std.specs.Prelude.{◌≡◌, ◌≤◌, ◌∷◌, ◌&&◌, not, [], Err, None, IfErr, OnOk, length, slice_get};
    ghost use Rattle.chaos_link.specs.Link.{Asks};
    ghost use Rattle.chaos_node.specs.Timer.{looked_slots, resends_any};
    ghost use Rattle.chaos_packet.specs.Count.{Rose};
    ghost use Rattle.chaos_node.specs.declared.limits.TheConstants.{TURN_ROOM};
    ghost use Rattle.file_client.specs.Fault.{IsTurnFault};
    ghost use Rattle.file_client.specs.Pace.{clock_pace};
    ghost use Rattle.file_client.specs.Turn.{TakesTimedTurn};
    ghost use Rattle.file_client.specs.declared.timing.Timing.{Timing};

    ghost Time = { C × Timing };

    ghost time = { λ driver. (driver.clock.now, driver.timing) };

    ghost pace = { λ time. clock_pace (C.shows time.0) time.1 };

    ghost stands = { λ _. None };

    ghost timed = { λ driver. slice_get driver.timers.now 0 };

    ghost later = { λ moment. moment };

    ghost stops = { λ time. C.fails time.0 };

    ghost failures = { λ driver. L.count driver.link.now };

    ghost failed = { λ before after. Rose (L.count before.link.now) (L.count after.link.now) };

    ghost links = { λ driver. driver.link.ghost_name ∷ [] };

    ghost queue = { λ driver. L.queue driver.link.now };

    ghost asked = { λ now start. L.asked now.link.now start.link.now };

    ghost began = { λ driver. L.began driver.link.now };

    fn now(&self) -> Result<u64, NodeFault> {
        self.timing.epoch.moment(self.clock)
    }

    fn start(&self, now: u64) -> PktNum {
        self.timing.epoch.number(now)
    }

    fn wait(&self) -> u64 {
        self.timing.patience.first_wait()
    }

    fn resent(&self) -> u64 {
        resent_in(&*self.timers)
    }

    fn is_crowded(&self) -> bool {
        is_crowded_in(&*self.timers)
    }

    fn patience(&self) -> Patience {
        self.timing.patience
    }

    /// The timer looks at the host's connection. Then the turn is made with that timer.
    fn turn(
        &mut self,
        host: &mut Host,
        now: u64,
        out: &mut Outbox,
        last_arrival: &mut LastPacket,
        carriage: Carriage,
        may_wait: bool,
    ) -> Result<(), NodeFault>
        requires { TURN_ROOM ≤ out.old.cap }
        // The timer looks at the connection in its slot, as the connection stands before the turn.
        ensures looked { self.new.timers.now
            ≡ looked_slots now host.old (length host.old.slots) self.old.timers.now }
        // The turn is a client's with the timer that has looked. It waits for a datagram exactly
        // where its caller lets it and its tick doesn't send kept items again.
        ensures timed { TakesTimedTurn self.new.timers.now
            (Asks (L.asked self.old.link.now) (L.asked self.new.link.now))
            (λ waits. waits ≡ (may_wait && not (resends_any self.new.timers.now now host.old)))
            carriage now host.old host.new
            (L.queue self.old.link.now) (L.queue self.new.link.now) out.old out.new }
        // All that waited is sent.
        ensures sent { out.new ≡ record { packets = []; cap = out.old.cap } }
        // The link, the clock and the timing stay.
        ensures same_link { self.new.link.ghost_name ≡ self.old.link.ghost_name }
        ensures same_clock { (self.new.clock.now ≡ self.old.clock.now)
            × (self.new.timing ≡ self.old.timing) }
        // It ends well only if the link's count of failures didn't rise.
        ensures well { OnOk result (L.count self.new.link.now ≤ L.count self.old.link.now) }
        // It fails only by a link that failed in this turn and of which failures were counted.
        ensures faults { IfErr result
            (IsTurnFault (C.fails self.old.clock.now) (L.count self.new.link.now)) }
        ensures failed { result ≡ Err NodeFault.Link
            → Rose (L.count self.old.link.now) (L.count self.new.link.now) }
    {
        look_at_conns(&mut *self.timers, host, now);
        let may_wait = self.waits(host, now, may_wait);
        let input = ClientTurn {
            now,
            carriage,
            may_wait,
            timers: &*self.timers,
        };
        let buffer = &mut self.buffer;
        match timed_client_turn(host, self.link, out, last_arrival, buffer, input) {
            TurnEnd::LinkFault => Err(NodeFault::Link),
            _ => Ok(()),
        }
    }
}

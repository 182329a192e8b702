//! What drives a client: its turns, and the moments.
ghost use Rattle.std.specs.Prelude.{◌≡◌, ◌≤◌, ℕ, List, [], Err, Option, IfErr, IfOk, OnOk, option_map};
ghost use Rattle.std.specs.Borrow.{GName};
ghost use Rattle.chaos_link.specs.Link.{Ask, Asks, QueueView};
ghost use Rattle.chaos_node.specs.declared.timer.RetransmitTimer.{RetransmitTimer};
ghost use Rattle.file_client.specs.Fault.{IsTurnFault};
ghost use Rattle.file_client.specs.Line.{crowded_by, resent_by};
ghost use Rattle.file_client.specs.Pace.{Pace, StoodAt};
ghost use Rattle.file_client.specs.Turn.{TakesTurn};

use crate::patience::Patience;
use chaos_host::Host;
use chaos_link::Carriage;
use chaos_node::{LastPacket, NodeFault, TURN_ROOM};
use chaos_packet::{Outbox, PktNum};

/// What drives a client: it takes the turns of the client's host, with all that takes part in them,
/// and has the moments.
pub trait Driver: Drop {
    /// The source of the moments: a clock and its reading when the run began, where there is one.
    ghost Time: { Type 0 };

    ghost time: { Self → Time };

    /// The moments that it may show, the numbers that connections begin with, and how long an OPN
    /// and a reply are waited for.
    ghost pace: { Time → Pace };

    /// The moment that it stands at, where it counts its turns and asks no clock.
    ghost stands: { Self → Option ℕ };

    /// The moment behind a turn, of one that counts them.
    ghost later: { ℕ → ℕ };

    /// The timer of the client's connection, where there is one.
    ghost timed: { Self → Option RetransmitTimer };

    /// That there may be a moment at which the clock can't be read.
    ghost stops: { Time → Type 0 };

    /// How many failures its links have counted, together.
    ghost failures: { Self → ℕ };

    /// That a link counted a failure from the one state to the other.
    ghost failed: { Self → Self → Type 0 };

    /// Which links these are: the names of the references to them.
    ghost links: { Self → List GName };

    /// The queue that the client's link is. `None` for a link that is none.
    ghost queue: { Self → Option QueueView };

    /// What the client's link may have been asked up to this state, since that one, in order.
    ghost asked: { Self → Self → List Ask → Type 0 };

    /// Since the state itself it was asked nothing.
    ghost began: { (driver : Self) → asked driver driver [] };

    /// The moment, in milliseconds, of the next turn and of the calls before it.
    ///
    /// # Errors
    /// `Clock` where the clock can't be read.
    fn now(&self) -> Result<u64, NodeFault>
        // The moment is one that the driver may show.
        ensures shown { IfOk result (λ now. (pace (time self.now)).Shows now) }
        // A driver that counts its turns gives the moment that it stands at.
        ensures stood { StoodAt (stands self.now) result }
        // It fails only where the clock may fail.
        ensures faults { IfErr result
            (λ fault. (fault ≡ NodeFault.Clock) × stops (time self.now)) };

    /// The number with which a connection that is asked for at this moment begins.
    fn start(&self, now: u64) -> PktNum
        // The number is the one that the pace has for this moment.
        ensures { result ≡ (pace (time self.now)).starts now };

    /// How many milliseconds without an OPN pass before another connection is asked for, the first
    /// time. Each next wait is twice as long.
    fn wait(&self) -> u64
        // The first OPN is waited for as long as the pace says.
        ensures { result ≡ (pace (time self.now)).wait };

    /// How often kept items of the client's connection were sent again.
    fn resent(&self) -> u64
        // The driver's timer counted so many times.
        ensures { result ≡ resent_by (timed self.now) };

    /// Whether packets wait in a queue of the line.
    fn is_crowded(&self) -> bool
        // The round trip of the driver's timer shows that. Where none was measured, packets may wait.
        ensures { result ≡ crowded_by (timed self.now) };

    /// How long a reply is waited for.
    fn patience(&self) -> Patience
        // A reply is waited for as long as the pace says.
        ensures { result ≡ (pace (time self.now)).patience };

    /// One turn, of the client's host and of all that takes part. What waits in the outbox is sent
    /// by this carriage. The last packet that came is left in `last_arrival`, with what became of it.
    /// The client's own turn may wait for a datagram where `may_wait` allows it, as the pace says.
    ///
    /// # Errors
    /// `Link` where a link failed in the turn, which went on to its end. `Clock` where
    /// the clock can't be read.
    fn turn(
        &mut self,
        host: &mut Host,
        now: u64,
        out: &mut Outbox,
        last_arrival: &mut LastPacket,
        carriage: Carriage,
        may_wait: bool,
    ) -> Result<(), NodeFault>
        requires { TURN_ROOM ≤ out.old.cap }
        // A turn is a client's, over its link and by the carriage. The link is asked to send what
        // waited, once to receive, and to send what the turn put out, and nothing else. The receive
        // may wait as the pace says.
        ensures turned { TakesTurn (Asks (asked self.old) (asked self.new))
            ((pace (time self.old)).Waits may_wait) carriage now host.old host.new (queue self.old)
            (queue self.new) out.old out.new }
        // All that waited is sent.
        ensures sent { out.new ≡ record { packets = []; cap = out.old.cap } }
        // The links and the clock stay.
        ensures same_links { links self.new ≡ links self.old }
        ensures same_time { time self.new ≡ time self.old }
        // A driver that counts its turns stands at the next moment afterwards.
        ensures later { stands self.new ≡ option_map later (stands self.old) }
        // It ends well only if the links' count of failures didn't rise.
        ensures well { OnOk result (failures self.new ≤ failures self.old) }
        // It fails only by a clock that may fail, or by a link that failed in this turn and of
        // which failures were counted.
        ensures faults { IfErr result (IsTurnFault (stops (time self.old)) (failures self.new)) }
        ensures failed { result ≡ Err NodeFault.Link → failed self.old self.new };
}

//! Moments, read one after another.
ghost use Rattle.std.specs.Prelude.{◌≡◌, ℕ, List, [], IfErr, IfOk};
ghost use Rattle.chaos_node.specs.Clock.{BeginsBy, IsMoment, number_of};
ghost use Rattle.chaos_node.specs.Moments.{Reads, moments_in};
ghost use Rattle.chaos_node.specs.declared.fault.NodeFault.{NodeFault};

use crate::clock::Epoch;
use crate::fault::NodeFault;
use crate::readable_clock::ReadableClock;
use chaos_packet::PktNum;

/// So many readings of a clock in a row may fail.
const MOST_FAILURES: u32 = 1_000;

/// A source of moments. Each moment is read once, after the moment before.
pub trait Moments {
    /// What the moments are read from: a clock and its reading when the run began, where there is a
    /// clock.
    ghost Time: { Type 0 };

    ghost time: { Self → Time };

    /// The number with which a connection of a moment begins.
    ghost starts: { Time → ℕ → ℕ };

    /// That the moment may be one that can't be read.
    ghost stops: { Time → Type 0 };

    /// The moments that may have been read up to this state since that one, in order.
    ghost read: { Self → Self → List ℕ → Type 0 };

    /// Since the state itself no moment was read.
    ghost began: { (moments : Self) → read moments moments [] };

    /// The next moment, in milliseconds.
    ///
    /// # Errors
    /// `Clock` where it can't be read.
    fn next(&mut self) -> Result<u64, NodeFault>
        // The moment that is read comes behind all that were read since any earlier state, and no
        // other moment does. If none can be read, none comes. By a clock, each moment that is read
        // is one that the clock may show since the run began, also where a reading fails and the
        // moment before counts once more.
        ensures reads { Reads (read self.old) (read self.new) (moments_in result) }
        // What the moments are read from stays.
        ensures same_time { time self.new ≡ time self.old }
        // It fails only where the moment may be one that can't be read.
        ensures faults { IfErr result
            (λ fault. (fault ≡ NodeFault.Clock) × stops (time self.old)) };

    /// The number with which a connection of this moment begins.
    fn start(&self, moment: u64) -> PktNum
        // The number is the source's for this moment.
        ensures { result ≡ starts (time self.now) moment };
}

/// The moments of a run by a clock. Where the clock can't be read, the moment that it showed last
/// counts once more; after 1,000 such readings in a row the next reading fails. Only a test shows
/// this number.
#[derive(Drop)]
pub struct ClockMoments<'a, C: ReadableClock> {
    clock: &'a C,
    epoch: Epoch,
    /// The moment that the clock showed last: 0 when the run begins.
    last: u64,
    /// How many readings failed since then.
    failures: u32,
}

impl<'a, C: ReadableClock> ClockMoments<'a, C> {
    /// A run that begins now, by the clock.
    ///
    /// # Errors
    /// `Clock` where the clock can't be read.
    pub fn new(clock: &'a C) -> Result<Self, NodeFault>
        // The source begins with what the clock shows, at moment 0.
        ensures begins { IfOk result
            (λ moments. (moments.clock.now ≡ clock.now)
            × BeginsBy (C.shows clock.now) (C.dates clock.now) moments.epoch
            × (moments.last ≡ 0)) }
        // It fails only by the clock, where that may fail.
        ensures faults { IfErr result (λ fault. (fault ≡ NodeFault.Clock) × C.fails clock.now) }
    {
        Ok(ClockMoments {
            clock,
            epoch: Epoch::new(clock)?,
            last: 0,
            failures: 0,
        })
    }
}

impl<C: ReadableClock> Moments for ClockMoments<'_, C> {
    ghost use Rattle.chaos_node.specs.declared.clock.Epoch.{Epoch};
    ghost use Rattle.std.specs.Prelude.{refl};
    ghost use Rattle.std.proofs.lemmas.List.Elements.{All-nil};
    ghost use Rattle.chaos_node.specs.Clock.{ShownSince};

    ghost Time = { C × Epoch };

    ghost time = { λ moments. (moments.clock.now, moments.epoch) };

    ghost starts = { λ time. number_of time.1 };

    ghost stops = { λ time. C.fails time.0 };

    ghost read = { λ now start moments. (now.clock.now ≡ start.clock.now)
        × (now.epoch ≡ start.epoch)
        × ShownSince (C.shows start.clock.now) start.epoch start.last now.last moments };

    ghost began = { λ moments. (
      refl,
      refl,
      λ shown.
          (All-nil (IsMoment (C.shows moments.clock.now) moments.epoch), shown),
    ) };

    fn next(&mut self) -> Result<u64, NodeFault> {
        match self.epoch.moment(self.clock) {
            Ok(moment) => {
                self.last = moment;
                self.failures = 0;
                Ok(moment)
            }
            Err(_) if self.failures < MOST_FAILURES => {
                self.failures += 1;
                Ok(self.last)
            }
            Err(fault) => Err(fault),
        }
    }

    fn start(&self, moment: u64) -> PktNum {
        self.epoch.number(moment)
    }
}

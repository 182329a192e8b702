//! Moments and numbers from a clock.
ghost use Rattle.std.specs.Prelude.{◌≡◌, IfErr, IfOk};
ghost use Rattle.chaos_node.specs.Clock.{BeginsBy, DrawnBy, IsMoment, millis_of, number_of};
ghost use Rattle.std.specs.Duration.{as_nanos};

use crate::fault::NodeFault;
use crate::readable_clock::ReadableClock;
use chaos_packet::PktNum;
use std::time::Duration;

/// When a run began, by its clock, and the numbers and indices that its connections begin with.
#[derive(Clone, Copy)]
pub struct Epoch {
    /// The number of a connection of moment 0: its low 16 bits count.
    first: u64,
    /// How many indices the run passes over.
    passed: u8,
    /// The time since the clock's own start.
    start: Duration,
}

impl Epoch {
    /// The epoch that begins now. The first number is the milliseconds since 1970, and as many
    /// indices are passed over as their low 8 bits say.
    ///
    /// # Errors
    /// `Clock` where the clock can't be read.
    pub fn new<C: ReadableClock>(clock: &C) -> Result<Self, NodeFault>
        // An epoch has the clock's own time, and as first number the whole milliseconds since 1970,
        // at most the greatest `u64`. As many indices are passed over as the low 8 bits of these
        // say.
        ensures begins { IfOk result (BeginsBy (C.shows clock.now) (C.dates clock.now)) }
        // It fails only by the clock, where that may fail.
        ensures faults { IfErr result (λ fault. (fault ≡ NodeFault.Clock) × C.fails clock.now) }
    {
        match (clock.since_start(), clock.date()) {
            (Ok(start), Ok(date)) => {
                let first = millis_of(date);
                Ok(Epoch {
                    first,
                    passed: (first % 256) as u8,
                    start,
                })
            }
            _ => Err(NodeFault::Clock),
        }
    }

    /// The epoch that begins now, with this first number and so many indices to pass over. If both
    /// are drawn at random, somebody who can't read the packets of the run can't guess them.
    ///
    /// # Errors
    /// `Clock` where the clock can't be read.
    pub fn drawn<C: ReadableClock>(clock: &C, first: u16, passed: u8) -> Result<Self, NodeFault>
        // A drawn epoch has the clock's own time, with the first number and the count of indices
        // that were handed to it.
        ensures begins { IfOk result (DrawnBy (C.shows clock.now) first passed) }
        // It fails only by the clock, where that may fail.
        ensures faults { IfErr result (λ fault. (fault ≡ NodeFault.Clock) × C.fails clock.now) }
    {
        match clock.since_start() {
            Ok(start) => Ok(Epoch {
                first: u64::from(first),
                passed,
                start,
            }),
            Err(_) => Err(NodeFault::Clock),
        }
    }

    /// The milliseconds since the epoch.
    ///
    /// # Errors
    /// `Clock` where the clock can't be read.
    pub fn moment<C: ReadableClock>(&self, clock: &C) -> Result<u64, NodeFault>
        // A moment is the whole milliseconds from the epoch's time to a time that the clock showed,
        // and 0 where the clock went back.
        ensures moment { IfOk result (IsMoment (C.shows clock.now) self.now) }
        // It fails only by the clock, where that may fail.
        ensures faults { IfErr result (λ fault. (fault ≡ NodeFault.Clock) × C.fails clock.now) }
    {
        match clock.since_start() {
            Ok(time) => Ok(millis_of(time.saturating_sub(self.start))),
            Err(_) => Err(NodeFault::Clock),
        }
    }

    /// The number that a connection of this moment begins with.
    pub fn number(&self, moment: u64) -> PktNum
        // The number is the low 16 bits of the first number and the moment's milliseconds.
        ensures { result ≡ number_of self.now moment }
    {
        let low = self.first % 65_536 + moment % 65_536;
        PktNum((low % 65_536) as u16)
    }

    /// How many indices the run passes over, which an older process may have had.
    pub fn passed(&self) -> u8
        // The result is the count of indices that the epoch has.
        ensures { result ≡ self.now.passed }
    {
        self.passed
    }
}

/// A time in whole milliseconds.
fn millis_of(time: Duration) -> u64
    ensures { result ≡ millis_of (as_nanos time) }
{
    u64::try_from(time.as_millis()).unwrap_or(u64::MAX)
}

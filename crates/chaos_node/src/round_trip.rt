//! The round trip of a connection, as it was measured.
ghost use Rattle.std.specs.Prelude.{◌≡◌, ◌≤◌, None, Some};
ghost use Rattle.chaos_node.specs.RoundTrip.{first_trip, is_crowded, joined_trip, trip_after, trip_interval};
ghost use Rattle.chaos_node.specs.declared.limits.TheConstants.{MOST_TRIP};

use crate::limits::{LEAST_INTERVAL, MOST_INTERVAL, MOST_TRIP, SURE_TIMES, UNSURE_INTERVAL};
use chaos_link::MAX_WAIT;

/// A round trip that is smoothed as TCP smooths it (RFC 6298): each new time moves the smoothed
/// time by an eighth, and the mean deviation from it by a quarter.
#[derive(Clone, Copy, Debug, PartialEq, Eq)]
pub struct RoundTrip {
    /// The smoothed time, in eighths of a millisecond.
    pub eighths: u64,
    /// Four times the mean deviation, in milliseconds.
    pub spread: u64,
    /// How many times were measured, up to [`SURE_TIMES`].
    pub times: u64,
    /// The least time that was measured, in milliseconds.
    pub least: u64,
}

impl RoundTrip {
    /// The round trip after one time was measured, in milliseconds.
    fn first(millis: u64) -> Self
        requires { millis ≤ MOST_TRIP }
        ensures { result ≡ first_trip millis }
    {
        RoundTrip {
            eighths: 8 * millis,
            spread: 2 * millis,
            times: 1,
            least: millis,
        }
    }

    /// The round trip after a further time was measured, in milliseconds.
    fn joined(self, millis: u64) -> Self
        requires { millis ≤ MOST_TRIP }
        ensures { result ≡ joined_trip self millis }
    {
        let smoothed = self.eighths / 8;
        let off = smoothed.max(millis) - smoothed.min(millis);
        RoundTrip {
            eighths: self.eighths - smoothed + millis,
            spread: self.spread - self.spread / 4 + off,
            times: self.times.saturating_add(1).min(SURE_TIMES),
            least: self.least.min(millis),
        }
    }

    /// The round trip after a time was measured, in milliseconds, of which at most [`MOST_TRIP`]
    /// count.
    pub(crate) fn after(trip: Option<Self>, millis: u64) -> Self
        ensures { result ≡ trip_after trip millis }
    {
        let millis = millis.min(MOST_TRIP);
        match trip {
            Some(trip) => trip.joined(millis),
            None => RoundTrip::first(millis),
        }
    }

    /// Whether packets wait in a queue of the line: the smoothed time is well above the least. Where
    /// the least time is short, a queue can't be told from the moments between turns.
    pub fn is_crowded(self) -> bool
        // The least time is below 20 milliseconds, or the smoothed time is more than a fourth and 5
        // milliseconds above it.
        ensures { result ≡ is_crowded self }
    {
        let least = self.least.min(MOST_TRIP);
        least < LEAST_INTERVAL || self.eighths / 8 >= least + least / 4 + 5
    }

    /// After how many milliseconds without a receipt an item counts as lost: the smoothed time and
    /// four times the deviation, or the longest wait of a turn where that is more.
    pub(crate) fn interval(self) -> u64
        ensures { result ≡ trip_interval self }
    {
        let least = if self.times < SURE_TIMES {
            UNSURE_INTERVAL
        } else {
            LEAST_INTERVAL
        };
        (self.eighths / 8 + self.spread.min(MOST_INTERVAL).max(MAX_WAIT))
            .max(least)
            .min(MOST_INTERVAL)
    }
}

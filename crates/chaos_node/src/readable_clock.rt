//! What a clock shows.
ghost use Rattle.std.specs.Prelude.{ℕ, IfErr, IfOk};
ghost use Rattle.std.specs.Duration.{as_nanos};

use std::io;
use std::time::{Clock, Duration};

/// A clock that can be read. Any [`Clock`] is one, of which nothing is claimed, as nobody knows
/// what the time is.
pub trait ReadableClock {
    /// The nanoseconds, since a start of its own, that it may show.
    ghost shows: { Self → ℕ → Type 0 };

    /// The nanoseconds since 1970 that it may show.
    ghost dates: { Self → ℕ → Type 0 };

    /// That it may be one that can't be read.
    ghost fails: { Self → Type 0 };

    /// The time since a start of the clock's own.
    ///
    /// # Errors
    /// Where the clock can't be read.
    fn since_start(&self) -> io::Result<Duration>
        // The clock shows only a time of its own that it may show.
        ensures shown { IfOk result (λ time. shows self.now (as_nanos time)) }
        // It fails only where the clock is one that can't always be read.
        ensures fails { IfErr result (λ _. fails self.now) };

    /// The time since 1970.
    ///
    /// # Errors
    /// Where the clock can't be read.
    fn date(&self) -> io::Result<Duration>
        // The clock shows only a time since 1970 that it may show.
        ensures shown { IfOk result (λ time. dates self.now (as_nanos time)) }
        // It fails only where the clock is one that can't always be read.
        ensures fails { IfErr result (λ _. fails self.now) };
}

impl<C: Clock> ReadableClock for C {
    ghost shows = { λ _ _. Unit {0} };

    ghost dates = { λ _ _. Unit {0} };

    ghost fails = { λ _. Unit {0} };

    fn since_start(&self) -> io::Result<Duration> {
        self.monotonic()
    }

    fn date(&self) -> io::Result<Duration> {
        self.since_1970()
    }
}

//! The lines of a log, as they are written.
use jiff::Timestamp;
use std::fmt::Display;
use std::time::Clock;

/// Writes lines to standard error, each with the time in front where that is asked for. A line that
/// can't be written is dropped.
#[derive(Clone, Copy)]
pub struct LogLines<'a, R> {
    rt: &'a R,
    is_timed: bool,
}

impl<'a, R: Clock + Eprint> LogLines<'a, R> {
    /// Lines with the time in UTC in front, as RFC 3339 has it, or without.
    pub fn new(rt: &'a R, is_timed: bool) -> Self {
        LogLines { rt, is_timed }
    }

    /// The time now, where it is asked for and can be read.
    fn time(&self) -> Option<Timestamp> {
        if !self.is_timed {
            return None;
        }
        let since = self.rt.since_1970().ok()?;
        let seconds = i64::try_from(since.as_secs()).ok()?;
        Timestamp::from_second(seconds).ok()
    }

    /// Writes a line.
    pub fn write<D: Display>(&self, line: &D) {
        let _ = match self.time() {
            Some(time) => eprintln!(self.rt; "{time} chaosd: {line}"),
            None => eprintln!(self.rt; "chaosd: {line}"),
        };
    }
}

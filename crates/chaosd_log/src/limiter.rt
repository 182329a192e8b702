//! How many lines about each topic a log writes in a second.
ghost use Rattle.std.specs.Prelude.{◌≡◌, ◌<◌};
ghost use Rattle.chaosd_log.specs.declared.level.TheConstants.{TOPICS};
ghost use Rattle.chaosd_log.specs.Limiter.{has_room, in_second, is_below, is_due, limit_of, no_lines, tally_of, with_line, with_report, with_tally};

use crate::level::{TOPICS, Topic};
use std::marker::Model;

/// The lines about one topic: those that were written in a second of the clock, and those that
/// were left out and not reported yet.
#[derive(Clone, Copy)]
pub struct Tally {
    /// The second in which the last line came.
    second: u64,
    /// How many lines were written in it.
    written: u64,
    /// How many lines were left out since the last report.
    left_out: u64,
}

/// The most lines about a topic in a second. `None` is no limit: a line about a change is never
/// left out.
fn limit_of(topic: Topic) -> Option<u64>
    ensures { result ≡ limit_of topic }
{
    match topic {
        Topic::Change => None,
        Topic::Read => Some(200),
        _ => Some(20),
    }
}

/// Whether one more line than so many is within the limit.
fn is_below(limit: Option<u64>, count: u64) -> bool
    ensures { result ≡ is_below limit count }
{
    match limit {
        None => true,
        Some(limit) => count < limit,
    }
}

impl Tally {
    ghost use Rattle.std.specs.Prelude.{◌≡◌};
    ghost use Rattle.chaosd_log.specs.Limiter.{has_room, in_second, is_due, no_lines, with_line, with_report};

    /// No line came.
    const NONE: Tally = Tally {
        second: 0,
        written: 0,
        left_out: 0,
    };

    /// The tally in this second.
    fn in_second(self, now: u64) -> Tally
        ensures { result ≡ in_second now self }
    {
        if self.second < now {
            return Tally {
                second: now,
                written: 0,
                ..self
            };
        }
        self
    }

    /// A line comes in this second. Says whether the line is to be written.
    fn take_line(&mut self, limit: Option<u64>, now: u64) -> bool
        ensures room { result ≡ has_room limit now self.old }
        ensures tally { self.new ≡ with_line limit now self.old }
    {
        let mut tally = self.in_second(now);
        let is_written = is_below(limit, tally.written);
        if is_written {
            tally.written = tally.written.saturating_add(1);
        } else {
            tally.left_out = tally.left_out.saturating_add(1);
        }
        *self = tally;
        is_written
    }
}

/// How many lines about each topic were written in a second of the clock, and how many were left
/// out. A contract sees the tallies of all topics, in the order of their places.
#[derive(Drop)]
pub struct Limiter {
    tallies: [Tally; TOPICS],
}

impl Model for Limiter {
    ghost use Rattle.std.specs.Prelude.{List};
    ghost use Rattle.chaosd_log.specs.declared.limiter.Tally.{Tally};

    ghost Value = { List Tally };

    ghost view = { λ s. s.tallies };
}

impl Limiter {
    ghost use Rattle.std.specs.Prelude.{◌≡◌, ◌<◌, ◌↔◌, IsTrue, replicate};
    ghost use Rattle.std.specs.List.{Any};

    /// The limiter of a log that has written no line.
    pub fn new() -> Self
        // A new limiter has counted no line.
        ensures { result ≡ replicate TOPICS no_lines }
    {
        Limiter {
            tallies: [Tally::NONE; TOPICS],
        }
    }

    /// A line about this topic comes in this second of the clock. Says whether the line is to be
    /// written; otherwise the line is counted as left out.
    pub fn take_line(&mut self, topic: Topic, now: u64) -> bool
        // A line is to be written exactly where fewer lines about its topic than the limit were
        // written in its second. A second that isn't later than the last one counts as the last
        // one. A line about a change is always written.
        ensures room { result ≡ has_room (limit_of topic) now (tally_of topic self.old) }
        // The line is counted once, as written or as left out, in the tally of its topic alone.
        ensures tallies { self.new
            ≡ with_tally topic (with_line (limit_of topic) now (tally_of topic self.old))
            self.old }
    {
        self.tallies[topic.place()].take_line(limit_of(topic), now)
    }

    /// Whether any line was left out that wasn't reported yet.
    pub fn has_left_out(&self) -> bool
        // The result is true exactly where a topic has lines that were left out and not reported.
        ensures { IsTrue result ↔ Any (λ tally. 0 < tally.left_out) self.now }
    {
        self.tallies.iter().any(|tally| tally.left_out > 0)
    }

    /// Whether lines about this topic were left out in a second that is over in this second.
    pub fn is_due(&self, topic: Topic, now: u64) -> bool
        // A report of a topic is due exactly where lines were left out that weren't reported, and
        // the last line came in an earlier second.
        ensures { result ≡ is_due now (tally_of topic self.now) }
    {
        let tally = &self.tallies[topic.place()];
        tally.left_out > 0 && tally.second < now
    }

    /// How many lines about this topic were left out since the last call.
    pub fn take_left_out(&mut self, topic: Topic) -> u64
        // The number is that of all lines about the topic that were left out since the last
        // report.
        ensures count { result ≡ (tally_of topic self.old).left_out }
        // None is left to report of that topic, and nothing else changes.
        ensures tallies { self.new
            ≡ with_tally topic (with_report (tally_of topic self.old)) self.old }
    {
        let tally = &mut self.tallies[topic.place()];
        let left_out = tally.left_out;
        tally.left_out = 0;
        left_out
    }
}

//! What a line of a log is about, and which lines a log has.
ghost use Rattle.std.specs.Prelude.{◌≡◌, ◌<◌};
ghost use Rattle.chaosd_log.specs.declared.level.TheConstants.{TOPICS};
ghost use Rattle.chaosd_log.specs.Level.{has_topic, place_of_topic};

use std::fmt;
use std::fmt::{Display, Formatter};

/// How much of what happens is logged.
#[derive(Clone, Copy, Debug, PartialEq, Eq)]
pub enum Level {
    /// Mistakes and faults alone.
    Quiet,
    /// Those, connections, changes of files, and requests that failed.
    Normal,
    /// Those, and each file that is read.
    All,
}

/// What a line of a log is about.
#[derive(Clone, Copy, Debug, PartialEq, Eq)]
pub enum Topic {
    /// A mistake of who set the server up, or what the system refused.
    Fault,
    /// A send or a receive that failed.
    Socket,
    /// A host that asks from where the server doesn't know it.
    Stranger,
    /// The server itself.
    Service,
    /// A connection.
    Connection,
    /// A file that changed.
    Change,
    /// A request for a file that failed.
    Refusal,
    /// A file that was read.
    Read,
}

/// How many topics there are.
pub const TOPICS: usize = 8;

impl Topic {
    /// Each topic, in the order of their places.
    pub const EACH: [Topic; TOPICS] = [
        Topic::Fault,
        Topic::Socket,
        Topic::Stranger,
        Topic::Service,
        Topic::Connection,
        Topic::Change,
        Topic::Refusal,
        Topic::Read,
    ];

    /// The place of the topic in a table of all topics.
    pub fn place(self) -> usize
        // Each topic has its place in a table of eight.
        ensures place { result ≡ place_of_topic self }
        ensures bound { result < TOPICS }
    {
        match self {
            Topic::Fault => 0,
            Topic::Socket => 1,
            Topic::Stranger => 2,
            Topic::Service => 3,
            Topic::Connection => 4,
            Topic::Change => 5,
            Topic::Refusal => 6,
            Topic::Read => 7,
        }
    }
}

/// What the lines are about, as a report of lines that were left out has it.
impl Display for Topic {
    fn fmt<W: fmt::Write>(&self, f: &mut Formatter<W>) -> fmt::Result {
        let words = match self {
            Topic::Fault => "faults",
            Topic::Socket => "the socket",
            Topic::Stranger => "unknown hosts",
            Topic::Service => "the server",
            Topic::Connection => "connections",
            Topic::Change => "changed files",
            Topic::Refusal => "failed requests",
            Topic::Read => "files that were read",
        };
        f.write_str(words)
    }
}

impl Level {
    /// Whether a log of this level has lines about the topic.
    pub fn has(self, topic: Topic) -> bool
        // Each level logs faults, errors of a socket and unknown hosts. `All` alone logs files that
        // are read. Each level but `Quiet` logs the rest.
        ensures { result ≡ has_topic self topic }
    {
        match (self, topic) {
            (_, Topic::Fault | Topic::Socket | Topic::Stranger) => true,
            (Level::Quiet, _) => false,
            (Level::Normal, Topic::Read) => false,
            _ => true,
        }
    }
}

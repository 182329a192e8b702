//! How long a client waits for a reply.
ghost use Rattle.std.specs.Prelude.{◌≡◌};
ghost use Rattle.file_client.specs.Patience.{first_wait_of, is_spent, millis_waited, usual_patience};

use crate::limits::{COMMAND_TURNS, OPEN_MILLIS, OPEN_SHARE};

/// How long a reply is waited for.
#[derive(Clone, Copy, Debug, PartialEq, Eq)]
pub enum Patience {
    /// For so many turns, however long they take.
    Turns(u32),
    /// For so many milliseconds by the clock, however many turns that takes.
    Millis(u64),
}

impl Patience {
    /// The usual patience: 1,000 turns.
    pub fn usual() -> Self
        // The usual patience is the definition's.
        ensures { result ≡ usual_patience }
    {
        Patience::Turns(COMMAND_TURNS)
    }

    /// The milliseconds for which an OPN is waited for before another connection is asked for:
    /// [`OPEN_MILLIS`], or a share of what a reply is waited for, where that is less. So a client
    /// of little patience asks again in time, too.
    pub(crate) fn first_wait(self) -> u64
        // The first OPN is waited for as long as the definition says for this patience.
        ensures { result ≡ first_wait_of self }
    {
        match self {
            Patience::Turns(_) => OPEN_MILLIS,
            Patience::Millis(millis) => (millis / OPEN_SHARE).min(OPEN_MILLIS),
        }
    }

    /// The milliseconds for which a reply is waited for, where the clock counts.
    pub fn millis(self) -> Option<u64>
        // A patience in milliseconds gives its number, and a patience in turns gives none.
        ensures { result ≡ millis_waited self }
    {
        match self {
            Patience::Turns(_) => None,
            Patience::Millis(millis) => Some(millis),
        }
    }

    /// Whether a reply was waited for long enough, after so many turns and milliseconds.
    pub(crate) fn is_spent(self, turns: u32, millis: u64) -> bool
        ensures { result ≡ is_spent self turns millis }
    {
        match self {
            Patience::Turns(most) => turns >= most,
            Patience::Millis(most) => millis >= most,
        }
    }
}

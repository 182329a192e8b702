//! What a running net knows of a slot.
ghost use Rattle.std.specs.Prelude.{◌≡◌, ◌<◌};
ghost use Rattle.chaos_net.specs.Kept.{before, after, joined};

use crate::mark::Mark;

/// A slot as a running net knows it.
#[derive(Clone, Copy, Debug, PartialEq, Eq)]
pub(crate) struct Seat {
    /// How many connections it had before the present one, or the next where it is free.
    pub(crate) turn: u64,
    /// How many connections the slot of the present one's peer had before that, where the peer is
    /// known.
    pub(crate) peer: Option<u64>,
}

impl Seat {
    /// The seat as its connection sends, when it has got the mark.
    pub(crate) fn before(self, mark: Mark) -> Seat
        ensures { result ≡ before mark self }
    {
        match mark {
            Mark::Stays | Mark::Frees => self,
            Mark::Begins(peer) => Seat {
                turn: self.turn,
                peer,
            },
            Mark::Joins(peer) => Seat {
                turn: self.turn,
                peer: joined(self.peer, peer),
            },
        }
    }

    /// The seat after that, where so many events happened.
    pub(crate) fn after(self, mark: Mark, events: u64) -> Seat
        requires { self.turn < events }
        ensures { result ≡ after mark self }
    {
        match mark {
            Mark::Frees => Seat {
                turn: self.turn + 1,
                peer: None,
            },
            _ => self,
        }
    }
}

/// A peer that is known stays.
fn joined(peer: Option<u64>, new: Option<u64>) -> Option<u64>
    ensures { result ≡ joined peer new }
{
    match peer {
        Some(peer) => Some(peer),
        None => new,
    }
}

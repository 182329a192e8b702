//! How a turn ended.
ghost use Rattle.std.specs.Prelude.{◌≡◌, ◌↔◌, true, if◌then◌else◌};
ghost use Rattle.chaos_packet.specs.Count.{Rose};
ghost use Rattle.chaos_node.specs.End.{TellsWork};

/// What a turn came to: work, no work, or a link that failed.
#[derive(Clone, Copy, Debug, PartialEq, Eq)]
pub enum TurnEnd {
    /// Nothing came, and no packet was sent.
    Idle,
    /// A datagram came, or a packet was sent.
    Worked,
    /// The link failed in the turn, as its count of failures shows. The turn went on to its end.
    LinkFault,
}

/// How a turn ended, by the link's count of failures before and after it, by whether there was work
/// at its begin, and by whether a packet was sent since.
pub fn end_of(before: u64, after: u64, worked: bool, sent: bool) -> TurnEnd
    // A turn ended by LinkFault exactly where the link's count of failures rose from the first to
    // the second, or stands at its greatest.
    ensures fault { (result ≡ TurnEnd.LinkFault) ↔ Rose before after }
    // Otherwise it ended as Worked or Idle, by whether there was work or a packet was sent.
    ensures work { TellsWork (if worked then true else sent) result }
{
    if before < after || after == u64::MAX {
        TurnEnd::LinkFault
    } else if worked || sent {
        TurnEnd::Worked
    } else {
        TurnEnd::Idle
    }
}

/// Whether there was work in any of three parts of a turn.
pub fn any_of(a: bool, b: bool, c: bool) -> bool
    // The answer is whether any of the three holds.
    ensures { result ≡ (if a then true else (if b then true else c)) }
{
    a || b || c
}

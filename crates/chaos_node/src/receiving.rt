//! What comes from a link.
ghost use Rattle.std.specs.Prelude.{◌≡◌, [], ◌∷◌, IfSome};
ghost use Rattle.chaos_link.specs.Link.{Asks, Receive};
ghost use Rattle.chaos_node.specs.Arrive.{Receives};

use chaos_link::{LINK_ROOM, Link, LinkFault, Packets, Received, open_datagram};

/// Receives at most one datagram into the buffer, for which the link may wait where `may_wait` says
/// so. The answer is the packets that the datagram carries, of either version, which lie in the
/// buffer, or why it carries none. The answer is `None` where no datagram came or the link failed,
/// as its count of failures shows. It takes no memory.
pub(crate) fn receive<'a, L: Link>(
    link: &mut L,
    buffer: &'a mut [u8; LINK_ROOM],
    may_wait: bool,
) -> Option<Result<Packets<'a>, LinkFault>>
    // What is received from a queue is its oldest datagram: its packets, of either version, or why
    // it carries none. From an empty queue nothing is received. The other datagrams stay.
    ensures queued { IfSome (L.queue link.old) (Receives result (L.queue link.new)) }
    // Something is received only where the link counted no failure.
    ensures counted { IfSome result (λ _. L.count link.new ≡ L.count link.old) }
    // The link is asked once to receive, for which it may wait exactly where `may_wait` says so,
    // and to send nothing.
    ensures asked { Asks (L.asked link.old) (L.asked link.new) (Receive may_wait ∷ []) }
{
    match link.receive(buffer, may_wait) {
        Received::Got(count) => Some(open_datagram(&buffer[..count])),
        _ => None,
    }
}

//! How a turn begins over a link, whatever is done in it.
ghost use Rattle.std.specs.Prelude.{◌≡◌, []};
ghost use Rattle.chaos_link.specs.Link.{Asks};
ghost use Rattle.chaos_node.specs.Begin.{Begins};

use crate::receiving::receive;
use crate::sending::send_all;
use chaos_link::{Carriage, LINK_ROOM, Link, LinkFault, Packets};
use chaos_packet::Outbox;

/// What the begin of a turn found.
#[derive(Drop)]
pub struct Begun<'a> {
    /// The link's count of failures before the turn.
    pub failures: u64,
    /// Whether a packet waited, or a datagram came.
    pub worked: bool,
    /// What came: the packets of a datagram, or why the datagram carries none. `None` where no
    /// datagram came.
    pub came: Option<Result<Packets<'a>, LinkFault>>,
}

/// Begins a turn: sends what waits, then receives at most one datagram into the buffer. The link
/// may wait for one where `may_wait` says so.
pub fn begin<'a, L: Link>(
    link: &mut L,
    out: &mut Outbox,
    carriage: Carriage,
    buffer: &'a mut [u8; LINK_ROOM],
    may_wait: bool,
) -> Begun<'a>
    // The link's count of failures before the turn is reported.
    ensures failures { result.failures ≡ L.count link.old }
    // What waits is sent. Then, over a queue, what came is its oldest datagram. Any link is asked
    // to send what waits and then once to receive. Whether a packet waited or a datagram came is
    // reported.
    ensures begins { Begins (Asks (L.asked link.old) (L.asked link.new)) may_wait carriage
        out.old.packets (L.queue link.old) (L.queue link.new) result.came result.worked }
    // The outbox is empty afterwards.
    ensures outbox { out.new ≡ record { packets = []; cap = out.old.cap } }
{
    let failures = link.failures();
    let waited = send_all(link, out, carriage);
    let came = receive(link, buffer, may_wait);
    let worked = came.is_some() || waited;
    Begun {
        failures,
        worked,
        came,
    }
}

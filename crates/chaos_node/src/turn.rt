//! A turn that has begun.
ghost use Rattle.std.specs.Prelude.{◌≡◌, ◌≤◌, []};
ghost use Rattle.chaos_node.specs.declared.limits.TheConstants.{TURN_ROOM};

use crate::limits::TURN_ROOM;
use chaos_host::Host;
use chaos_link::{Carriage, Link};
use chaos_packet::Outbox;

/// A turn that has begun, by [`begin`](crate::begin): a host at its link, at a moment.
///
/// Each phase of the turn calls the host with this outbox, and sends at once what the call put out,
/// by [`send_all`](crate::send_all) or [`send_singly`](crate::send_singly). So nothing waits in the
/// outbox before a phase or after it.
#[derive(Drop)]
pub struct Turn<'a, L: Link> {
    /// The host whose turn it is.
    pub host: &'a mut Host,
    /// The link into which packets go.
    pub link: &'a mut L,
    /// The outbox of the host's calls. It has room for [`TURN_ROOM`] packets.
    pub out: &'a mut Outbox,
    /// In which version of datagrams packets go out.
    pub carriage: Carriage,
    /// The moment, in milliseconds.
    pub now: u64,
    pub ghost room: { TURN_ROOM ≤ out.now.cap },
    pub ghost empty: { out.now.packets ≡ [] },
}

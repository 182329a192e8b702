//! Which connections of a server open and end.
ghost use Rattle.std.specs.Prelude.{◌≡◌, ◌<◌, None, length, replicate, slice_get};
ghost use Rattle.chaos_host.specs.View.{host_look};
ghost use Rattle.file_server.specs.Sessions.{serving_at};
ghost use Rattle.file_server.specs.Watch.{after_change, ending_of, is_down, is_same, is_unacknowledged, peer_at, resent_by, seen_at, watched, watched_at};

use crate::limits::SERVER_CONNS;
use crate::log::{Ending, Log};
use crate::sessions::Sessions;
use chaos_conn::{End, State};
use chaos_host::{ConnId, Host};
use chaos_node::RetransmitTimer;

/// A connection that was seen in a slot.
#[derive(Clone, Copy)]
pub struct Seen {
    id: ConnId,
    peer: End,
    /// Whether its peer's host was heard no more: the next turn releases it.
    is_down: bool,
    /// Whether its peer has acknowledged nothing that was sent to it.
    is_unacknowledged: bool,
}

/// What was seen in each slot of a server behind its last turn.
#[derive(Drop)]
pub struct Watch {
    pub(crate) seen: [Option<Seen>; SERVER_CONNS],
}

impl Watch {
    /// No connection was seen yet: the server has made no turn.
    pub fn new() -> Self
        ensures { result.seen ≡ replicate SERVER_CONNS None }
    {
        Watch {
            seen: [None; SERVER_CONNS],
        }
    }

    /// Looks at a slot, and logs the connection there that opened or ended since the last look. A
    /// connection that opened and ended between two looks isn't logged.
    pub fn look<G: Log>(
        &mut self,
        host: &Host,
        sessions: &Sessions,
        timers: &[RetransmitTimer],
        place: usize,
        log: &mut G,
    )
        requires slot { place < SERVER_CONNS }
        requires session { place < length sessions.now }
        ensures { watched self.new.seen (G.logged log.new)
            ≡ watched_at timers.now host.now sessions.now place (watched self.old.seen (G.logged log.old)) }
    {
        let there = seen_at(host, place);
        log_change(&self.seen[place], &there, sessions, timers, place, log);
        self.seen[place] = there;
    }
}

/// The connection in a slot, where one is there.
fn seen_at(host: &Host, place: usize) -> Option<Seen>
    ensures { result ≡ seen_at host.now place }
{
    let id = host.id_of(place)?;
    Some(Seen {
        id,
        peer: peer_of(host, id),
        is_down: is_down(host, id),
        is_unacknowledged: is_unacknowledged(host, id),
    })
}

/// The peer of a connection. A server's connections were asked for, so that the peer's index is
/// known.
pub(crate) fn peer_of(host: &Host, id: ConnId) -> End
    ensures { result ≡ peer_at host.now id }
{
    match host.peer(id) {
        Ok(Some((address, index))) => End {
            address,
            index: index.unwrap_or(0),
        },
        _ => End {
            address: 0,
            index: 0,
        },
    }
}

/// Whether the peer's host was heard no more.
fn is_down(host: &Host, id: ConnId) -> bool
    ensures { result ≡ is_down (host_look host.now id (λ conn. conn.state)) }
{
    matches!(host.state(id), Ok(State::HostDown))
}

/// Whether the peer has acknowledged nothing that was sent to it.
fn is_unacknowledged(host: &Host, id: ConnId) -> bool
    ensures { result ≡ is_unacknowledged (host_look host.now id (λ conn. conn)) }
{
    match host.conn(id) {
        Ok(conn) => conn.keeps_opn(),
        Err(_) => false,
    }
}

/// Whether two looks saw the same connection, or none.
fn is_same(was: &Option<Seen>, there: &Option<Seen>) -> bool
    ensures { result ≡ is_same was.now there.now }
{
    match (was, there) {
        (None, None) => true,
        (Some(was), Some(there)) => was.id == there.id,
        _ => false,
    }
}

/// Why a connection ended, by the first of these that is so.
fn ending_of(is_down: bool, eof: bool, is_unacknowledged: bool) -> Ending
    ensures { result ≡ ending_of is_down eof is_unacknowledged }
{
    if is_down {
        Ending::HostDown
    } else if eof {
        Ending::Done
    } else if is_unacknowledged {
        Ending::Unacknowledged
    } else {
        Ending::Closed
    }
}

/// How often the timer of a slot saw that kept items of this connection were sent again.
fn resent_at(timers: &[RetransmitTimer], place: usize, id: ConnId) -> u64
    ensures { result ≡ resent_by id (slice_get timers.now place) }
{
    match timers.get(place) {
        Some(timer) => {
            if timer.id == Some(id) {
                timer.retransmissions
            } else {
                0
            }
        }
        None => 0,
    }
}

/// Logs what changed in a slot since the last look.
fn log_change<G: Log>(
    was: &Option<Seen>,
    there: &Option<Seen>,
    sessions: &Sessions,
    timers: &[RetransmitTimer],
    place: usize,
    log: &mut G,
)
    requires { place < length sessions.now }
    ensures { G.logged log.new
        ≡ after_change was.now there.now (serving_at sessions.now place)
        (slice_get timers.now place) (G.logged log.old) }
{
    if is_same(was, there) {
        return;
    }
    if let Some(was) = was {
        let ending = ending_of(was.is_down, sessions.eof(place), was.is_unacknowledged);
        log.ended(
            was.peer,
            sessions.name(place),
            sessions.commands(place),
            resent_at(timers, place, was.id),
            ending,
        );
    }
    if let Some(there) = there {
        log.opened(there.peer);
    }
}

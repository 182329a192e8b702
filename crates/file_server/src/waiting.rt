//! Whether a turn is to wait.
ghost use Rattle.std.specs.Prelude.{◌≡◌, ◌<◌, length};
ghost use Rattle.chaos_host.specs.View.{id_at};
ghost use Rattle.file_server.specs.Waiting.{can_serve_any, serves_by, waits};

use chaos_file::can_serve;
use chaos_host::Host;
use chaos_node::{RetransmitTimer, resends_any};

/// Whether the connection in a slot has something to serve.
fn serves_at(host: &Host, place: usize) -> bool
    ensures { result ≡ serves_by host.now (id_at host.now place) }
{
    match host.id_of(place) {
        Some(id) => can_serve(host, id),
        None => false,
    }
}

/// Whether any connection has something to serve: a command in front for whose reply there is room,
/// or an EOF. If so, a server's turn over the host must not wait for a datagram. The cost is a look
/// at each slot in use, up to the first that has something.
pub fn can_serve_any(host: &Host) -> bool
    // The result says whether any connection of the host has something to serve.
    ensures { result ≡ can_serve_any host.now }
{
    let mut from = 0;
    'slots: while let Some((place, _, _)) = host.next_conn(from) {
        if serves_at(host, place) {
            return true;
        }
        from = place + 1;
    }
    false
}

/// Whether a turn of this host waits for a datagram: where its caller lets it, no connection has
/// anything to serve, and no tick of the turn sends kept items again by these timers.
pub(crate) fn waits(timers: &[RetransmitTimer], now: u64, may_wait: bool, host: &Host) -> bool
    ensures { result ≡ waits timers.now now may_wait host.now }
{
    may_wait && !can_serve_any(host) && !resends_any(timers, host, now)
}

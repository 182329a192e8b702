//! What a timer shows of the line to the server.
ghost use Rattle.std.specs.Prelude.{◌≡◌, slice_get};
ghost use Rattle.file_client.specs.Line.{crowded_by, resent_by};

use chaos_node::RetransmitTimer;

/// How often the first timer saw that kept items were sent again.
pub(crate) fn resent_in(timers: &[RetransmitTimer]) -> u64
    ensures { result ≡ resent_by (slice_get timers.now 0) }
{
    match timers.get(0) {
        Some(timer) => timer.retransmissions,
        None => 0,
    }
}

/// Whether packets wait in a queue of the line, as far as the first timer's round trip shows.
pub(crate) fn is_crowded_in(timers: &[RetransmitTimer]) -> bool
    ensures { result ≡ crowded_by (slice_get timers.now 0) }
{
    match timers.get(0) {
        Some(timer) => match timer.trip {
            Some(trip) => trip.is_crowded(),
            None => true,
        },
        None => true,
    }
}

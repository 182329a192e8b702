//! Sizes, each with its unit.

/// The packets for which the outbox of a turn has room at least: a send window and more.
pub const TURN_ROOM: usize = 66;

/// The milliseconds after which kept items are sent again, before a round trip was measured.
pub const FIRST_INTERVAL: u64 = 500;

/// The least of these milliseconds where [`SURE_TIMES`] round trips were measured.
pub const LEAST_INTERVAL: u64 = 20;

/// The least of these milliseconds where fewer round trips were measured.
pub const UNSURE_INTERVAL: u64 = 200;

/// So many round trips show how long a line takes. The first three of a copy are of short packets
/// alone: of the request, of LOGIN and of OPEN.
pub const SURE_TIMES: u64 = 4;

/// The most of these milliseconds where a round trip was measured.
pub const MOST_INTERVAL: u64 = 10_000;

/// The most of these milliseconds after retransmissions without progress.
pub const MOST_BACKED_OFF: u64 = 60_000;

/// The greatest factor by which these milliseconds grow: no further factor changes them.
pub const MOST_FACTOR: u64 = 4096;

/// The most milliseconds of a round trip that count.
pub const MOST_TRIP: u64 = 60_000;

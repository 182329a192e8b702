//! How a turn is made.

use crate::serve_mode::ServeMode;
use chaos_node::RetransmitTimer;
use chaos_packet::PktNum;
use std::alloc::Global;

/// What a turn of a server is handed beside what it works on.
#[derive(Drop)]
pub(crate) struct TurnInput<'a> {
    /// Where memory is taken.
    pub(crate) alloc: Global,
    /// The number from which on a new connection numbers what it writes.
    pub(crate) start: PktNum,
    /// How each slot is served.
    pub(crate) mode: ServeMode,
    /// For how many milliseconds a peer is served that acknowledges nothing. `None`: as long as it
    /// is heard.
    pub(crate) silence: Option<u64>,
    /// A timer for each slot. Without any, each slot is ticked.
    pub(crate) timers: &'a [RetransmitTimer],
}

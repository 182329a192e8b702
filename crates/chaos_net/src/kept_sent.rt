//! A packet that was sent, as a running net keeps it.

use chaos_lab::KeptPacket;

/// A packet that was sent, in as much memory as it needs, and what tells whether it is still fresh.
#[derive(Drop)]
pub struct KeptSent {
    pub packet: KeptPacket,
    /// How many connections its sender's slot had before the sender, where a connection sent it.
    pub(crate) by: Option<u64>,
    /// How many the slot of the sender's peer had before that peer, where it is known.
    pub(crate) meant: Option<u64>,
    /// How many events there were then, that by which it was sent counted.
    pub(crate) at: u64,
}

//! A packet that was sent, with its stamp.

use crate::kept_packet::KeptPacket;
use crate::side::Side;

/// A packet that was sent, and its stamp: how many items each end had written after the call that
/// sent the packet, with the packet's own item counted.
#[derive(Drop)]
pub struct Stamped {
    /// The end that sent it.
    pub side: Side,
    pub packet: KeptPacket,
    /// How many items A had written.
    pub len_a: usize,
    /// How many items B had written.
    pub len_b: usize,
}

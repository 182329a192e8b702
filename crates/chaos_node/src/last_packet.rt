//! The last packet that came in a turn.
ghost use Rattle.std.specs.Prelude.{◌≡◌, None};
ghost use Rattle.chaos_packet.specs.Packet.{blank};

use chaos_host::HostDisposition;
use chaos_packet::Packet;

/// The last packet that came in a turn, and what became of it. A caller keeps one from turn to
/// turn: packets are read into its place, and none is copied.
#[derive(Drop)]
pub struct LastPacket {
    /// What became of the packet, as [`Host::take`](chaos_host::Host::take) answered. `None` where
    /// no packet came in the last turn.
    pub became: Option<HostDisposition>,
    /// The packet, where what became of it hands the packet out: [`HostDisposition::with_packet`].
    pub packet: Packet,
}

impl Default for LastPacket {
    fn default() -> Self
        // No packet came yet.
        ensures { result ≡ record { became = None; packet = blank } }
    {
        LastPacket {
            became: None,
            packet: Packet::default(),
        }
    }
}

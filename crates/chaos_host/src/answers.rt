//! What became of a packet at a host.
ghost use Rattle.std.specs.Prelude.{◌≡◌};
ghost use Rattle.chaos_host.specs.Disposition.{host_with_packet};

use crate::index::ConnId;
use chaos_conn::{Delivered, Disposition, Why};
use chaos_packet::Packet;

/// What became of a packet at a host, without the packet.
#[derive(Clone, Copy, Debug, PartialEq, Eq)]
pub enum HostDisposition {
    /// It is a request, which the new connection with this index holds until the user accepts it or
    /// turns it away.
    Requested(ConnId),
    /// It went to the connection with this index, where this became of it.
    At(ConnId, Disposition),
    /// It asks for a contact that nobody listens to, and was refused by a CLS.
    NoServer,
    /// It asks for a connection where every slot is in use, and was refused by a CLS.
    TableFull,
    /// It is for a connection that isn't here, and was answered by a LOS.
    NoConnection,
    /// Nothing was made of it, and nothing changed.
    Dropped(Why),
}

impl HostDisposition {
    /// The answer of [`Host::deliver`](crate::Host::deliver) for this packet.
    pub fn with_packet(self, packet: &Packet) -> HostDelivered
        // The answer is what became of the packet, with a copy of the packet where it is handed
        // out.
        ensures { result ≡ host_with_packet self packet.now }
    {
        match self {
            HostDisposition::Requested(id) => HostDelivered::Requested(id),
            HostDisposition::At(id, disposition) => HostDelivered::At(
                id,
                disposition.with_packet(packet),
            ),
            HostDisposition::NoServer => HostDelivered::NoServer,
            HostDisposition::TableFull => HostDelivered::TableFull,
            HostDisposition::NoConnection => HostDelivered::NoConnection,
            HostDisposition::Dropped(why) => HostDelivered::Dropped(why),
        }
    }
}

/// What became of a packet at a host.
#[derive(Debug, PartialEq, Eq, Drop)]
pub enum HostDelivered {
    /// It is a request, which the new connection with this index holds until the user accepts it or
    /// turns it away.
    Requested(ConnId),
    /// It went to the connection with this index, which answered this.
    At(ConnId, Delivered),
    /// It asks for a contact that nobody listens to, and was refused by a CLS.
    NoServer,
    /// It asks for a connection where every slot is in use, and was refused by a CLS.
    TableFull,
    /// It is for a connection that isn't here, and was answered by a LOS.
    NoConnection,
    /// Nothing was made of it, and nothing changed.
    Dropped(Why),
}

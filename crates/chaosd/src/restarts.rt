//! What of a hosts table that is read again needs a restart.
ghost use Rattle.std.specs.Prelude.{◌≡◌, ◌≢◌, ◌↔◌, IsTrue, Some};
ghost use Rattle.chaos_chudp.specs.Hops.{hop_of};

use chaos_chudp::Hops;
use chaos_link::Peer;
use chaosd_hosts::{Host, HostsTable};
use std::net::SocketAddrV4;
use thiserror::Error;

/// What changed in the first own entry of a table, as a line of the log has it.
#[derive(Clone, Copy, Debug, PartialEq, Eq, Error)]
pub(crate) enum OwnChange {
    /// The entry has other addresses than the server.
    #[error("the first entry self changed, which needs a restart")]
    Changed,
    /// There is no such entry.
    #[error("there is no entry self, which a restart needs")]
    Missing,
}

/// What a server has from its start on, whatever its hosts table says later.
#[derive(Drop)]
pub(crate) struct Start {
    /// The Chaosnet address.
    pub(crate) address: u16,
    /// The UDP address.
    pub(crate) socket: SocketAddrV4,
    /// The hops of packets in CHUDP.
    pub(crate) hops: Hops,
}

impl Start {
    /// Whether this entry has the addresses of the server.
    fn is_own(&self, entry: &Host<'_>) -> bool
        // The result is true exactly where both addresses of the entry are the server's.
        ensures { IsTrue result ↔ ((entry.now.address ≡ self.now.address)
            × (entry.now.udp ≡ Some self.now.socket)) }
    {
        entry.address == self.address && entry.udp == Some(self.socket)
    }

    /// What changed in the first own entry of this table.
    pub(crate) fn own_change(&self, table: &HostsTable<'_>) -> Option<OwnChange> {
        match table.selves() {
            [] => Some(OwnChange::Missing),
            [own, ..] if self.is_own(own) => None,
            [_, ..] => Some(OwnChange::Changed),
        }
    }

    /// Whether a peer of a table with this bridge is outside the bridge, and the hops lead to the
    /// bridge.
    pub(crate) fn misses(&self, peer: &Peer, bridge: Option<SocketAddrV4>) -> bool
        // The result is true exactly where the next hop to the peer is another host, and the peer
        // isn't at the UDP address of the bridge.
        ensures { IsTrue result ↔ ((hop_of peer.now.address self.now.hops ≢ peer.now.address)
            × (bridge ≢ Some peer.now.socket)) }
    {
        self.hops.next(peer.address) != peer.address && bridge != Some(peer.socket)
    }
}

//! Who keeps the peers of a link.
ghost use Rattle.std.specs.Prelude.{None, Option, Some};
ghost use Rattle.chaos_link.specs.Keeper.{Incoming, stays};
ghost use Rattle.chaos_link.specs.Peers.{PeersView};

use crate::peers::Peers;
use std::net::SocketAddrV4;

/// Who keeps the peers of a link. Each receive lets its link's keeper change the peers, once: after
/// a datagram was handed up, or after none was. Nothing else changes the peers of a link.
///
/// A keeper decides by itself, such as by what the datagram carries, or by a clock and a file that
/// the keeper owns.
pub trait PeerKeeper {
    /// What a keeper and its peers may become in a receive: the keeper and the peers before it, the
    /// datagram that was handed up, if any, and the keeper and the peers after it.
    ghost becomes: { Self → PeersView → Option Incoming → Self → PeersView → Type 0 };

    /// This datagram came from this UDP address, and is handed up.
    fn hear(&mut self, peers: &mut Peers, from: SocketAddrV4, datagram: &[u8])
        // The keeper and the peers become what they may become after this datagram.
        ensures { becomes self.old peers.old (Some (record { from = from; bytes = datagram.now }))
            self.new peers.new };

    /// No datagram came, or none from a UDP address of IPv4.
    fn rest(&mut self, peers: &mut Peers)
        // The keeper and the peers become what they may become after no datagram.
        ensures { becomes self.old peers.old None self.new peers.new };
}

/// Keeps the peers as they are.
#[derive(Clone, Copy, Debug)]
pub struct FixedPeers;

impl PeerKeeper for FixedPeers {
    ghost becomes = { stays };

    fn hear(&mut self, _peers: &mut Peers, _from: SocketAddrV4, _datagram: &[u8]) {}

    fn rest(&mut self, _peers: &mut Peers) {}
}

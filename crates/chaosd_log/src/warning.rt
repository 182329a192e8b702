//! What is wrong with a server's peers.
ghost use Rattle.std.specs.Prelude.{◌≡◌, Some};
ghost use Rattle.chaosd_log.specs.Warning.{WarnsOf, WarnsOfBridge, warning_of_nobody};

use chaos_link::{Peer, Peers};
use std::fmt;
use std::fmt::{Display, Formatter};
use std::net::SocketAddrV4;
use thiserror::Error;

/// Why a server can't answer somebody.
#[derive(Clone, Copy, Debug, PartialEq, Eq, Error)]
pub enum Warning {
    /// It has no peer, and follows no host.
    #[error("no PEER is given, so nobody is answered")]
    NoPeers,
    /// A peer has its Chaosnet address.
    #[error("PEER {0:o} has this host's own Chaosnet address, so what is sent there comes back here")]
    OwnAddress(u16),
    /// A peer is at its UDP address.
    #[error("PEER {0:o} is at this host's own UDP address, so it is never answered")]
    OwnSocket(u16),
    /// The bridge is at its UDP address.
    #[error("PEER * is at this host's own UDP address, so no host without a PEER is answered")]
    OwnBridge,
}

/// What is wrong with a peer of the host with this Chaosnet address at this UDP address.
pub fn warning_of(peer: &Peer, address: u16, socket: SocketAddrV4) -> Option<Warning>
    // There is a warning of a peer exactly where the peer has the host's Chaosnet address or,
    // otherwise, the host's UDP address.
    ensures { WarnsOf peer.now address socket result }
{
    if peer.address == address {
        return Some(Warning::OwnAddress(address));
    }
    if peer.socket == socket {
        return Some(Warning::OwnSocket(peer.address));
    }
    None
}

/// What is wrong with the bridge of a host at this UDP address.
pub fn bridge_warning_of(bridge: Option<SocketAddrV4>, socket: SocketAddrV4) -> Option<Warning>
    // There is a warning exactly where the bridge is at the host's own UDP address.
    ensures { WarnsOfBridge bridge socket result }
{
    if bridge == Some(socket) {
        Some(Warning::OwnBridge)
    } else {
        None
    }
}

/// That a server with these peers, which follows these hosts, answers nobody, if that is so.
pub fn nobody_warning_of(peers: &Peers, followed: &[u16]) -> Option<Warning>
    // There is a warning exactly where there is no peer, no bridge and no host that is followed.
    ensures { result ≡ warning_of_nobody peers.now followed.now }
{
    if peers.hosts().is_empty() && peers.bridge().is_none() && followed.is_empty() {
        Some(Warning::NoPeers)
    } else {
        None
    }
}

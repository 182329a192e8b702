//! Whom a line calls or serves: addresses that the line has, or names that the hosts table has.
ghost use Rattle.std.specs.Prelude.{◌≡◌, ◌<◌, ◌≢◌, ◌⊎◌, IfSome, None};

use arrayvec::ArrayVec;
use chaos_link::{MAX_PEERS, Peer, Peers};
use std::alloc::AllocError;
use std::net::SocketAddrV4;

/// The server that a line calls.
#[derive(Clone, Copy, Debug, PartialEq, Eq)]
pub enum Target<'a> {
    /// The line has the addresses of both ends.
    Addresses(Ends),
    /// The hosts table has both ends. This is the name of the server: 1 to 64 letters, digits,
    /// hyphens and dots, one of them a letter.
    Name(&'a str),
}

/// The two ends of a call.
#[derive(Clone, Copy, Debug, PartialEq, Eq)]
pub struct Ends {
    /// This host's own Chaosnet address, which is not 0.
    pub address: u16,
    /// The UDP address that this host receives at, whose port is not 0.
    pub socket: SocketAddrV4,
    /// The server, whose Chaosnet address is another than this host's.
    pub server: Peer,
    ghost named: { 0 < address },
    ghost apart: { server.address ≢ address },
}

impl Ends {
    /// The ends of a call from this host to this server.
    pub fn new(address: u16, socket: SocketAddrV4, server: Peer) -> Option<Ends>
        // There are ends exactly where the own address is not 0 and is another than the server's.
        // The ends are those that were given.
        ensures some { IfSome result (λ ends. (ends.address ≡ address) × (ends.socket ≡ socket) × (ends.server ≡ server)) }
        ensures none { result ≡ None → (address ≡ 0) ⊎ (address ≡ server.address) }
    {
        if address == 0 || address == server.address {
            return None;
        }
        Some(Ends {
            address,
            socket,
            server,
        })
    }
}

/// The host that `ask` asks.
#[derive(Drop)]
pub enum AskTarget<'a> {
    /// The line has the addresses.
    Addresses(AskEnds),
    /// The hosts table has the addresses. This is the name of the host, as in `Target`.
    Name(&'a str),
}

/// The two ends of an `ask`.
#[derive(Drop)]
pub struct AskEnds {
    /// This host's own Chaosnet address, which is not 0.
    pub address: u16,
    /// The UDP address that this host receives at, whose port is not 0.
    pub socket: SocketAddrV4,
    /// The Chaosnet address of the host to ask, which is not 0 and not this host's own.
    pub to: u16,
    /// Where packets are sent to.
    pub peers: Peers,
    ghost named: { 0 < address },
}

impl Clone for AskEnds {
    ghost is_clone = { λ ends copy. (copy.address ≡ ends.address) × (copy.socket ≡ ends.socket)
        × (copy.to ≡ ends.to) };

    fn clone(&self) -> Result<Self, AllocError> {
        Ok(AskEnds {
            address: self.address,
            socket: self.socket,
            to: self.to,
            peers: self.peers.clone()?,
        })
    }
}

/// The ends of an `ask` that has one peer, the host that is asked.
impl From<Ends> for AskEnds {
    ghost use Rattle.std.specs.Prelude.{◌≡◌, ◌∷◌, [], None};

    ghost from_gives = { λ ends asked. (asked.address ≡ ends.address) × (asked.socket ≡ ends.socket)
        × (asked.to ≡ ends.server.address)
        × (asked.peers ≡ record { hosts = ends.server ∷ []; bridge = None }) };

    fn from(ends: Ends) -> AskEnds {
        let mut peers = Peers::new();
        let _ = peers.add(ends.server);
        AskEnds {
            address: ends.address,
            socket: ends.socket,
            to: ends.server.address,
            peers,
        }
    }
}

/// Where a server is, and which hosts it knows.
#[derive(Drop)]
pub enum ServePlace {
    /// The line has the addresses.
    Addresses(ServeEnds),
    /// The hosts table has the addresses.
    Table,
}

/// The addresses of a server, and of the hosts that it knows.
#[derive(Drop)]
pub struct ServeEnds {
    /// The server's Chaosnet address, which is not 0.
    pub address: u16,
    /// The UDP address that the server receives at, whose port is not 0.
    pub socket: SocketAddrV4,
    /// The hosts that are answered at a UDP address of their own, and the bridge to all others.
    pub peers: Peers,
    /// The Chaosnet addresses of hosts that are answered where their last good datagram came from.
    /// An address stands once in both, and there are at most 32 in both together.
    pub followed: ArrayVec<u16, MAX_PEERS>,
    ghost named: { 0 < address },
}

impl Clone for ServeEnds {
    ghost is_clone = { λ ends copy. (copy.address ≡ ends.address) × (copy.socket ≡ ends.socket) };

    fn clone(&self) -> Result<Self, AllocError> {
        Ok(ServeEnds {
            address: self.address,
            socket: self.socket,
            peers: self.peers.clone()?,
            followed: self.followed.clone()?,
        })
    }
}

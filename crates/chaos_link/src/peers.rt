//! Where the datagrams of each host go.
ghost use Rattle.std.specs.Prelude.{◌≡◌, ◌≢◌, ◌++◌, ◌∷◌, [], ◌↔◌, ◌<◌, ◌≤◌, ◌==◌, ℕ, length, position, slice_set, IfSome, IsErrOf, IsTrue, None, OnOk, OnErr, Some};
ghost use Rattle.std.specs.Net.Socket.{v4_port};
ghost use Rattle.chaos_link.specs.declared.limits.TheConstants.{MAX_PEERS};
ghost use Rattle.chaos_link.specs.Peers.{entry_of, socket_of, with_entry, IsKnown, IsPeerAt};

use crate::fault::PeerFault;
use crate::limits::MAX_PEERS;
use arrayvec::ArrayVec;
use std::marker::Model;
use std::net::{Ipv4Addr, SocketAddrV4};

/// A host's Chaosnet address, and the UDP address that its datagrams go to.
#[derive(Clone, Copy, Debug, PartialEq, Eq)]
pub struct Peer {
    pub address: u16,
    pub socket: SocketAddrV4,
}

/// Stands in the places of a table that hold no peer yet: address 0, which no host has, at no
/// socket.
impl Default for Peer {
    ghost is_default = { λ peer. (peer.address ≡ 0) × (v4_port peer.socket ≡ 0) };

    fn default() -> Self {
        Peer {
            address: 0,
            socket: SocketAddrV4::new(Ipv4Addr::UNSPECIFIED, 0),
        }
    }
}

/// The hosts that a link reaches. Each peer has an entry, and no two entries have the same address;
/// there are at most [`MAX_PEERS`] entries. All other hosts are reached through a bridge, where
/// there is one. A contract sees the entries, in the order in which they were added, and the
/// bridge.
#[derive(Clone, Drop)]
pub struct Peers {
    table: ArrayVec<Peer, MAX_PEERS>,
    bridge: Option<SocketAddrV4>,
}

impl Model for Peers {
    ghost use Rattle.std.specs.Prelude.{◌≤◌, length};
    ghost use Rattle.chaos_link.specs.declared.limits.TheConstants.{MAX_PEERS};
    ghost use Rattle.chaos_link.specs.Peers.{PeersView};

    ghost Value = { PeersView };

    ghost view = { λ peers. record { hosts = peers.table.items; bridge = peers.bridge } };

    ghost invariant = { λ peers. length peers.table.items ≤ MAX_PEERS };
}

impl Peers {
    /// An empty table.
    pub fn new() -> Self
        // A new table has no peers and no bridge.
        ensures { result ≡ record { hosts = []; bridge = None } }
    {
        Peers {
            table: ArrayVec::new(),
            bridge: None,
        }
    }

    /// The peers, each with the UDP address that its datagrams go to.
    pub fn hosts(&self) -> &[Peer]
        // The peers are given in the order in which they were added, 32 at most.
        ensures hosts { result.now ≡ self.now.hosts }
        ensures few { length result.now ≤ MAX_PEERS }
    {
        self.table.as_slice()
    }

    /// The UDP address of the bridge to all hosts that have no entry.
    pub fn bridge(&self) -> Option<SocketAddrV4>
        // The bridge is the one that was set last, where one was set.
        ensures { result ≡ self.now.bridge }
    {
        self.bridge
    }

    /// Where datagrams for this Chaosnet address go. The answer is `None` where they go nowhere.
    ///
    /// The call walks over the entries once.
    pub fn find(&self, address: u16) -> Option<SocketAddrV4>
        // Datagrams for a Chaosnet address go to the UDP address of the peer with that address,
        // otherwise to the bridge. They go nowhere where there is neither.
        ensures { result ≡ socket_of address self.now }
    {
        self.entry(address).or(self.bridge)
    }

    /// Whether a peer or the bridge is at this UDP address.
    pub fn has_socket(&self, socket: SocketAddrV4) -> bool
        // The result is true exactly where a peer or the bridge is at the UDP address.
        ensures { IsTrue result ↔ IsPeerAt socket self.now }
    {
        self.hosts().iter().any(|peer| peer.socket == socket) || self.bridge() == Some(socket)
    }

    /// The UDP address of the entry with this Chaosnet address, where there is one.
    fn entry(&self, address: u16) -> Option<SocketAddrV4>
        ensures { result ≡ entry_of address self.now.hosts }
    {
        self.table
            .iter()
            .find(|peer| peer.address == address)
            .map(|peer| peer.socket)
    }

    /// Adds a peer.
    ///
    /// # Errors
    /// The table is full, or an entry has the address already. The first of these that holds is
    /// given.
    pub fn add(&mut self, peer: Peer) -> Result<(), PeerFault>
        // The peer is added behind the others. No other entry changes, nor does the bridge.
        ensures ok { OnOk result
            (self.new ≡ record self.old { hosts = self.old.hosts ++ peer ∷ [] }) }
        // A refusal changes nothing.
        ensures err { OnErr result (self.new ≡ self.old) }
        // A peer is refused exactly where there are 32 peers already, or the table has its address;
        // the first of these that holds is given.
        ensures too_many { IsErrOf result PeerFault.TooMany ↔ (length self.old.hosts ≡ MAX_PEERS) }
        ensures already { IsErrOf result PeerFault.Already
            ↔ ((length self.old.hosts < MAX_PEERS) × IsKnown peer.address self.old.hosts) }
    {
        if self.table.is_full() {
            return Err(PeerFault::TooMany);
        }
        if self.table.iter().any(|other| other.address == peer.address) {
            return Err(PeerFault::Already);
        }
        self.table.push(peer);
        Ok(())
    }

    /// Sets the UDP address of a host: changes it in the entry that has the host's Chaosnet address,
    /// or adds an entry.
    ///
    /// # Errors
    /// No entry has the host's address, and the table is full.
    pub fn set(&mut self, peer: Peer) -> Result<(), PeerFault>
        // The peer stands in the place of the entry that had its address, or else behind the
        // others. No other entry changes, nor does the bridge.
        ensures ok { OnOk result
            (self.new ≡ record self.old { hosts = with_entry peer self.old.hosts }) }
        // So datagrams for the host go to this UDP address, and all others go where they went.
        ensures found { OnOk result (socket_of peer.address self.new ≡ Some peer.socket) }
        ensures others { OnOk result ((address : ℕ) → address ≢ peer.address
            → socket_of address self.new ≡ socket_of address self.old) }
        // A refusal changes nothing.
        ensures err { OnErr result (self.new ≡ self.old) }
        // A peer is refused exactly where there are 32 peers already, of which none has its
        // address.
        ensures too_many { IsErrOf result PeerFault.TooMany
            ↔ ((length self.old.hosts ≡ MAX_PEERS) × ¬ (IsKnown peer.address self.old.hosts)) }
        ensures fault { OnErr result (IsErrOf result PeerFault.TooMany) }
    {
        match self.place_of(peer.address) {
            Some(place) => self.replace(place, peer),
            None if self.table.is_full() => return Err(PeerFault::TooMany),
            None => self.table.push(peer),
        }
        Ok(())
    }

    /// Puts an entry in the place of another.
    fn replace(&mut self, place: usize, peer: Peer)
        requires { place < length self.old.hosts }
        ensures { self.new
            ≡ record self.old { hosts = slice_set self.old.hosts place peer } }
    {
        self.table.as_mut_slice()[place] = peer;
    }

    /// The place of the entry with this Chaosnet address.
    fn place_of(&self, address: u16) -> Option<usize>
        ensures place { result ≡ position (λ host. host.address == address) self.now.hosts }
        ensures within { IfSome result (λ place. place < length self.now.hosts) }
    {
        self.table.iter().position(|peer| peer.address == address)
    }

    /// Sets the bridge. A bridge that was set before is replaced.
    pub fn set_bridge(&mut self, socket: SocketAddrV4)
        // The bridge is set, and no peer changes.
        ensures { self.new ≡ record self.old { bridge = Some socket } }
    {
        self.bridge = Some(socket);
    }
}

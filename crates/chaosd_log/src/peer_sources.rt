//! What a server's log knows of hosts.
ghost use Rattle.std.specs.Prelude.{◌≡◌, ◌≤◌, length};
ghost use Rattle.chaos_link.specs.declared.limits.TheConstants.{MAX_PEERS};
ghost use Rattle.chaosd_log.specs.PeerSources.{AsksAs, IsReportOf, heard_at, heard_by_place, known_at, place_of, renewed, source_at, unreported_of, with_asked};

use crate::place::place_of;
use chaos_link::{MAX_PEERS, Peer, Peers};
use std::marker::Model;
use std::net::SocketAddrV4;

/// The Chaosnet addresses that there are, with 0.
const ADDRESSES: usize = 65_536;

/// What is to be reported of where a host asks from, once for each Chaosnet address.
#[derive(Clone, Copy, Debug, PartialEq, Eq)]
pub enum SourceReport {
    /// Nothing: it asks from its peer's UDP address, or was reported before.
    AsKnown,
    /// The host is no peer, and no bridge leads to it.
    Stranger,
    /// The host is answered at this other UDP address, of its peer or of the bridge.
    Elsewhere(SocketAddrV4),
}

/// What a server's log knows of hosts: the peers and the bridge, as the link had them when it was
/// asked last, from which UDP address each was heard last, and what was reported.
#[derive(Drop)]
pub struct PeerSources {
    peers: Peers,
    heard: [Option<SocketAddrV4>; MAX_PEERS],
    stranger: Option<Peer>,
    reported: [bool; ADDRESSES],
}

impl Model for PeerSources {
    ghost use Rattle.chaosd_log.specs.PeerSources.{PeerSourcesView};

    ghost Value = { PeerSourcesView };

    ghost view = { λ s.
        record { peers = s.peers; heard = s.heard; stranger = s.stranger; reported = s.reported } };
}

/// What is to be reported of a host that is known at the one UDP address, if at any, and asks from
/// the other.
fn report_of(known: Option<SocketAddrV4>, from: SocketAddrV4) -> SourceReport
    ensures { IsReportOf known from result }
{
    match known {
        None => SourceReport::Stranger,
        Some(known) if known == from => SourceReport::AsKnown,
        Some(known) => SourceReport::Elsewhere(known),
    }
}

impl PeerSources {
    ghost use Rattle.std.specs.Prelude.{◌↔◌, false, ℕ, IsTrue, None, replicate, Some};
    ghost use Rattle.chaos_link.specs.Peers.{IsKnown};

    /// The sources of a server that has heard nobody.
    pub fn new(peers: Peers) -> Self
        // At first there are these peers, nobody was heard, and nothing was reported.
        ensures { result
            ≡ record {
              peers = peers;
              heard = replicate MAX_PEERS None;
              stranger = None;
              reported = replicate 65536 false;
            } }
    {
        PeerSources {
            peers,
            heard: [None; MAX_PEERS],
            stranger: None,
            reported: [false; ADDRESSES],
        }
    }

    /// The peers, lent.
    pub fn peers(&self) -> &Peers
        // The peers are those that were given last, at first or by a renewal.
        ensures { result.now ≡ self.now.peers }
    {
        &self.peers
    }

    /// Whether this peer's host is answered at this peer's UDP address.
    pub fn is_answered_at(&self, peer: &Peer) -> bool
        // The result is true exactly where the host is answered there, as a peer or over the bridge.
        ensures { IsTrue result ↔ (known_at peer.now.address self.now ≡ Some peer.now.socket) }
    {
        self.peers.find(peer.address) == Some(peer.socket)
    }

    /// The peers are these now.
    pub fn renew(&mut self, peers: Peers)
        // The peers are these, in their places. What was reported stays, and so does the last host
        // that was no peer.
        ensures renewed { self.new ≡ renewed peers self.old }
        // Each peer was heard last where its host was heard before, whatever place the peer has now,
        // and also where the host was no peer.
        ensures sources { (address : ℕ) → IsKnown address peers.hosts
            → source_at address self.new ≡ source_at address self.old }
    {
        self.heard = self.heard_by_place(peers.hosts());
        self.peers = peers;
    }

    /// Where each of these peers was heard last, by its place.
    fn heard_by_place(&self, peers: &[Peer]) -> [Option<SocketAddrV4>; MAX_PEERS]
        ensures { result ≡ heard_by_place peers.now self.now }
    {
        let mut heard = [None; MAX_PEERS];
        for place in 0..MAX_PEERS {
            heard[place] = match peers.get(place) {
                Some(peer) => self.source_of(peer.address),
                None => None,
            };
        }
        heard
    }

    /// A datagram of this host came from this UDP address. The result says what is to be reported
    /// of that.
    pub fn hear(&mut self, address: u16, from: SocketAddrV4) -> SourceReport
        // A host is to be reported if it isn't answered, or if it asks from another UDP address
        // than the one where it is answered, and if its Chaosnet address wasn't reported before. It
        // is answered at its peer's UDP address, otherwise at the bridge's. The result then has the
        // UDP address where it is answered.
        ensures report { AsksAs address from self.old result }
        // The UDP address is kept as the one where the host was heard last, and it is kept that the
        // host was reported.
        ensures sources { self.new ≡ with_asked address from result self.old }
    {
        let known = self.peers.find(address);
        self.note(address, from);
        let report = report_of(known, from);
        if report == SourceReport::AsKnown || self.reported[usize::from(address)] {
            return SourceReport::AsKnown;
        }
        self.reported[usize::from(address)] = true;
        report
    }

    /// The line about where this host asks from was left out: the next datagram from there is
    /// reported again.
    pub fn forget_reported(&mut self, address: u16)
        // A host that asks from elsewhere is to be reported again, and nothing else changes.
        ensures { self.new ≡ unreported_of address self.old }
    {
        self.reported[usize::from(address)] = false;
    }

    /// Keeps from where the host was heard.
    fn note(&mut self, address: u16, from: SocketAddrV4)
        ensures { self.new
            ≡ heard_at (place_of address self.old.peers.hosts)
            (record { address = address; socket = from }) self.old }
    {
        match place_of(self.peers.hosts(), address) {
            Some(place) => self.heard[place] = Some(from),
            None => {
                self.stranger = Some(Peer {
                    address,
                    socket: from,
                })
            }
        }
    }

    /// The UDP address from which this host was heard last. Of the hosts that are no peers, only the
    /// last is known.
    pub fn source_of(&self, address: u16) -> Option<SocketAddrV4>
        // The result is where the host was heard last. For a host that is no peer, there is a
        // result only if it was the last such host.
        ensures { result ≡ source_at address self.now }
    {
        match place_of(self.peers.hosts(), address) {
            Some(place) => self.heard[place],
            None => match self.stranger {
                Some(stranger) if stranger.address == address => Some(stranger.socket),
                _ => None,
            },
        }
    }
}

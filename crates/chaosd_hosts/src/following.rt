//! Hosts that are answered where their last good datagram came from.
ghost use Rattle.std.specs.Prelude.{◌≡◌, ◌<◌, Some, length, true};
ghost use Rattle.chaos_chudp.specs.Chudp.{word_in};
ghost use Rattle.chaos_link.specs.Peers.{entry_of};
ghost use Rattle.chaosd_hosts.specs.Following.{chudp_source, is_among, own_source, source_in, with_place};

use arrayvec::ArrayVec;
use chaos_chudp::from_chudp;
use chaos_link::{MAX_PEERS, Peer, PeerKeeper, Peers, open_datagram};
use std::marker::Model;
use std::net::SocketAddrV4;

/// The fewest bytes of a good datagram: the mark or the head, and the header of a packet.
const LEAST_DATAGRAM: usize = 20;

/// Where the source of the first packet stands in a good datagram, high byte first.
const SOURCE_AT: usize = 12;

/// How packets stand in the datagrams of a socket.
#[derive(Clone, Copy, Debug, PartialEq, Eq)]
pub enum DatagramForm {
    /// In this program's own datagrams.
    Own,
    /// In CHUDP.
    Chudp,
}

/// The source of the first packet of one of this program's own datagrams.
#[tactic(auto, unfolding(crate::specs::Following::own_source))]
fn own_source(datagram: &[u8]) -> Option<u16>
    ensures { result ≡ own_source datagram.now }
{
    match open_datagram(datagram) {
        Ok(packets) => packets.source(),
        Err(_) => None,
    }
}

/// The source of the packet of a CHUDP datagram.
#[tactic(auto, unfolding(crate::specs::Following::chudp_source))]
fn chudp_source(datagram: &[u8]) -> Option<u16>
    ensures { result ≡ chudp_source datagram.now }
{
    match from_chudp(datagram) {
        Ok(delivery) => Some(delivery.packet.src),
        Err(_) => None,
    }
}

/// The Chaosnet address of the host that sent a datagram of this form; none where the datagram
/// isn't good all through.
fn source_in(form: DatagramForm, datagram: &[u8]) -> Option<u16>
    ensures { result ≡ source_in form datagram.now }
{
    match form {
        DatagramForm::Own => own_source(datagram),
        DatagramForm::Chudp => chudp_source(datagram),
    }
}

/// Whether an address is among these.
pub(crate) fn is_among(address: u16, hosts: &[u16]) -> bool
    ensures { result ≡ is_among address hosts.now }
{
    hosts.iter().any(|host| *host == address)
}

/// The UDP address of the entry with this Chaosnet address.
fn entry_of(peers: &Peers, address: u16) -> Option<SocketAddrV4>
    ensures { result ≡ entry_of address peers.now.hosts }
{
    peers
        .hosts()
        .iter()
        .find(|peer| peer.address == address)
        .map(|peer| peer.socket)
}

/// Whether a datagram, if it is good, came from where the entry of its source says. The source of
/// the first packet stands at one place in both forms, so nothing is opened.
fn is_where_known(peers: &Peers, from: SocketAddrV4, datagram: &[u8]) -> bool
    ensures { result ≡ true → (19 < length datagram.now)
        × (entry_of (word_in datagram.now 12) peers.now.hosts ≡ Some from) }
{
    if datagram.len() < LEAST_DATAGRAM {
        return false;
    }
    let source = u16::from_be_bytes([datagram[SOURCE_AT], datagram[SOURCE_AT + 1]]);
    match entry_of(peers, source) {
        Some(socket) => socket == from,
        None => false,
    }
}

/// Sets where a peer is, if the peers have a place for it.
#[tactic(auto, unfolding(crate::specs::Following::with_place))]
pub(crate) fn set_place(peers: &mut Peers, peer: Peer)
    ensures { peers.new ≡ with_place peer peers.old }
{
    match peers.set(peer) {
        Ok(()) => {}
        Err(_) => {}
    }
}

/// The hosts of a table that have a `*` in place of a UDP address. As a keeper, it lets each of
/// them be answered where its last good datagram came from, and leaves all other peers alone.
///
/// Whoever can send datagrams under such a host's Chaosnet address moves the host: the operator
/// chooses that by the `*`.
#[derive(Drop)]
pub struct FollowedHosts {
    form: DatagramForm,
    hosts: ArrayVec<u16, MAX_PEERS>,
}

impl Model for FollowedHosts {
    ghost use Rattle.chaosd_hosts.specs.Following.{FollowedView};

    ghost Value = { FollowedView };

    ghost view = { λ followed. record { form = followed.form; hosts = followed.hosts.items } };
}

impl FollowedHosts {
    /// Follows the hosts with these Chaosnet addresses, in datagrams of this form.
    pub fn new(form: DatagramForm, hosts: ArrayVec<u16, MAX_PEERS>) -> Self
        // The hosts with these addresses are followed, in datagrams of this form.
        ensures { result ≡ record { form = form; hosts = hosts.items } }
    {
        FollowedHosts { form, hosts }
    }

    /// Follows the hosts with these addresses from now on, and no others.
    pub fn follow(&mut self, hosts: ArrayVec<u16, MAX_PEERS>)
        // The hosts with these addresses are followed, in datagrams of the same form.
        ensures { self.new ≡ record self.old { hosts = hosts.items } }
    {
        self.hosts = hosts;
    }
}

impl PeerKeeper for FollowedHosts {
    ghost use Rattle.chaosd_hosts.specs.Following.{peers_behind};

    // A host that is followed is where its last good datagram came from. Nothing else changes.
    ghost becomes = { λ keeper peers came next_keeper next.
        (next_keeper ≡ keeper) × (next ≡ peers_behind keeper peers came) };

    /// Opens no datagram that came from where the entry of its source says.
    fn hear(&mut self, peers: &mut Peers, from: SocketAddrV4, datagram: &[u8]) {
        if self.hosts.is_empty() {
            return;
        }
        if is_where_known(peers, from, datagram) {
            return;
        }
        let Some(address) = source_in(self.form, datagram) else {
            return;
        };
        if is_among(address, self.hosts.as_slice()) {
            set_place(
                peers,
                Peer {
                    address,
                    socket: from,
                },
            );
        }
    }

    /// Nothing is learned where no datagram came.
    fn rest(&mut self, _peers: &mut Peers) {}
}

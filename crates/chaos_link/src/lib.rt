//! Chaosnet packets as UDP datagrams (own profile: the memo's hardware carriage is not used), and
//! links that carry datagrams between hosts.
//!
//! The datagrams are bytes and packets alone. Of the links one is a queue in memory, two are a pair
//! in memory, whose constructors allocate, and one is a UDP socket, which alone waits. Nothing here
//! reads a clock or makes a socket.
#![tactic(auto)]

mod bundle;
mod carriage;
mod datagram;
mod encode;
mod fault;
mod fuse;
mod gone;
mod keeper;
mod limits;
mod link;
mod loads;
mod mem;
mod packets;
mod pair;
mod pairs;
mod peers;
mod report;
mod socket;
mod socket_fault;
mod udp;

pub use bundle::{fits, to_datagram2};
pub use carriage::Carriage;
pub use datagram::{from_datagram, law_carries};
pub use encode::{to_datagram, write_datagram};
pub use fault::{LinkFault, PeerFault};
pub use fuse::FuseLink;
pub use gone::is_gone;
pub use keeper::{FixedPeers, PeerKeeper};
pub use limits::{
    LINK_ROOM, MARK_BYTES, MAX_BUNDLE, MAX_DATAGRAM, MAX_LOAD, MAX_PACKETS, MAX_PEERS, MAX_WAIT,
    law_limits,
};
pub use link::{Link, Received, Sent};
pub use loads::{Load, law_loads};
pub use mem::MemLink;
pub use packets::{Packets, law_carries2, open_datagram, read_datagram};
pub use pair::{MemPair, PairEnd, Side};
pub use peers::{Peer, Peers};
pub use report::{LinkReport, Reports};
pub use socket::DatagramSocket;
pub use socket_fault::{SocketCall, SocketFault};
pub use udp::{UdpLink, law_fixed_peers};

//! Two hosts on one network, and what is true of all their connections: the laws, and [`Net`], such
//! a network as it runs.
//!
//! A system is two programs that take turns over links, and the network behind the programs. The
//! laws of systems say that each turn is a run of the network's events, so what is proved of the
//! network holds for the programs.
//!
//! The laws of systems have these premises:
//!
//! - Each datagram that comes is one that the other program posted, or carries no packet. Otherwise
//!   a stranger could open a connection, and could put data into a connection.
//! - Each packet is fresh when that packet comes, as the laws of the network say. Otherwise an old packet is
//!   taken for a packet of a later connection with the same index.
//! - A call of an owner is a call of the owner's own host. Otherwise an owner could deliver a
//!   packet that nobody sent.
//! - Both programs start with new hosts. Otherwise a packet number or an index could be in use
//!   before the first step.
//!
//! Nothing else is asked of the network. It may lose, delay, repeat and reorder datagrams. What the
//! system makes of the datagrams that a socket is asked to send is the network's part.
#![tactic(auto)]

mod calls;
mod deliver;
mod desk;
mod ending;
mod fault;
mod kept_sent;
mod law;
mod mark;
mod net;
mod seat;
mod station;
mod stations;
mod system_law;

pub use fault::NetFault;
pub use kept_sent::KeptSent;
pub use law::{
    law_apart, law_in_turn, law_lasting, law_net_holds, law_network, law_present, law_reached,
    law_short, law_two_connections,
};
pub use net::{HostKind, Net};
pub use system_law::{law_client_turns, law_halves, law_hello, law_nodes, law_queues, law_sockets};

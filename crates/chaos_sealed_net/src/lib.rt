//! Two hosts on one network whose datagrams are sealed, and what the counters of the seal give to
//! the law of the network: the premise on the age of packets holds by itself, but for its part on
//! connections.
//!
//! The laws have these premises:
//!
//! - A host takes a datagram only if the other host sealed that datagram, and its counter is fewer
//!   than 256 below the greatest counter that was heard. Otherwise an old packet is taken for a new
//!   packet with the same number.
//! - A host seals its packets in the order in which they were sent, and seals only the last
//!   datagram again. Otherwise an old packet comes under a new counter.
//! - Fewer than 256 connections have passed in each slot that a packet names, if the packet carries
//!   an acknowledgement. Otherwise the packet is taken for a packet of a later connection with the
//!   same index. No counter prevents that.
//! - Both hosts are new at the start, and neither starts again. Otherwise a packet number or an
//!   index could be in use before the first step.
#![tactic(auto)]

mod law;

pub use law::{law_fresh, law_sealed_hello, law_sealed_nodes, law_sealed_nodes_hello};

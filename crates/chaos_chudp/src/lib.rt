//! CHUDP: how cbridge, klh10, usim and others put Chaosnet packets into UDP datagrams, and a link
//! that speaks CHUDP over another link. Nobody has tried this crate together with one of these
//! programs.
//!
//! Bytes and packets alone: no socket and no clock, and nothing is allocated.
#![tactic(auto)]

mod delivery;
mod fault;
mod hops;
mod limits;
mod link;
mod read;
mod sum;
mod write;

pub use delivery::Delivery;
pub use fault::ChudpFault;
pub use hops::Hops;
pub use limits::{HEAD_BYTES, MAX_CHUDP, TRAILER_BYTES, law_limits};
pub use link::{ChudpLink, law_same_datagram, law_sockets};
pub use read::{from_chudp, law_carries_chudp};
pub use sum::{checksum_of, law_one_word};
pub use write::{law_form, to_chudp};

//! A UDP socket over another socket, which seals what goes to a host with a key, and opens what
//! comes.
//!
//! It stands between a [`UdpLink`](chaos_link::UdpLink) and the system's socket, since a hello goes
//! to the UDP address that a datagram came from. So whoever follows the peers of the link sees only
//! what was opened, and a forged datagram moves no peer.
//!
//! - A datagram for a host with a key goes out sealed, and is kept. Any other goes out as it is.
//! - What comes is opened. What isn't handed up is received as a datagram of no bytes.
//! - A datagram that names another session of this host, and has a payload, is answered with a
//!   hello: an empty sealed datagram, from which its sender learns this session.
//! - Once the session of a host is learned, the kept datagram is sealed anew and sent again, if it
//!   is for that host. So a host that has just begun hears the first datagram too.
//!
//! **What is promised.** The socket beneath is asked to send no datagram in clear for a host with a
//! key, and no two sealed datagrams for one host have the same counter ([`law_sent`]). What is
//! handed up of a seal was sealed by its host for this run, each datagram at most once
//! ([`law_received`]). A hello is shorter than what it answers.
//!
//! No socket is made here, no clock is read, and nothing is allocated.
#![tactic(auto)]

mod header;
mod law;
mod observer;
mod recent;
mod socket;

pub use law::{law_calls, law_received, law_sent};
pub use observer::{SealObserver, Unobserved};
pub use socket::SealedSocket;

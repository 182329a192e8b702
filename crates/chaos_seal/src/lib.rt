//! Datagrams of version 3: a datagram of version 1 or 2 under a seal, so that a host knows who sent
//! it, and hands it up once.
//!
//! Two hosts that have a key of 32 bytes in common seal what they send to each other. A [`Seals`] is
//! what one host seals and opens with: its address, the session of this run, and the other hosts
//! that it has a key with.
//!
//! ```text
//!   0    2    3    4      6      8         16        24        32 ..     n - 16 .. n
//! +----+----+----+------+------+---------+---------+---------+---------+-----------+
//! |4348| 03 | 00 | to   | from | session | peer    | counter | payload | tag       |
//! +----+----+----+------+------+---------+---------+---------+---------+-----------+
//! ```
//!
//! Each number has its high byte first. `session` is the sender's, and `peer` is the receiver's
//! session as the sender last heard it, or 0. `counter` grows by one with each datagram that the
//! sender seals for this receiver, from 1. `tag` is the first 16 bytes of HMAC-SHA-256, under the
//! key, over everything before it. The payload is a whole datagram of version 1 or 2, or empty.
//!
//! **What is promised.** What is handed up under seal was sealed by the host that it names, for this
//! run of the receiver, each datagram at most once. The sessions of a host never go back, and within
//! a session each datagram lies fewer than 256 behind each one handed up before
//! ([`law_handed_up`]). The one premise is that without the key nobody makes a right tag. A datagram
//! without a seal is handed up only if no packet in it comes from a host that has a key. A host that
//! is closed ([`Seals::close`]) hears no packet without a seal.
//!
//! **What isn't promised.** A seal hides nothing: whoever sees a datagram can read it. Whoever can
//! stop datagrams on the way can stop these too. A host whose clock went back between two runs is
//! not heard until the other host starts again, since its session has to grow from run to run.
//!
//! Bytes alone: no socket and no clock. Memory is taken where a key is added, and nowhere else. A
//! tag hashes the text and one block more: no tag hashes the key anew.
#![tactic(auto)]

mod fault;
mod form;
mod hmac;
mod law;
mod limits;
mod opened;
mod peer;
mod seals;
mod sources;
mod window;

pub use fault::{KeyFault, SealFault};
pub use law::{law_handed_up, law_opened, law_rises, law_vector};
pub use limits::{KEY_BYTES, MAX_PAYLOAD, SEAL_BYTES, SEAL_WINDOW, TAG_BYTES, law_limits};
pub use opened::Opened;
pub use seals::Seals;
pub use window::law_window;

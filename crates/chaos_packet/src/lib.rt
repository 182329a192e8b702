//! Chaosnet packets: their words, their header, their opcodes and their numbers (AI Memo 628, on
//! packets), a queue of packets, and the ring of places that the queue stands on.
//!
//! The crate has values and their spelling alone: no sockets, no clock, and no allocation except
//! that of `Ring::new`.
#![tactic(auto)]

mod fault;
mod header;
mod item;
mod limits;
mod number;
mod opcode;
mod outbox;
mod packet;
mod reading;
mod request;
mod ring;
mod writing;

pub use fault::PacketFault;
pub use header::Header;
pub use item::{Item, body_of};
pub use limits::{HEADER_WORDS, MAX_DATA, MAX_FORWARDS, MAX_WORDS, law_limits};
pub use number::PktNum;
pub use opcode::{Kind, Opcode};
pub use outbox::Outbox;
pub use packet::Packet;
pub use reading::{from_words, law_spells};
pub use request::{arguments_in, contact_in};
pub use ring::{Place, Ring};
pub use writing::to_words;

//! One turn of a host over a link: what waits is sent, what came is delivered, and each slot is
//! ticked. What the host puts out goes into the link. A turn knows no service. A [`Node`] has what
//! a host needs for such turns, and its owner serves between their halves, by the host's calls.
//!
//! A turn that you build yourself begins by [`begin`]. Then a [`Turn`] has the host, the link and
//! the outbox. Its phases are the host's calls on what came, each followed by [`send_all`], and
//! [`Turn::tick_slots`]. The turn ends by [`end_of`].
//!
//! A turn reads no clock (the moment is handed in), waits for a datagram only where its caller lets
//! it, as its link does, and takes no memory.
//!
//! The moments of turns come from a clock that is handed in: a [`ReadableClock`] says what a clock
//! shows. An [`Epoch`] is its reading when a run begins, and [`Moments`] are read one after another.
//! A [`NodeFault`] is what can end turns. [`pass_indices`] uses up the indices that an older process
//! may have had.
#![tactic(auto)]

mod arriving;
mod beginning;
mod client;
mod clock;
mod end;
mod fault;
mod last_packet;
mod limits;
mod moments;
mod node;
mod passing;
mod readable_clock;
mod receiving;
mod round_trip;
mod sending;
mod ticking;
mod timer;
mod turn;

pub use beginning::{Begun, begin};
pub use client::{ClientTurn, client_turn, timed_client_turn};
pub use clock::Epoch;
pub use end::{TurnEnd, any_of, end_of};
pub use fault::NodeFault;
pub use last_packet::LastPacket;
pub use limits::{LEAST_INTERVAL, TURN_ROOM};
pub use moments::{ClockMoments, Moments};
pub use node::Node;
pub use passing::pass_indices;
pub use readable_clock::ReadableClock;
pub use round_trip::RoundTrip;
pub use sending::{law_read_back, law_sends_one, send_all, send_singly};
pub use timer::{Interval, RetransmitTimer, Sending, Timed, look_at_conns, resends_any};
pub use turn::Turn;

//! One end of a Chaosnet connection (AI Memo 628, on connections): its states, what each packet
//! that arrives makes of it, its user's calls, and what is due at each moment.
//!
//! A connection is a value: no sockets, no clock (moments are handed in), and no allocation after
//! `Conn::new`. Packets come in by a call and go out into an [`chaos_packet::Outbox`].
#![tactic(auto)]

mod answers;
mod arriving;
mod calls;
mod config;
mod conn;
mod fault;
mod law;
mod limits;
mod looks;
mod next_due;
mod opening;
mod sending;
mod state;
mod stored;
mod time;

pub use answers::{Delivered, Disposition, ReadDone, ReadEnd, Ticked, Why};
pub use config::ConnConfig;
pub use conn::Conn;
pub use fault::{ConfigFault, ConnFault};
pub use law::{law_foreign, law_held, law_names, law_over};
pub use limits::{MAX_PACKET_BYTES, USUAL_WINDOW, law_limits};
pub use next_due::{earlier, law_quiet};
pub use sending::NO_NUMBER;
pub use state::{End, State};
pub use time::Due;

//! A server of FILE over a link: a session for each slot of a host, the server's turn, and a whole
//! service.
//!
//! [`run_turn`] is one turn: what came is delivered, requests for FILE are accepted, each slot is
//! served once, and what is due is done. [`Server`] has what a service needs for such turns, and a
//! timer for each slot. By carriage 2 it serves each slot in a burst ([`ServeMode`]).
//! [`run_serve_by`] makes each turn at the next moment of a source, and notes in a [`Log`] which
//! connections opened and ended.
//!
//! A turn reads no clock (the moment is handed in). It waits for a datagram only where its caller
//! lets it, as its link does: [`can_serve_any`] says whether a server is to. The host and
//! [`Sessions::new`] take their memory first; a turn takes none but what
//! [`chaos_file::Session::apply`] takes.
#![tactic(auto)]

mod arriving;
mod ending;
mod limits;
mod log;
mod phases;
mod serve_mode;
mod serve_run;
mod server;
mod serving;
mod sessions;
mod turn;
mod turn_input;
mod waiting;
mod watch;

pub use limits::{BURST, law_limits};
pub use log::{Ending, LinkLog, Log, Silent};
pub use serve_mode::ServeMode;
pub use serve_run::{ServeOptions, run_serve_by};
pub use server::Server;
pub use sessions::Sessions;
pub use turn::run_turn;
pub use waiting::can_serve_any;

//! A client of FILE, whether a script or a copy of whole files is behind it: one connection of a
//! host after another, asked for, written to, read from and hung up, turn by turn.
//!
//! No sockets and no clock of its own, and no allocation but the host's. `client` is the client,
//! which is a talk with a FILE server, and `client_host` its host; `calls` is what is done with the
//! host's connection. `driver` is what drives a client, and `clock_driver` the driver by a clock,
//! over a link. `line` is what a timer shows of the line. `contact` is the name that a server is
//! asked for. `patience` says how long a reply is waited for, and `reply_timer` why none came.
#![tactic(auto)]

mod calls;
mod client;
mod client_host;
mod clock_driver;
mod contact;
mod driver;
mod limits;
mod line;
mod patience;
mod reply_timer;
mod route;
mod timing;

pub use client::Client;
pub use client_host::ClientHost;
pub use clock_driver::ClockDriver;
pub use contact::{Contact, ContactFault};
pub use driver::Driver;
pub use limits::law_limits;
pub use patience::Patience;
pub use route::Route;
pub use timing::Timing;

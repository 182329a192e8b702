//! The engine `show` of the program `chaosd`: lines of hexadecimal digits in, a report of each out.
//!
//! `run` takes the lines of an input one after another, and `reporter` reports a line and counts
//! it. `entry` says what a line is, and `chudp` what a CHUDP datagram is. `hex` reads the digits of
//! a line, `report` prints a packet, and `file` what its data are in FILE. `room` makes room for
//! that. It allocates nothing.
#![tactic(auto)]

mod chudp;
mod entry;
mod file;
mod format;
mod hex;
mod law;
mod limits;
mod report;
mod reporter;
mod room;
mod run;
mod tally;
mod view;

pub use format::Format;
pub use law::law_report;
pub use limits::{SHOW_KEPT_LEN, SHOW_LINE_LIMIT, law_limits};
pub use run::{run_show, run_show_by};
pub use tally::Tally;
pub use view::View;

//! The log of a server: who asks, who opens and closes a connection, and which files were written,
//! replaced, renamed, deleted or read, by which host from which UDP address; and which commands were
//! refused.
//!
//! It opens nothing. A server reports to a [`Journal`], which writes lines. What is known of hosts is
//! kept by a [`PeerSources`], which is plain data. What a sealed socket refuses is logged by a
//! [`RefusalLog`].
#![tactic(auto)]

mod change;
mod counted;
mod heard;
mod journal;
mod level;
mod limiter;
mod lines;
mod peer_sources;
mod place;
mod refusal_log;
mod refusals;
mod server_log;
mod warning;

pub use change::{ChangeText, topic_of};
pub use heard::Heard;
pub use journal::Journal;
pub use level::{Level, TOPICS, Topic};
pub use limiter::{Limiter, Tally};
pub use lines::LogLines;
pub use peer_sources::{PeerSources, SourceReport};
pub use refusal_log::RefusalLog;
pub use refusals::{MAX_REFUSED, QUIET_SECONDS, RefusalReport, RefusalTally, Refusals, Refused};
pub use warning::{Warning, bridge_warning_of, nobody_warning_of, warning_of};

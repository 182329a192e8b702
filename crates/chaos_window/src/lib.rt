//! The two windows of a connection: what an end sent and may have to send again, and what an end
//! holds until its user reads it (AI Memo 628, on connections).
//!
//! Rings and numbers alone: no sockets, no clock, and no allocation after `new`.
#![tactic(auto)]

mod arrival;
mod kept;
mod limits;
mod receive;
mod send;
mod slot;
mod slots;

pub use arrival::Arrived;
pub use limits::{MAX_WINDOW, law_limits};
pub use receive::RecvWindow;
pub use send::{Full, SendWindow};

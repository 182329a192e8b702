//! Byte streams over connections (AI Memo 628, on connections): bytes are cut into data packets on
//! their way out, and lent from the packets that were delivered on their way in.
//!
//! [`StreamIn`] reads from a connection that its caller holds, and [`put_bytes`] writes to such a
//! connection. [`HostStream`] does both over a connection of a host, by the connection's own index.
//!
//! No sockets, no clock (moments are handed in) and no allocation: the connection keeps what is
//! sent, and holds what came.
#![tactic(auto)]

mod host_reading;
mod host_stream;
mod host_writing;
mod law;
mod peek;
mod stream_in;
mod writing;

pub use host_stream::HostStream;
pub use law::law_text;
pub use peek::Peek;
pub use stream_in::StreamIn;
pub use writing::{put_bytes, put_eof};

//! Why no reply came.
use crate::shown::Shown;
use chaos_conn::Delivered;
use chaos_packet::Packet;
use std::fmt;
use std::fmt::{Display, Formatter};

/// Why a command got no reply, as far as its client knows.
#[derive(Debug, PartialEq, Eq, Drop)]
pub struct NoReply {
    /// How many milliseconds the command waited.
    pub waited: u64,
    /// Whether the connection was open.
    pub is_open: bool,
    /// What the peer sent that ended the request or the connection.
    pub end: Option<Delivered>,
}

impl Display for NoReply {
    fn fmt<W: fmt::Write>(&self, f: &mut Formatter<W>) -> fmt::Result {
        match &self.end {
            Some(Delivered::Closed(packet)) if self.is_open => {
                put_end(f, "it closed the connection", packet)
            }
            Some(Delivered::Closed(packet)) => put_end(f, "it refused the connection", packet),
            Some(Delivered::Answered(packet)) => {
                put_end(f, "it answered in place of opening a connection", packet)
            }
            Some(Delivered::Forwarded(packet)) => put_end(f, "it says to ask elsewhere", packet),
            Some(Delivered::Lost(packet)) => put_end(f, "it knows no such connection", packet),
            _ if self.is_open => write!(f, "no reply came in {} ms", self.waited),
            _ => write!(f, "no connection opened in {} ms", self.waited),
        }
    }
}

/// Says what a packet did, with its text where it has one.
fn put_end<W: fmt::Write>(f: &mut Formatter<W>, what: &str, packet: &Packet) -> fmt::Result {
    let text = packet.body.as_slice();
    if text.is_empty() {
        return write!(f, "{what}");
    }
    write!(f, "{what}: {}", Shown(text))
}

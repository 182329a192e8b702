//! What became of a datagram.

use crate::fault::SealFault;

/// What became of a datagram that came.
#[derive(Clone, Copy, Debug, PartialEq, Eq)]
pub enum Opened {
    /// It isn't sealed, and goes up as it is.
    Plain,
    /// Its payload, of so many bytes, goes up.
    Payload(usize),
    /// It names another session of this host, and asks for a hello: an empty datagram to the host
    /// `to` that names the session.
    Hello { to: u16, session: u64 },
    /// It was empty, and named the newest session of the host that sealed it.
    Learned { from: u16 },
    /// It goes nowhere.
    Refused(SealFault),
}

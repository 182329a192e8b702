//! Which call of a socket failed, and why.
ghost use Rattle.std.specs.Prelude.{◌≡◌};
ghost use Rattle.chaos_link.specs.SocketFault.{fault_after, faults_in, is_fault};

use std::fmt::{Display, Formatter};
use std::io::ErrorKind;
use std::net::SocketAddrV4;
use std::{fmt, io};

/// What a link asks of its socket.
#[derive(Clone, Copy)]
pub enum SocketCall {
    /// To send a datagram to this UDP address.
    Send(SocketAddrV4),
    /// To receive a datagram.
    Receive,
    /// To set how long the socket waits.
    SetWait,
    /// To set whether the socket waits.
    SetWaits,
}

/// A call of a socket that failed, and why.
#[derive(Clone, Copy)]
pub struct SocketFault {
    pub call: SocketCall,
    pub error: io::Error,
    /// How many calls failed before it, since the last receive began.
    pub earlier: u64,
}

impl Display for SocketCall {
    fn fmt<W: fmt::Write>(&self, f: &mut Formatter<W>) -> fmt::Result {
        match self {
            SocketCall::Send(to) => write!(f, "sending to {to}"),
            SocketCall::Receive => f.write_str("receiving"),
            SocketCall::SetWait => f.write_str("setting how long to wait for a datagram"),
            SocketCall::SetWaits => f.write_str("setting whether to wait for a datagram"),
        }
    }
}

impl Display for SocketFault {
    fn fmt<W: fmt::Write>(&self, f: &mut Formatter<W>) -> fmt::Result {
        write!(f, "{} failed: {}", self.call, self.error)?;
        match self.earlier {
            0 => Ok(()),
            earlier => write!(f, "; failures before it: {earlier}"),
        }
    }
}

/// Whether an error of a socket says more than that nothing came, or that a socket that was sent to
/// before is gone.
fn is_fault(kind: ErrorKind) -> bool
    ensures { result ≡ is_fault kind }
{
    match kind {
        ErrorKind::WouldBlock
        | ErrorKind::TimedOut
        | ErrorKind::Interrupted
        | ErrorKind::ConnectionRefused => false,
        _ => true,
    }
}

/// How many calls failed, where this is the last fault of a socket.
fn faults_in(last: Option<SocketFault>) -> u64
    ensures { result ≡ faults_in last }
{
    match last {
        Some(fault) => fault.earlier.saturating_add(1),
        None => 0,
    }
}

/// The last fault of a socket after this call ended by an error: the call, where the error is a
/// fault. It counts the faults before it.
pub(crate) fn fault_after(
    call: SocketCall,
    error: io::Error,
    before: Option<SocketFault>,
) -> Option<SocketFault>
    ensures { result ≡ fault_after call error before }
{
    if is_fault(error.kind()) {
        Some(SocketFault {
            call,
            error,
            earlier: faults_in(before),
        })
    } else {
        before
    }
}

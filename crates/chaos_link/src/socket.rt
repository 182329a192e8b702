//! What a link asks of a socket.
ghost use Rattle.std.specs.Prelude.{◌≤◌, [], ◌∷◌, List, Option, IfOk};
ghost use Rattle.std.specs.Duration.{as_nanos};
ghost use Rattle.std.specs.declared.io.Error.{Error};
ghost use Rattle.std.specs.declared.net.socket_addr.SocketAddr.{SocketAddr};
ghost use Rattle.chaos_link.specs.Gone.{error_of};
ghost use Rattle.chaos_link.specs.Link.{AnyAsks, Asks};
ghost use Rattle.chaos_link.specs.Udp.{SocketAsk, SendTo, ReceiveOne, WaitAtMost, Wait};

use crate::limits::LINK_ROOM;
use std::io;
use std::net::{SocketAddr, SocketAddrV4, UdpSocket};
use std::time::Duration;

/// A socket by which datagrams leave and come: the system's socket, or a socket that reports what
/// it was asked.
///
/// The trait lets a contract over every socket say where a datagram goes. No contract says that of
/// the system's socket alone.
pub trait DatagramSocket {
    /// What the socket may have been asked between an earlier state and this state, in order,
    /// whatever the socket answered. The later state stands first. A socket that claims nothing, as
    /// the system's, allows any list.
    ghost asked: { Self → Self → List SocketAsk → Type 0 };

    /// Nothing was asked since the present state.
    ghost began: { (socket : Self) → asked socket socket [] };

    /// What the socket may have answered to its last call: an error, or none. A socket that claims
    /// nothing, such as the system's, allows any answer.
    ghost answered: { Self → Option Error → Type 0 } = { λ _ _. Unit {0} };

    /// From where the datagram may have come that the socket had for its last call. A socket that
    /// claims nothing allows any address.
    ghost came: { Self → SocketAddr → Type 0 } = { λ _ _. Unit {0} };

    /// Sends a datagram to this UDP address.
    ///
    /// # Errors
    /// The socket's. It was asked all the same.
    fn send_datagram(&mut self, bytes: &[u8], to: SocketAddrV4) -> io::Result<()>
        // The socket is asked once to send these bytes to this UDP address.
        ensures asked { Asks (asked self.old) (asked self.new)
            (SendTo (record { to = to; bytes = bytes.now }) ∷ []) }
        // Whether the call failed, and by which error, is what the socket says that it answered.
        ensures answered { answered self.new (error_of result) };

    /// Receives a datagram into the front of the buffer, and answers how many bytes it has there,
    /// and from where it came.
    ///
    /// # Errors
    /// The socket's, also where nothing came.
    fn receive_datagram(&mut self, buffer: &mut [u8; LINK_ROOM]) -> io::Result<(usize, SocketAddr)>
        // No more bytes come than the buffer has.
        ensures within { IfOk result (λ datagram. datagram.0 ≤ LINK_ROOM) }
        // From where the datagram came is what the socket says of it.
        ensures came { IfOk result (λ datagram. came self.new datagram.1) }
        // The socket is asked once for a datagram.
        ensures asked { Asks (asked self.old) (asked self.new) (ReceiveOne ∷ []) }
        // Whether the call failed, and by which error, is what the socket says that it answered.
        ensures answered { answered self.new (error_of result) };

    /// Sets how long a send or a receive waits at most, where it waits.
    ///
    /// # Errors
    /// The socket's.
    fn set_wait(&mut self, wait: Duration) -> io::Result<()>
        // The socket is asked to wait for at most this time.
        ensures asked { Asks (asked self.old) (asked self.new) (WaitAtMost (as_nanos wait) ∷ []) }
        // Whether the call failed, and by which error, is what the socket says that it answered.
        ensures answered { answered self.new (error_of result) };

    /// Sets whether sends and receives wait, or return at once.
    ///
    /// # Errors
    /// The socket's.
    fn set_waits(&mut self, waits: bool) -> io::Result<()>
        // The socket is asked to wait, or to poll.
        ensures asked { Asks (asked self.old) (asked self.new) (Wait waits ∷ []) }
        // Whether the call failed, and by which error, is what the socket says that it answered.
        ensures answered { answered self.new (error_of result) };
}

impl DatagramSocket for UdpSocket {
    ghost asked = { AnyAsks };

    ghost began = { λ _. tt };

    fn send_datagram(&mut self, bytes: &[u8], to: SocketAddrV4) -> io::Result<()> {
        let _count = self.send_to(bytes, SocketAddr::V4(to))?;
        Ok(())
    }

    fn receive_datagram(
        &mut self,
        buffer: &mut [u8; LINK_ROOM],
    ) -> io::Result<(usize, SocketAddr)> {
        self.recv_from(buffer)
    }

    fn set_wait(&mut self, wait: Duration) -> io::Result<()> {
        self.set_read_timeout(Some(wait))?;
        self.set_write_timeout(Some(wait))
    }

    fn set_waits(&mut self, waits: bool) -> io::Result<()> {
        self.set_nonblocking(!waits)
    }
}

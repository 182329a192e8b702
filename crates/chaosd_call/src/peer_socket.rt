//! A client's socket, which hears its server alone.
ghost use Rattle.std.specs.Prelude.{◌↔◌, IsTrue};
ghost use Rattle.chaosd_call.specs.Hearing.{IsHeard};

use crate::waiting::Waiting;
use chaos_link::{DatagramSocket, LINK_ROOM, is_gone};
use std::io;
use std::io::ErrorKind;
use std::net::{SocketAddr, SocketAddrV4, UdpSocket};
use std::time::Duration;

/// A client's socket. It drops a datagram that comes from another UDP address than its server's, as
/// if none had come: an attacker who can't send from the server's address has nothing received,
/// whatever the attacker guesses. Where the system's socket is gone, it reports why. It notes in the
/// client's wait how each send went. It asks the inner socket exactly what it is asked.
#[derive(Drop)]
pub struct PeerSocket<'a, R, S = UdpSocket> {
    rt: &'a R,
    waiting: &'a Waiting<'a, R>,
    inner: S,
    /// The UDP address that is heard alone; where there is none, anybody is heard.
    heard: Option<SocketAddrV4>,
}

impl<'a, R: Eprint, S> PeerSocket<'a, R, S> {
    pub fn new(
        rt: &'a R,
        waiting: &'a Waiting<'a, R>,
        inner: S,
        heard: Option<SocketAddrV4>,
    ) -> Self {
        PeerSocket {
            rt,
            waiting,
            inner,
            heard,
        }
    }

    /// Whether a datagram from there is taken.
    fn hears(&self, from: SocketAddr) -> bool
        // A datagram is taken exactly where it came from the UDP address that is heard alone, or
        // where anybody is heard.
        ensures { IsTrue result ↔ IsHeard self.now.heard from }
    {
        match (self.heard, from) {
            (None, _) => true,
            (Some(heard), SocketAddr::V4(from)) => from == heard,
            (Some(_), SocketAddr::V6(_)) => false,
        }
    }

    /// Reports a call that failed since the socket is no longer one.
    fn report(&self, call: &str, error: &io::Error) {
        if is_gone(error) {
            let _ = eprintln!(self.rt; "chaosd: {call} failed: {error}");
        }
    }
}

impl<R: Eprint, S: DatagramSocket> DatagramSocket for PeerSocket<'_, R, S> {
    ghost asked = { λ now start. S.asked now.inner start.inner };

    ghost began = { λ socket. S.began socket.inner };

    fn send_datagram(&mut self, bytes: &[u8], to: SocketAddrV4) -> io::Result<()> {
        let sent = self.inner.send_datagram(bytes, to);
        match &sent {
            Ok(()) => self.waiting.sent(to, None),
            Err(error) => {
                self.report("sending", error);
                self.waiting.sent(to, Some(*error));
            }
        }
        sent
    }

    fn receive_datagram(
        &mut self,
        buffer: &mut [u8; LINK_ROOM],
    ) -> io::Result<(usize, SocketAddr)> {
        match self.inner.receive_datagram(buffer) {
            Ok((count, from)) if self.hears(from) => Ok((count, from)),
            Ok(_) => Err(io::Error::from(ErrorKind::WouldBlock)),
            Err(error) => {
                self.report("receiving", &error);
                Err(error)
            }
        }
    }

    fn set_wait(&mut self, wait: Duration) -> io::Result<()> {
        self.inner.set_wait(wait)
    }

    fn set_waits(&mut self, waits: bool) -> io::Result<()> {
        self.inner.set_waits(waits)
    }
}

//! A socket that seals what it sends, and opens what it receives.
ghost use Rattle.std.specs.Prelude.{◌≡◌, ◌≤◌, ◌∷◌, [], IfErr, IfOk, None, Some, refl};
ghost use Rattle.std.specs.Duration.{as_nanos};
ghost use Rattle.chaos_link.specs.Gone.{error_of};
ghost use Rattle.chaos_link.specs.Heard.{source_of};
ghost use Rattle.chaos_link.specs.Link.{Asks};
ghost use Rattle.chaos_link.specs.Udp.{ReceiveOne, SendTo, Wait, WaitAtMost};
ghost use Rattle.chaos_sealed_socket.specs.Beneath.{AnsweredBeneath, AsksBeneath, HeldBefore};
ghost use Rattle.chaos_sealed_socket.specs.Calls.{ReceivesOver, SendsOver, SendsSealedOver, TakesTurn, count_of};
ghost use Rattle.chaos_sealed_socket.specs.Notice.{HearsOnce, notice_of, unheard_notice};
ghost use Rattle.chaos_sealed_socket.specs.Socket.{Greets, Replies, SendsAgain, sealed_host};

use crate::header::destination;
use crate::observer::{SealObserver, Unobserved};
use crate::recent::Recent;
use chaos_link::{DatagramSocket, LINK_ROOM};
use chaos_seal::{Opened, Seals};
use std::io;
use std::marker::Model;
use std::net::{SocketAddr, SocketAddrV4};
use std::time::Duration;

/// A socket over another socket. It seals what goes to a host with a key, and opens what comes. A
/// contract sees the socket beneath, the keys with what was sealed and heard, the datagram that was
/// sealed last, and the observer.
#[derive(Drop)]
pub struct SealedSocket<S, O = Unobserved> {
    socket: S,
    seals: Seals,
    observer: O,
    /// What was sealed last.
    recent: Recent,
    /// Room to seal in. What stands there is never read.
    room: [u8; LINK_ROOM],
}

impl<S, O> Model for SealedSocket<S, O> {
    ghost use Rattle.chaos_sealed_socket.specs.Socket.{SealedView};

    ghost Value = { SealedView S O };

    ghost view = { λ sealed. record {
      socket = sealed.socket;
      sealing = record { seals = sealed.seals; kept = sealed.recent };
      observer = sealed.observer;
    } };
}

impl<S, O> SealedSocket<S, O> {
    /// A socket over this socket, with these keys and this observer.
    pub fn new(socket: S, seals: Seals, observer: O) -> Self
        // A new socket has kept no datagram.
        ensures { result ≡ record {
          socket = socket;
          sealing = record { seals = seals; kept = None };
          observer = observer;
        } }
    {
        SealedSocket {
            socket,
            seals,
            observer,
            recent: Recent::new(),
            room: [0; LINK_ROOM],
        }
    }

    /// The host that a datagram is sealed for, if there is one.
    #[inline(always)]
    fn sealed_host(&self, bytes: &[u8]) -> Option<u16>
        ensures { result ≡ sealed_host self.now.sealing.seals bytes.now }
    {
        let host = destination(bytes)?;
        if self.seals.has_key(host) {
            Some(host)
        } else {
            None
        }
    }
}

impl<S: DatagramSocket, O: SealObserver> SealedSocket<S, O> {
    /// Sends a datagram under seal to this host, and keeps it.
    fn send_sealed(&mut self, host: u16, bytes: &[u8], to: SocketAddrV4) -> io::Result<()>
        ensures sends { SendsSealedOver S.asked O.hears host
            (record { to = to; bytes = bytes.now }) self.old self.new }
        ensures error { IfErr result (λ error. S.answered self.new.socket (Some error)) }
    {
        let Some(count) = self.seals.seal(host, bytes, &mut self.room) else {
            return Ok(());
        };
        self.recent.keep(bytes, to);
        report_unheard(&mut self.observer, &self.seals, host);
        self.socket.send_datagram(&self.room[..count], to)
    }

    /// Sends the kept datagram once more, sealed anew, if it is for this host.
    fn send_again(&mut self, host: u16)
        ensures takes { TakesTurn S.asked (SendsAgain self.old.sealing.kept host) self.old self.new }
        ensures observer { self.new.observer ≡ self.old.observer }
    {
        let Some(to) = self.recent.to_host(host) else {
            return;
        };
        let Some(count) = self.seals.seal(host, self.recent.bytes(), &mut self.room) else {
            return;
        };
        let _ = self.socket.send_datagram(&self.room[..count], to);
    }

    /// Answers a session of this host with a hello, to where the datagram came from.
    fn greet(&mut self, host: u16, session: u64, from: SocketAddr)
        ensures takes { TakesTurn S.asked (Greets (source_of from) host session) self.old self.new }
        ensures observer { self.new.observer ≡ self.old.observer }
    {
        let SocketAddr::V4(there) = from else {
            return;
        };
        let Some(count) = self.seals.hello(host, session, &mut self.room) else {
            return;
        };
        let _ = self.socket.send_datagram(&self.room[..count], there);
    }

    /// Replies to what came from there and was opened as this, and answers how many of its `count`
    /// bytes are handed up.
    fn hand_up(&mut self, opened: Opened, count: usize, from: SocketAddr) -> usize
        ensures count { result ≡ count_of opened count }
        ensures takes { TakesTurn S.asked (Replies opened from) self.old self.new }
        ensures heard { HearsOnce O.hears self.old.observer (notice_of opened from) self.new.observer }
    {
        match opened {
            Opened::Plain => count,
            Opened::Payload(long) => long,
            Opened::Hello { to, session } => {
                self.greet(to, session, from);
                0
            }
            Opened::Learned { from: host } => {
                self.send_again(host);
                0
            }
            Opened::Refused(fault) => {
                self.observer.refused(from, fault);
                0
            }
        }
    }
}

impl<S: DatagramSocket, O: SealObserver> DatagramSocket for SealedSocket<S, O> {
    ghost asked = { AsksBeneath S.asked };

    ghost began = { λ sealed. record {
      beneath_asks = [];
      beneath_asked = S.began sealed.socket;
      goes = (refl, refl);
    } };

    ghost answered = { AnsweredBeneath S.answered };

    ghost came = { λ sealed from. HeldBefore S.asked (λ beneath. S.came beneath from) sealed };

    /// Sends a datagram in clear where its destination has no key, and otherwise under seal.
    fn send_datagram(&mut self, bytes: &[u8], to: SocketAddrV4) -> io::Result<()>
        // The socket is asked once to send these bytes to this UDP address. So the socket beneath
        // was asked exactly what `AsksForAll` makes of all that the socket was asked.
        ensures asked { Asks (AsksBeneath S.asked self.old) (AsksBeneath S.asked self.new)
            (SendTo (record { to = to; bytes = bytes.now }) ∷ []) }
        // An error is what the socket beneath answered.
        ensures answered { AnsweredBeneath S.answered self.new (error_of result) }
        // Where the destination has no key, the socket beneath is asked to send exactly these bytes
        // to this UDP address. Otherwise the socket beneath is asked to send once, to the same UDP
        // address, the bytes sealed for the destination, and the datagram is kept. A datagram is lost
        // where no counter is left or its bytes are too many. After a datagram went out under seal
        // the observer hears once if nothing of its destination was opened yet.
        ensures sends { SendsOver S.asked O.hears (record { to = to; bytes = bytes.now })
            self.old self.new }
    {
        match self.sealed_host(bytes) {
            None => self.socket.send_datagram(bytes, to),
            Some(host) => self.send_sealed(host, bytes, to),
        }
    }

    /// Receives a datagram and opens it. A datagram that isn't handed up is handed up as no bytes.
    fn receive_datagram(&mut self, buffer: &mut [u8; LINK_ROOM]) -> io::Result<(usize, SocketAddr)>
        // No more bytes come than the buffer has. A datagram comes from where the socket beneath
        // had it from. An error is what the socket beneath answered.
        ensures within { IfOk result (λ datagram. datagram.0 ≤ LINK_ROOM) }
        ensures came { IfOk result (λ datagram.
            HeldBefore S.asked (λ beneath. S.came beneath datagram.1) self.new) }
        ensures answered { AnsweredBeneath S.answered self.new (error_of result) }
        // The socket is asked once for a datagram. So the socket beneath was asked exactly what
        // `AsksForAll` makes of all that the socket was asked.
        ensures asked { Asks (AsksBeneath S.asked self.old) (AsksBeneath S.asked self.new)
            (ReceiveOne ∷ []) }
        // The socket beneath is asked once to receive. What comes is opened, unless there is no key,
        // and what is handed up for it stands in the front of the buffer. Then the socket beneath is
        // asked to send the reply: a hello to where the datagram came from that asks for it; or the
        // kept datagram, sealed anew, to where that was sent, once the session of its destination
        // was learned. The observer hears each refusal once.
        ensures receives { ReceivesOver S.asked S.answered S.came O.hears self.old self.new
            buffer.new result }
    {
        let (count, from) = self.socket.receive_datagram(buffer)?;
        if self.seals.is_empty() {
            return Ok((count, from));
        }
        let opened = self.seals.open(buffer, count);
        Ok((self.hand_up(opened, count, from), from))
    }

    fn set_wait(&mut self, wait: Duration) -> io::Result<()>
        // The socket is asked to wait for at most this time, and asks that of the socket beneath.
        // Nothing else changes.
        ensures asked { Asks (AsksBeneath S.asked self.old) (AsksBeneath S.asked self.new)
            (WaitAtMost (as_nanos wait) ∷ []) }
        ensures answered { AnsweredBeneath S.answered self.new (error_of result) }
        ensures over { Asks (S.asked self.old.socket) (S.asked self.new.socket)
            (WaitAtMost (as_nanos wait) ∷ []) }
        ensures stays { self.new ≡ record self.old { socket = self.new.socket } }
    {
        self.socket.set_wait(wait)
    }

    fn set_waits(&mut self, waits: bool) -> io::Result<()>
        // The socket is asked to wait or to poll, and asks that of the socket beneath. Nothing else
        // changes.
        ensures asked { Asks (AsksBeneath S.asked self.old) (AsksBeneath S.asked self.new)
            (Wait waits ∷ []) }
        ensures answered { AnsweredBeneath S.answered self.new (error_of result) }
        ensures over { Asks (S.asked self.old.socket) (S.asked self.new.socket) (Wait waits ∷ []) }
        ensures stays { self.new ≡ record self.old { socket = self.new.socket } }
    {
        self.socket.set_waits(waits)
    }
}

/// Reports where nothing of a host was opened yet.
fn report_unheard<O: SealObserver>(observer: &mut O, seals: &Seals, host: u16)
    ensures { HearsOnce O.hears observer.old (unheard_notice host seals.now) observer.new }
{
    if let Some(sealed) = seals.unheard(host) {
        observer.unheard(host, sealed);
    }
}

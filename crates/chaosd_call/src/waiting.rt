//! A client that waits for a server, and what it reports of that.
ghost use Rattle.std.specs.Prelude.{◌≡◌};
ghost use Rattle.chaos_link.specs.SocketFault.{is_fault};
ghost use Rattle.chaosd_call.specs.Hearing.{IsKnownAt};
ghost use Rattle.chaosd_call.specs.Sending.{fault_of_send};

use chaos_link::{DatagramSocket, LINK_ROOM, Peer, SocketCall, SocketFault};
use file_copy::NoReply;
use std::cell::Cell;
use std::fmt::{Display, Formatter};
use std::io::ErrorKind;
use std::net::{Ipv4Addr, Net, SocketAddr, SocketAddrV4, UdpSocket};
use std::time::{Clock, Duration};
use std::{fmt, io};

/// After so many milliseconds without an answer a client reports that it waits for the server.
const REPORTED_AFTER: u64 = 1_000;

/// After so many milliseconds the system is asked whether anybody listens there, and then again
/// each time that as many have passed.
const ASKED_EVERY: u64 = 250;

/// A server that was refused for so many milliseconds isn't there: one that only begins again is
/// there by then.
const GONE_AFTER: u64 = 1_000;

/// How the question about a server ends that doesn't answer a client with a key.
const WITH_KEY: &str = ", with the same key?";

/// The same for a client without a key.
const WITHOUT_KEY: &str = "? A server that has a key for this host answers under seal alone";

/// What a wait has come to. Moments are milliseconds.
#[derive(Clone, Copy)]
struct Wait {
    /// The moment at which the wait began.
    since: Option<u64>,
    /// When the system was asked last, or the wait began.
    asked: u64,
    /// Since when the system refuses.
    refused: Option<u64>,
    was_reported: bool,
    /// Whether the server was heard.
    is_heard: bool,
    is_over: bool,
}

impl Wait {
    const BEGUN: Wait = Wait {
        since: None,
        asked: 0,
        refused: None,
        was_reported: false,
        is_heard: false,
        is_over: false,
    };
}

/// A client's wait for a server, up to its first answer. After a second the wait is reported, where
/// a user asked for more.
///
/// The system says of a connected UDP socket alone that nobody listens where it sends to. A
/// client's own socket isn't connected, since a server of several addresses may answer from another
/// one; so a second socket, the probe, is. By it an empty datagram, which no host takes for a
/// packet, is sent to a server that doesn't answer.
#[derive(Drop)]
pub struct Waiting<'a, R> {
    rt: &'a R,
    server: Peer,
    is_reported: bool,
    /// Whether the client and the server have a key.
    has_key: bool,
    probe: Option<UdpSocket>,
    wait: Cell<Wait>,
    /// The fault by which the last send failed, where it did.
    unsent: Cell<Option<SocketFault>>,
}

/// Where a client is, as its server has to know. A client that the system gave any of its UDP
/// addresses has none to name.
fn known_place(socket: SocketAddrV4) -> Option<SocketAddrV4>
    // The result is the client's UDP address, except where that is the unspecified address.
    ensures { IsKnownAt socket result }
{
    if socket.ip().is_unspecified() {
        None
    } else {
        Some(socket)
    }
}

/// The host that a client is, and where it is, as the question about its server names them.
#[derive(Clone, Copy)]
struct KnownHost(Peer);

impl Display for KnownHost {
    fn fmt<W: fmt::Write>(&self, f: &mut Formatter<W>) -> fmt::Result {
        let Peer { address, socket } = self.0;
        match known_place(socket) {
            Some(place) => write!(f, "host {address:o} at {place}"),
            None => write!(f, "host {address:o}"),
        }
    }
}

/// Whether an error of a send says more than that the send would have to wait.
fn is_fault(kind: ErrorKind) -> bool
    ensures { result ≡ is_fault kind }
{
    match kind {
        ErrorKind::WouldBlock
        | ErrorKind::TimedOut
        | ErrorKind::Interrupted
        | ErrorKind::ConnectionRefused => false,
        _ => true,
    }
}

/// The fault by which the last send failed, once one to this UDP address failed by this error, or
/// by none.
fn fault_of_send(
    to: SocketAddrV4,
    error: Option<io::Error>,
    before: Option<SocketFault>,
) -> Option<SocketFault>
    // A send that didn't fail leaves no fault. A send that failed by a fault leaves that one, and
    // another failure the fault of before.
    ensures { result ≡ fault_of_send to error before }
{
    match error {
        None => None,
        Some(error) if is_fault(error.kind()) => Some(SocketFault {
            call: SocketCall::Send(to),
            error,
            earlier: 0,
        }),
        Some(_) => before,
    }
}

/// A socket that is connected to this UDP address, where one can be had.
fn probe_of<R: Net>(rt: &R, server: SocketAddrV4) -> io::Result<UdpSocket> {
    let any = SocketAddrV4::new(Ipv4Addr::UNSPECIFIED, 0);
    let probe = UdpSocket::bind(rt, SocketAddr::V4(any))?;
    probe.connect(SocketAddr::V4(server))?;
    probe.set_nonblocking(true)?;
    Ok(probe)
}

impl<'a, R: Eprint> Waiting<'a, R> {
    /// A wait for this server that hasn't begun. What fails of its probe is passed over.
    pub fn new(rt: &'a R, server: Peer, is_reported: bool, has_key: bool) -> Self
    where
        R: Net,
    {
        Waiting {
            rt,
            server,
            is_reported,
            has_key,
            probe: probe_of(rt, server.socket).ok(),
            wait: Cell::new(Wait::BEGUN),
            unsent: Cell::new(None),
        }
    }

    /// The server that is waited for.
    pub fn server(&self) -> Peer {
        self.server
    }

    /// The server was heard: nothing is waited for any more.
    pub fn hear(&self) {
        let wait = self.wait.get();
        self.wait.set(Wait {
            is_heard: true,
            ..wait
        });
    }

    /// Whether nobody listens where the server is to be.
    pub fn is_over(&self) -> bool {
        self.wait.get().is_over
    }

    /// A datagram was sent to this UDP address, or that failed by this error.
    pub fn sent(&self, to: SocketAddrV4, error: Option<io::Error>) {
        self.unsent.set(fault_of_send(to, error, self.unsent.get()));
    }

    /// Reports behind this lead why the server didn't answer a client, and what to look at: the
    /// fault by which the last send failed, if it did.
    pub fn report_no_reply<D: Display>(
        &self,
        client: Peer,
        lead: &D,
        why: &NoReply,
    ) -> io::Result<()> {
        let server = self.server.socket;
        if self.is_over() {
            return eprintln!(self.rt; "chaosd: {lead}no server listens at {server}");
        }
        if why.is_open || why.end.is_some() {
            return eprintln!(self.rt; "chaosd: {lead}{why}");
        }
        if let Some(fault) = self.unsent.get() {
            return eprintln!(self.rt; "chaosd: {lead}{why}: {fault}");
        }
        let client = KnownHost(client);
        let hint = if self.has_key { WITH_KEY } else { WITHOUT_KEY };
        eprintln!(self.rt;
            "chaosd: {lead}{why}: does a server run at {server}, and does its hosts table (or a PEER) have {client}{hint}"
        )
    }

    /// Nothing has come by this moment.
    pub fn look(&self, now: u64) {
        let mut wait = self.wait.get();
        if wait.is_heard || wait.is_over {
            return;
        }
        let since = wait.since.unwrap_or(now);
        if wait.since.is_none() {
            wait.since = Some(now);
            wait.asked = now;
        }
        if !wait.was_reported && now.saturating_sub(since) >= REPORTED_AFTER {
            wait.was_reported = true;
            self.report();
        }
        if now.saturating_sub(wait.asked) >= ASKED_EVERY {
            wait.asked = now;
            self.ask();
        }
        if self.is_refused() {
            let refused = wait.refused.unwrap_or(now);
            wait.refused = Some(refused);
            wait.is_over = now.saturating_sub(refused) >= GONE_AFTER;
        }
        self.wait.set(wait);
    }

    fn report(&self) {
        if self.is_reported {
            let Peer { address, socket } = self.server;
            let _ = eprintln!(self.rt; "chaosd: waiting for host {address:o} at {socket}");
        }
    }

    fn ask(&self) {
        if let Some(probe) = &self.probe {
            let _ = probe.send(&[]);
        }
    }

    /// Whether the system said, since it was asked last, that nobody listens there.
    fn is_refused(&self) -> bool {
        match &self.probe {
            Some(probe) => match probe.recv(&mut [0; 1]) {
                Ok(_) => false,
                Err(error) => error.kind() == ErrorKind::ConnectionRefused,
            },
            None => false,
        }
    }
}

/// A client's socket, whose receives fail once nobody listens where the server is to be. It asks
/// the inner socket exactly what it is asked.
#[derive(Drop)]
pub struct WaitingSocket<'a, R, S = UdpSocket> {
    inner: S,
    waiting: &'a Waiting<'a, R>,
}

impl<'a, R: Clock + Eprint, S> WaitingSocket<'a, R, S> {
    pub fn new(inner: S, waiting: &'a Waiting<'a, R>) -> Self {
        WaitingSocket { inner, waiting }
    }

    /// Nothing came: the wait goes on, or is over.
    fn wait(&self) -> io::Result<()> {
        let now = self.waiting.rt.monotonic()?;
        self.waiting
            .look(u64::try_from(now.as_millis()).unwrap_or(u64::MAX));
        if self.waiting.is_over() {
            return Err(io::Error::from(ErrorKind::NotConnected));
        }
        Ok(())
    }
}

impl<R: Clock + Eprint, S: DatagramSocket> DatagramSocket for WaitingSocket<'_, R, S> {
    ghost asked = { λ now start. S.asked now.inner start.inner };

    ghost began = { λ socket. S.began socket.inner };

    fn send_datagram(&mut self, bytes: &[u8], to: SocketAddrV4) -> io::Result<()> {
        self.inner.send_datagram(bytes, to)
    }

    fn receive_datagram(
        &mut self,
        buffer: &mut [u8; LINK_ROOM],
    ) -> io::Result<(usize, SocketAddr)> {
        match self.inner.receive_datagram(buffer) {
            Ok(datagram) => {
                self.waiting.hear();
                Ok(datagram)
            }
            Err(error) => {
                self.wait()?;
                Err(error)
            }
        }
    }

    fn set_wait(&mut self, wait: Duration) -> io::Result<()> {
        self.inner.set_wait(wait)
    }

    fn set_waits(&mut self, waits: bool) -> io::Result<()> {
        self.inner.set_waits(waits)
    }
}

//! `example_lines`: the service LINES over a UDP socket, for many clients at once. docs/LIBRARY.md walks through it.
//!
//! Each line that a client writes comes back with the seconds since its connection began in front. The words are the host's address
//! in octal, the UDP port, and the clients: `example_lines 401 9001 402=127.0.0.1:9002`. The server runs until a signal ends it.
#![tactic(auto)]

ghost use Rattle.std.specs.Prelude.{◌≡◌, ◌≤◌, length};

use arrayvec::ArrayVec;
use chaos_conn::ConnConfig;
use chaos_host::{CallFault, ConnId, Host};
use chaos_link::{Carriage, Peer, Peers, UdpLink};
use chaos_node::{ClockMoments, Moments, Node, NodeFault, TurnEnd};
use chaos_packet::{MAX_DATA, Outbox, PktNum};
use chaos_stream::{HostStream, Peek};
use itoa::Buffer;
use std::alloc::{AllocError, Global};
use std::env::args;
use std::io;
use std::net::{Ipv4Addr, Net, SocketAddr, SocketAddrV4, UdpSocket};
use std::process::ExitCode;
use std::rt::Env;
use std::time::Clock;
use thiserror::Error;

/// How many clients are served at once.
const SLOTS: usize = 16;

/// The room for 20 digits of seconds in front of a line, a space, and a byte of the line.
const MARGIN: usize = 22;

/// Why the server doesn't begin, or ends.
#[derive(Debug, Drop, Error)]
enum Fault {
    #[error("usage: example_lines ADDRESS PORT PEER.., as in 401 9001 402=127.0.0.1:9002")]
    Words,
    #[error("{0}")]
    System(#[from] io::Error),
    #[error("the address is 0, or there is no memory")]
    Host,
    #[error("{0}")]
    Node(#[from] NodeFault),
}

/// The connection in a slot.
#[derive(Drop)]
struct Session {
    stream: HostStream,
    /// The moment at which it began, in milliseconds.
    since: u64,
    /// Whether the client's next byte begins a line.
    begins_line: bool,
}

/// The server. It has a session for each slot of its host.
#[derive(Drop)]
struct Server {
    node: Node,
    link: UdpLink,
    sessions: Vec<Session>,
}

/// The reply to as many of these bytes as fit one packet, and how many these are.
fn reply_to(bytes: &[u8], seconds: u64, begins_line: &mut bool) -> (ArrayVec<u8, MAX_DATA>, usize)
    ensures { result.1 ≤ length bytes.now }
{
    let (mut text, mut taken) = (ArrayVec::new(), 0);
    let mut digits = Buffer::new();
    let number = digits.format(seconds).as_bytes();
    for (place, byte) in bytes.iter().enumerate() {
        if text.remaining_capacity() < MARGIN {
            break;
        }
        if *begins_line {
            let _fits = text.try_extend_from_slice(number);
            let _fits = text.try_push(b' ');
        }
        let _fits = text.try_push(*byte);
        taken = place + 1;
        *begins_line = *byte == b'\n';
    }
    (text, taken)
}

impl Session {
    /// The session of a connection that begins.
    fn new(id: ConnId, since: u64) -> Self {
        Session {
            stream: HostStream::new(id),
            since,
            begins_line: true,
        }
    }

    /// Whether something of the client can be replied to now.
    fn is_ready(&self, host: &Host) -> bool {
        let id = self.stream.id();
        matches!(host.front(id), Ok(Some(_))) && matches!(host.can_write(id), Ok(true))
    }

    /// Reads the item in front, and replies to it, if the client's window takes a reply. The item is
    /// read first, so the reply acknowledges it.
    fn talk(&mut self, host: &mut Host, now: u64, out: &mut Outbox) -> Result<(), CallFault>
        ensures { out.new.cap ≡ out.old.cap }
    {
        if out.room() < 2 || !self.is_ready(host) {
            return Ok(());
        }
        match self.stream.peek(host)? {
            Peek::Bytes(bytes) => {
                let seconds = now.saturating_sub(self.since) / 1_000;
                let mut begins_line = self.begins_line;
                let (text, taken) = reply_to(bytes, seconds, &mut begins_line);
                self.begins_line = begins_line;
                self.stream.consume(host, taken, out)?;
                let _all = self.stream.put_bytes(host, text.as_slice(), now, out)?;
            }
            Peek::Eof => {
                self.stream.consume(host, 0, out)?;
                self.stream.put_eof(host, now, out)?;
            }
            Peek::Nothing | Peek::Ended => {}
        }
        Ok(())
    }
}

/// Serves a slot: frees it if its connection has ended, accepts a request, and replies to what is
/// in front. A refused call changes nothing, and the next turn looks at the slot again.
fn serve_slot(
    node: &mut Node,
    slot: usize,
    session: &mut Session,
    first: PktNum,
    now: u64,
) -> Result<(), CallFault> {
    let Some(id) = node.host.id_of(slot) else {
        return Ok(());
    };
    if node.out.room() < 3 {
        return Ok(());
    }
    if node.host.release(id, &mut node.out).is_ok() {
        return Ok(());
    }
    if node.host.contact(id).is_ok() {
        node.host.accept(id, first, now, &mut node.out)?;
    }
    if session.stream.id() != id {
        *session = Session::new(id, now);
    }
    session.talk(&mut node.host, now, &mut node.out)
}

/// A session for each slot. No connection has the index 0.
fn new_sessions(alloc: Global) -> Result<Vec<Session>, AllocError> {
    let mut sessions = Vec::with_capacity(alloc, SLOTS)?;
    for _ in 0..SLOTS {
        sessions.push(Session::new(ConnId(0), 0))?;
    }
    Ok(sessions)
}

/// Whether any client can be replied to now. Then a turn must not wait.
fn is_any_ready(host: &Host, sessions: &[Session]) -> bool {
    sessions.iter().any(|session| session.is_ready(host))
}

impl Server {
    /// A server that listens to LINES.
    fn new(alloc: Global, address: u16, link: UdpLink) -> Option<Self> {
        let mut host = Host::new(alloc, address, SLOTS, ConnConfig::usual()).ok()?;
        host.listen(b"LINES").ok()?;
        Some(Server {
            node: Node::new(alloc, host, Carriage::One).ok()?,
            link,
            sessions: new_sessions(alloc).ok()?,
        })
    }

    /// Takes what came, serves each slot, and sends what is due. The turn waits for a datagram only
    /// if nothing that came before can be replied to.
    fn turn(&mut self, first: PktNum, now: u64) -> TurnEnd {
        let node = &mut self.node;
        let may_wait = !is_any_ready(&node.host, &self.sessions);
        node.receive(&mut self.link, now, may_wait);
        for (slot, session) in self.sessions.iter_mut().enumerate() {
            let _served = serve_slot(node, slot, session, first, now);
            node.send(&mut self.link);
        }
        node.tick(&mut self.link, now)
    }
}

/// The peer that a word such as 402=127.0.0.1:9002 names.
fn peer_of(word: &str) -> Option<Peer> {
    let (address, socket) = word.split_once('=')?;
    Some(Peer {
        address: u16::from_str_radix(address, 8).ok()?,
        socket: socket.parse().ok()?,
    })
}

/// What the words behind the program's name say: the host's address, the port, and the clients.
fn line_of(words: &[String]) -> Option<(u16, u16, Peers)> {
    let [_, address, port, rest @ ..] = words else {
        return None;
    };
    let mut peers = Peers::new();
    for word in rest {
        peers.add(peer_of(word.as_str())?).ok()?;
    }
    let address = u16::from_str_radix(address.as_str(), 8).ok()?;
    Some((address, port.parse().ok()?, peers))
}

/// Opens the socket, and makes one turn after another.
fn run<R: AllocGlobal + Clock + Env + Net + Print>(rt: &R) -> Result<(), Fault> {
    let words: Vec<String> = args(rt)?.collect(rt.alloc()).map_err(io::Error::from)?;
    let (address, port, peers) = line_of(words.as_slice()).ok_or(Fault::Words)?;
    let here = SocketAddr::V4(SocketAddrV4::new(Ipv4Addr::UNSPECIFIED, port));
    let link = UdpLink::new(UdpSocket::bind(rt, here)?, peers);
    let mut server = Server::new(rt.alloc(), address, link).ok_or(Fault::Host)?;
    let mut moments = ClockMoments::new(rt)?;
    println!(rt; "host {address:o} serves LINES at port {port}")?;
    for _ in 0..u64::MAX {
        let now = moments.next()?;
        if server.turn(moments.start(now), now) == TurnEnd::LinkFault {
            return Err(Fault::Node(NodeFault::Link));
        }
    }
    Ok(())
}

/// The program.
fn main(rt: HostRuntime) -> ExitCode {
    match run(&rt) {
        Ok(()) => ExitCode::SUCCESS,
        Err(fault) => {
            let _ = eprintln!(rt; "example_lines: {fault}");
            ExitCode::FAILURE
        }
    }
}

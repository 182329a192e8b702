//! The run of `ask`.
ghost use Rattle.std.specs.Prelude.{◌<◌, ◌≡◌, unwrap_or};
ghost use Rattle.chaos_link.specs.Peers.{socket_of};
ghost use Rattle.chaosd_call.specs.Config.{interval_by};
ghost use Rattle.chaosd_call.specs.Patience.{patience_by};
ghost use Rattle.chaosd.specs.Asked.{IsAskedBy, asked_host};

use crate::script_ends::end_script;
use crate::terminal_script::{PollTerminal, Terminal, TerminalScript};
use crate::terminals::Terminals;
use chaos_chudp::ChudpLink;
use chaos_conn::USUAL_WINDOW;
use chaos_link::{Link, Peer, Peers, UdpLink};
use chaos_node::{Epoch, Interval, NodeFault, RetransmitTimer};
use chaosd_ask::{HandleName, NOBODY, Notes, ScriptEnd, ask_script};
use chaosd_call::{
    CallWords, ExitStatus, Key, OpenEnds, PeerSocket, Waiting, WaitingSocket, config_of,
    contact_of, has_input, heard_alone, hops_of, interval_of, key_of_line, open_named, patience_of,
    report_unopened, sealed_to,
};
use chaosd_io::RunFault;
use chaosd_line::{Ask, AskEnds, AskTarget, Framing};
use file_client::{Client, ClientHost, ClockDriver, Patience, Route, Timing};
use file_copy::Shown;
use std::fs::{File, Files};
use std::io;
use std::io::{Read, Write};
use std::net::{Net, SocketAddr, SocketAddrV4, UdpSocket};
use std::rt::Env;
use std::time::Clock;

/// The host that is asked, and a report where the line's host can't be asked.
fn asked_host<R: Eprint>(rt: &R, to: u16, peers: &Peers) -> u16
    // The host is this one where it is a peer or there is a bridge, otherwise a host that nobody
    // has.
    ensures { result ≡ asked_host to peers.now }
{
    if peers.find(to).is_some() {
        return to;
    }
    let _ = eprintln!(rt; "chaosd: host {to:o} is no PEER");
    NOBODY
}

/// Who asks whom, and how.
#[derive(Drop)]
struct Asked {
    route: Route,
    /// When kept packets are sent again.
    interval: Interval,
    patience: Patience,
    is_strict: bool,
    socket: SocketAddrV4,
    server: Peer,
    ghost named: { 0 < route.me },
}

/// How a script ended, and what was noted of the run.
#[derive(Drop)]
struct Answered {
    end: Result<ScriptEnd, RunFault>,
    notes: Notes,
}

/// Reports each handle that was written and not closed: what was written to it became no file.
fn report_written<R: Eprint>(rt: &R, handles: &[HandleName]) {
    for handle in handles {
        let name = Shown(handle.as_slice());
        let _ = eprintln!(rt;
            "chaosd: handle {name} was written and not closed, so its file was not kept"
        );
    }
}

/// Puts the script on standard input over the link.
fn ask_over<R: AllocGlobal + Clock + Eprint + Input + Print, L: Link>(
    rt: &R,
    link: &mut L,
    asked: &Asked,
    terminal: Terminal,
) -> Answered {
    let mut reader = rt.reader();
    let mut writer = io::writer(rt);
    ask_through(rt, link, asked, terminal, &mut reader, &mut writer)
}

/// The host of the client that asks, and the timing of its run, which begins now.
fn host_of<R: AllocGlobal + Clock>(
    rt: &R,
    asked: &Asked,
) -> Result<(ClientHost, Timing), NodeFault> {
    let epoch = Epoch::new(rt)?;
    let host = ClientHost::new(rt.alloc(), &asked.route, epoch.passed())?;
    let patience = asked.patience;
    Ok((host, Timing { epoch, patience }))
}

/// Puts the reader's script over the link, and its replies into the writer.
fn ask_through<'a, R: AllocGlobal + Clock + Eprint, L: Link, I: Read, W: Write>(
    rt: &'a R,
    link: &mut L,
    asked: &Asked,
    terminal: Terminal,
    reader: &'a mut I,
    writer: &mut W,
) -> Answered {
    let mut script = TerminalScript::new(rt, reader, terminal, asked.is_strict);
    let mut notes = Notes::new();
    let end = match host_of(rt, asked) {
        Ok((mut host, timing)) => {
            let mut timers = [RetransmitTimer::new(asked.interval)];
            let mut client = Client {
                host: &mut host,
                driver: ClockDriver::new(rt, link, timing, &mut timers),
            };
            ask_script::<PollTerminal, ClockDriver<'_, '_, R, L>, TerminalScript<'a, R, I>, W>(
                &mut client,
                &mut script,
                writer,
                &mut notes,
            )
        }
        Err(fault) => Err(RunFault::from(fault)),
    };
    if end.is_ok() {
        report_written(rt, notes.replies.written());
    }
    Answered { end, notes }
}

/// Reports how a script ended, and gives the exit status.
fn end_asked<R: Clock + Eprint + Print>(
    rt: &R,
    asked: &Asked,
    waiting: &Waiting<'_, R>,
    answered: Answered,
) -> ExitStatus {
    let Answered { end, mut notes } = answered;
    match notes.no_reply.take() {
        // It was reported that the host is no peer.
        Some(_) if asked.server.address == NOBODY => end_script(rt, &end, &notes),
        Some(why) => {
            let client = Peer {
                address: asked.route.me,
                socket: asked.socket,
            };
            let _ = waiting.report_no_reply(client, &"", &why);
            end_script(rt, &end, &notes)
        }
        None if waiting.is_over() => end_refused(rt, asked.server),
        None => {
            let was_error = asked.is_strict && notes.replies.has_error();
            strict_status(end_script(rt, &end, &notes), was_error)
        }
    }
}

/// The exit status of a run over a script, which is refused where it was to end by an error, and
/// did.
fn strict_status(status: ExitStatus, was_error: bool) -> ExitStatus {
    if status == ExitStatus::Done && was_error {
        ExitStatus::Refused
    } else {
        status
    }
}

/// The server that is asked, with its route and its UDP addresses. A host that can't be asked is
/// reported.
fn asked_of<R: Eprint>(rt: &R, line: &Ask<'_>, ends: &AskEnds) -> Asked
    // The route leads from the own end to the host that is asked, for the line's contact, by its
    // carriage. Its time to send again is the line's, or the least time.
    ensures route { IsAskedBy line.now ends.now result.route }
    // Kept packets are sent again by the line's time, or by a time that is measured.
    ensures interval { result.interval ≡ interval_by line.now.retransmit }
    // A reply is waited for as long as the line says.
    ensures patience { result.patience ≡ patience_by line.now.timeout }
    // The run ends by its first error exactly where the line is strict.
    ensures is_strict { result.is_strict ≡ line.now.is_strict }
    // The client is at the UDP address of the own end.
    ensures socket { result.socket ≡ ends.now.socket }
    // The server is the host that is asked. Its UDP address is the one that the peers have for it,
    // otherwise the client's own.
    ensures server { result.server.address ≡ result.route.to }
    ensures server_socket { result.server.socket
        ≡ unwrap_or (socket_of result.route.to ends.now.peers) ends.now.socket }
{
    let to = asked_host(rt, ends.to, &ends.peers);
    Asked {
        route: Route {
            me: ends.address,
            to,
            contact: contact_of(line.contact),
            config: config_of(USUAL_WINDOW, line.retransmit),
            carriage: line.framing.carriage(),
        },
        interval: interval_of(line.retransmit),
        patience: patience_of(line.timeout),
        is_strict: line.is_strict,
        socket: ends.socket,
        server: Peer {
            address: to,
            socket: ends.peers.find(to).unwrap_or(ends.socket),
        },
    }
}

/// Puts the script over a link, and reports how that ended.
fn ask_by_link<'r, R, L: Link + Drop>(
    rt: &'r R,
    mut link: L,
    asked: &Asked,
    waiting: &Waiting<'r, R>,
    terminals: Terminals,
) -> ExitStatus
where
    R: AllocGlobal + Clock + Eprint + Files<File = File> + Input + Print,
{
    let terminal = Terminal {
        is_typed: terminals.input && terminals.errors,
        file: terminals.open_input(rt),
    };
    let answered = ask_over(rt, &mut link, asked, terminal);
    end_asked(rt, asked, waiting, answered)
}

/// The ends of an `ask`, the key of the two hosts if they have one, and the socket at the own end.
#[derive(Drop)]
struct AskOpened {
    ends: AskEnds,
    key: Option<Key>,
    socket: UdpSocket,
}

/// Opens the own end of an `ask`. What is missing is reported, and the error is the status.
fn open_asked<R>(rt: &R, line: &Ask<'_>) -> Result<AskOpened, ExitStatus>
where
    R: AllocGlobal + Env + Eprint + Files<File = File> + Net,
{
    let ends = match &line.target {
        AskTarget::Name(name) => {
            let words = CallWords {
                framing: line.framing,
                key: line.key,
                hosts: line.hosts,
            };
            let OpenEnds { ends, key, socket } = open_named(rt, name, words)?;
            let ends = AskEnds::from(ends);
            return Ok(AskOpened { ends, key, socket });
        }
        AskTarget::Addresses(ends) => ends,
    };
    let key = key_of_line(rt, line.key)?;
    let opened = match UdpSocket::bind(rt, SocketAddr::V4(ends.socket)) {
        Ok(socket) => ends
            .clone()
            .map(|ends| AskOpened { ends, key, socket })
            .map_err(io::Error::from),
        Err(error) => Err(error),
    };
    opened.map_err(|error| report_unopened(rt, &ends.socket, &error))
}

/// Puts the script over the socket that was opened, and reports how that ended.
fn ask_opened<R>(rt: &R, line: &Ask<'_>, opened: AskOpened, terminals: Terminals) -> ExitStatus
where
    R: AllocGlobal + Clock + Env + Eprint + Files<File = File> + Input + Net + Print,
{
    let AskOpened { ends, key, socket } = opened;
    let asked = asked_of(rt, line, &ends);
    let is_reported = terminals.errors && !line.is_quiet;
    let waiting = Waiting::new(rt, asked.server, is_reported, key.is_some());
    let heard = heard_alone(asked.server, line.hears_anybody);
    let socket = WaitingSocket::new(PeerSocket::new(rt, &waiting, socket, heard), &waiting);
    let socket = match sealed_to(rt, socket, ends.address, asked.server.address, key) {
        Ok(socket) => socket,
        Err(status) => return status,
    };
    match line.framing {
        Framing::Own(_) => {
            let link = UdpLink::new(socket, ends.peers);
            ask_by_link(rt, link, &asked, &waiting, terminals)
        }
        Framing::Chudp(bridge) => {
            let hops = hops_of(ends.peers.hosts(), bridge);
            let link = ChudpLink::new(UdpLink::new(socket, ends.peers), ends.address, hops);
            ask_by_link(rt, link, &asked, &waiting, terminals)
        }
    }
}

/// Runs `ask` from standard input to standard output.
#[inline(never)]
pub(crate) fn run_ask_line<R>(rt: &R, line: Ask<'_>, terminals: Terminals) -> ExitStatus
where
    R: AllocGlobal + Clock + Env + Eprint + Files<File = File> + Input + Net + Print,
{
    if !has_input(rt) {
        return end_script(rt, &Err(RunFault::ReadFault), &Notes::new());
    }
    match open_asked(rt, &line) {
        Ok(opened) => ask_opened(rt, &line, opened, terminals),
        Err(status) => status,
    }
}

/// Reports that nobody listens where the server is to be, so that the first command gets no reply,
/// and gives the exit status.
fn end_refused<R: Eprint + Print>(rt: &R, server: Peer) -> ExitStatus {
    let _ = eprintln!(rt; "chaosd: no server listens at {}", server.socket);
    match println!(rt; "no reply") {
        Ok(()) => ExitStatus::Refused,
        Err(_) => end_script(rt, &Err(RunFault::WriteFault), &Notes::new()),
    }
}

//! The run of `serve`.
ghost use Rattle.std.specs.Prelude.{◌<◌, ◌≡◌, ◌≤◌, IfOk, length};
ghost use Rattle.chaos_link.specs.declared.limits.TheConstants.{MAX_PEERS};
ghost use Rattle.chaosd_call.specs.Config.{config_by, interval_by};
ghost use Rattle.chaosd_line.specs.Framings.{carriage_of};
ghost use Rattle.chaosd.specs.ServedPeers.{form_by, hops_in};

use crate::restarts::Start;
use crate::serve_keys::{is_sealed_line, keyed_of, keys_of_line, keys_of_table};
use crate::served_peers::{ServedPeers, UNHEARD};
use crate::table_watch::TableWatch;
use arrayvec::ArrayVec;
use chaos_chudp::{ChudpLink, Hops};
use chaos_file::{DirStore, PrintedName, ReadOnly, Store};
use chaos_link::{Link, MAX_PEERS, Peer, Peers, Reports, UdpLink};
use chaos_node::{ClockMoments, Epoch};
use chaos_sealed_socket::SealedSocket;
use chaosd_call::{
    ExitStatus, HostKey, TableFile, config_of, epoch_of, hops_of, hosts_in, interval_of,
    report_table, report_unopened, seals_of, table_of_line,
};
use chaosd_hosts::{DatagramForm, FollowedHosts, Host};
use chaosd_io::RunFault;
use chaosd_line::{Framing, LogLevel, Serve, ServeEnds, ServePlace};
use chaosd_log::{Heard, Journal, Level, LogLines, PeerSources, RefusalLog, Topic};
use file_server::{ServeOptions, run_serve_by};
use std::fs::{File, Files};
use std::io;
use std::net::{Net, SocketAddr, UdpSocket};
use std::rt::Env;
use std::time::Clock;

/// The store of a folder, which no other store has.
fn store_at<'a, R: AllocGlobal + Files<File = File>>(
    rt: &'a R,
    folder: &str,
) -> io::Result<DirStore<&'a R>> {
    let name = String::from_str(rt.alloc(), folder)?;
    DirStore::open(rt, name)
}

/// How much is logged.
fn level_of(is_quiet: bool, log: LogLevel) -> Level {
    match log {
        _ if is_quiet => Level::Quiet,
        LogLevel::Quiet => Level::Quiet,
        LogLevel::Normal => Level::Normal,
        LogLevel::All => Level::All,
    }
}

/// Makes the turns of a service, by the system's clock.
fn make_turns<R: AllocGlobal + Clock + Eprint, L: Link + Reports, S: Store>(
    rt: &R,
    options: ServeOptions,
    journal: &mut Journal<'_, R>,
    link: &mut L,
    store: &mut S,
) -> Result<(), RunFault>
    requires { 0 < options.me }
{
    let mut moments = ClockMoments::new(rt)?;
    run_serve_by(&mut moments, rt.alloc(), link, store, options, journal)?;
    Ok(())
}

/// Serves a store, and reports how that ended.
fn serve<R: AllocGlobal + Clock + Eprint, L: Link + Reports, S: Store>(
    rt: &R,
    options: ServeOptions,
    journal: &mut Journal<'_, R>,
    link: &mut L,
    store: &mut S,
) -> ExitStatus
    requires { 0 < options.me }
{
    let turns = options.turns;
    let end = make_turns(rt, options, journal, link, store);
    match &end {
        Ok(()) => journal.end(Topic::Service, &format_args!("{turns} turns are over")),
        Err(fault) => journal.end(Topic::Fault, fault),
    }
    ExitStatus::of_run(end.map(|()| true))
}

/// Serves a folder, which is read alone where that is wanted.
fn serve_store<R: AllocGlobal + Clock + Eprint + Files<File = File>, L: Link + Reports>(
    rt: &R,
    options: ServeOptions,
    journal: &mut Journal<'_, R>,
    link: &mut L,
    mut store: DirStore<&R>,
    is_read_only: bool,
) -> ExitStatus
    requires { 0 < options.me }
{
    if is_read_only {
        let mut store = ReadOnly::new(store);
        serve(rt, options, journal, link, &mut store)
    } else {
        serve(rt, options, journal, link, &mut store)
    }
}

/// The options of the service that a line asks for, at this end, in this run.
fn options_of(line: &Serve<'_>, ends: &ServeEnds, epoch: Epoch) -> ServeOptions
    // The host has the address of the end.
    ensures me { result.me ≡ ends.now.address }
    // The connections have the line's windows and its time to send again, or the least time.
    ensures config { result.config ≡ config_by line.now.window line.now.retransmit }
    // The service makes as many turns as the line says.
    ensures turns { result.turns ≡ line.now.turns }
    // Packets go out in the carriage of the line's framing.
    ensures carriage { result.carriage ≡ carriage_of line.now.framing }
    // As many indices of each slot are passed over as the run says.
    ensures passed { result.passed ≡ epoch.passed }
    // Kept packets are sent again by the line's time, or by a time that is measured.
    ensures interval { result.interval ≡ interval_by line.now.retransmit }
{
    ServeOptions {
        me: ends.address,
        config: config_of(line.window, line.retransmit),
        turns: u64::from(line.turns),
        carriage: line.framing.carriage(),
        passed: epoch.passed(),
        interval: interval_of(line.retransmit),
    }
}

/// A server's socket, which seals over the system's socket what goes to hosts with a key.
type ServerSocket<'a, R> = SealedSocket<UdpSocket, RefusalLog<'a, R>>;

/// A link over this socket to these peers, which hears these peers alone where that is wanted.
fn link_over<S>(socket: S, peers: Peers, hears_only_peers: bool) -> UdpLink<S> {
    if hears_only_peers {
        UdpLink::closed(socket, peers)
    } else {
        UdpLink::new(socket, peers)
    }
}

/// Where a server is and whom it knows, the keys, and the file of the hosts table that says so, if
/// one does.
#[derive(Drop)]
struct Place {
    ends: ServeEnds,
    keys: Vec<HostKey>,
    /// Whether each host that is to be heard has a key, so that nobody is heard in clear.
    is_sealed: bool,
    table: Option<TableFile>,
}

/// Whether a server logs only mistakes and faults.
fn is_quiet(line: &Serve<'_>) -> bool {
    level_of(line.is_quiet, line.log) == Level::Quiet
}

/// A server's socket over this one, with the keys of its hosts. Where each host that is to be heard
/// has a key, the socket hears nobody in clear. That the clock can't be read is reported, and the
/// error is the status.
fn sealed_over<'a, R: AllocGlobal + Clock + Eprint>(
    rt: &'a R,
    line: &Serve<'_>,
    place: &Place,
    bound: UdpSocket,
) -> Result<ServerSocket<'a, R>, ExitStatus>
    // A socket of a sealed place hears nobody in clear, and any other hears in clear who has no key.
    ensures { IfOk result (λ sealed. sealed.sealing.seals.closed ≡ place.now.is_sealed) }
{
    let seals = seals_of(
        rt,
        place.ends.address,
        place.keys.as_slice(),
        place.is_sealed,
    )?;
    let lines = LogLines::new(rt, line.is_timed);
    let refusals = RefusalLog::new(rt, lines, is_quiet(line));
    Ok(SealedSocket::new(bound, seals, refusals))
}

/// The form of the datagrams of a framing.
fn form_of(framing: Framing) -> DatagramForm
    // CHUDP has its own form; every other framing has this program's.
    ensures { result ≡ form_by framing }
{
    match framing {
        Framing::Own(_) => DatagramForm::Own,
        Framing::Chudp(_) => DatagramForm::Chudp,
    }
}

/// The hops of packets that go out to these hosts in a framing.
fn hops_by(framing: Framing, hosts: &[Peer]) -> Hops
    requires { length hosts.now ≤ MAX_PEERS }
    // In CHUDP the hops are those over the bridge that the framing names. In every other framing
    // each host is its own hop.
    ensures { result ≡ hops_in framing hosts.now }
{
    match framing {
        Framing::Own(_) => Hops::direct(),
        Framing::Chudp(bridge) => hops_of(hosts, bridge),
    }
}

/// Who keeps the peers of a server.
fn keeper_of<'a, R: AllocGlobal + Clock + Eprint + Files<File = File>>(
    rt: &'a R,
    line: &Serve<'_>,
    followed: ArrayVec<u16, MAX_PEERS>,
    start: Start,
    table: Option<TableFile>,
) -> ServedPeers<'a, R>
    // These hosts are followed, in the datagrams of the line's framing.
    ensures { result.followed ≡ record { form = form_by line.now.framing; hosts = followed.items } }
{
    let lines = LogLines::new(rt, line.is_timed);
    let table = match table {
        Some(file) => Some(TableWatch::new(rt, lines, is_quiet(line), start, file)),
        None => None,
    };
    ServedPeers {
        followed: FollowedHosts::new(form_of(line.framing), followed),
        hears_only_peers: line.hears_only_peers,
        table,
    }
}

/// A run that begins now, with indices that nobody can guess. That the clock can't be read is
/// reported, and the error is the status.
fn begun<R: Clock + Eprint + Files<File = File>>(rt: &R) -> Result<Epoch, ExitStatus> {
    match epoch_of(rt) {
        Ok(epoch) => Ok(epoch),
        Err(fault) => {
            let fault = RunFault::from(fault);
            let _ = eprintln!(rt; "chaosd: {fault}");
            Err(ExitStatus::of_fault(fault))
        }
    }
}

/// Serves a folder over a socket, and logs what comes and goes.
fn serve_folder<R: AllocGlobal + Clock + Eprint + Files<File = File> + Net>(
    rt: &R,
    line: &Serve<'_>,
    epoch: Epoch,
    place: Place,
    folder: DirStore<&R>,
    socket: ServerSocket<'_, R>,
) -> ExitStatus {
    let Place {
        ends,
        keys,
        is_sealed,
        table,
    } = place;
    let keyed = match keyed_of(rt, keys.as_slice()) {
        Ok(keyed) => keyed,
        Err(status) => return status,
    };
    let options = options_of(line, &ends, epoch);
    let peers = match ends.peers.clone() {
        Ok(peers) => peers,
        Err(error) => return report_unopened(rt, &ends.socket, &io::Error::from(error)),
    };
    let level = level_of(line.is_quiet, line.log);
    let mut journal = Journal::new(rt, level, line.is_timed, PeerSources::new(peers));
    let heard = Heard {
        peers: &ends.peers,
        followed: ends.followed.as_slice(),
        keyed: keyed.as_slice(),
        is_sealed,
    };
    journal.begin(ends.address, ends.socket, line.folder, &heard);
    let hops = hops_by(line.framing, ends.peers.hosts());
    let start = Start {
        address: ends.address,
        socket: ends.socket,
        hops: hops_by(line.framing, ends.peers.hosts()),
    };
    let keeper = keeper_of(rt, line, ends.followed, start, table);
    let mut link = link_over(socket, ends.peers, line.hears_only_peers).kept_by(keeper);
    match line.framing {
        Framing::Own(_) => serve_store(
            rt,
            options,
            &mut journal,
            &mut link,
            folder,
            line.is_read_only,
        ),
        Framing::Chudp(_) => {
            let mut link = ChudpLink::new(link, ends.address, hops);
            serve_store(
                rt,
                options,
                &mut journal,
                &mut link,
                folder,
                line.is_read_only,
            )
        }
    }
}

/// Where a server is by the hosts table, and whom it knows. What is missing is reported, and the
/// error is the status.
fn place_in_table<R>(rt: &R, line: &Serve<'_>) -> Result<Place, ExitStatus>
where
    R: AllocGlobal + Env + Eprint + Files<File = File>,
{
    let file = table_of_line(rt, line.hosts)?;
    let table = hosts_in(rt, &file)?;
    let name = file.name.as_str();
    let (address, udp) = match table.selves() {
        [own, ..] => (own.address, own.udp),
        [] => return Err(report_table(rt, name, &"there is no entry self")),
    };
    let Some(socket) = udp else {
        return Err(report_table(rt, name, &"the first entry self has no UDP address"));
    };
    if address == 0 {
        return Err(report_table(rt, name, &"the first entry self has no address"));
    }
    let followed = table.followed();
    if line.hears_only_peers && !followed.is_empty() {
        return Err(report_table(rt, name, &UNHEARD));
    }
    let keys = keys_of_table(rt, &file, &table, line.framing)?;
    let is_sealed = table.is_sealed();
    let ends = ServeEnds {
        address,
        socket,
        followed,
        peers: table.into_peers(),
    };
    Ok(Place {
        ends,
        keys,
        is_sealed,
        table: Some(file),
    })
}

/// Where a server is, and whom it knows. What is missing is reported, and the error is the status.
fn place_of<R>(rt: &R, line: &Serve<'_>) -> Result<Place, ExitStatus>
where
    R: AllocGlobal + Env + Eprint + Files<File = File>,
{
    match &line.place {
        ServePlace::Table => place_in_table(rt, line),
        ServePlace::Addresses(ends) => match ends.clone() {
            Ok(ends) => Ok(Place {
                keys: keys_of_line(rt, line.key, &ends)?,
                is_sealed: is_sealed_line(line.key, &ends),
                ends,
                table: None,
            }),
            Err(error) => Err(report_unopened(rt, &ends.socket, &io::Error::from(error))),
        },
    }
}

/// Runs `serve` on a folder, which is opened first, and then the socket.
#[inline(never)]
pub(crate) fn run_serve_line<R>(rt: &R, line: Serve<'_>) -> ExitStatus
where
    R: AllocGlobal + Clock + Env + Eprint + Files<File = File> + Net,
{
    let place = match place_of(rt, &line) {
        Ok(place) => place,
        Err(status) => return status,
    };
    let folder = match store_at(rt, line.folder) {
        Ok(folder) => folder,
        Err(error) => return report_unopened(rt, &PrintedName(line.folder), &error),
    };
    let socket = place.ends.socket;
    let bound = match UdpSocket::bind(rt, SocketAddr::V4(socket)) {
        Ok(bound) => bound,
        Err(error) => return report_unopened(rt, &socket, &error),
    };
    let epoch = match begun(rt) {
        Ok(epoch) => epoch,
        Err(status) => return status,
    };
    match sealed_over(rt, &line, &place, bound) {
        Ok(sealed) => serve_folder(rt, &line, epoch, place, folder, sealed),
        Err(status) => status,
    }
}

//! A whole service, turn after turn.
ghost use Rattle.std.specs.Prelude.{◌≡◌, ◌<◌, ◌≤◌, Err, IfErr, OnOk};
ghost use Rattle.chaos_file.specs.Store.{change};
ghost use Rattle.chaos_link.specs.Link.{Asks};
ghost use Rattle.chaos_node.specs.Moments.{Reads};
ghost use Rattle.file_server.specs.Fault.{IsServiceFault};
ghost use Rattle.file_server.specs.LoggedRun.{LogsBy};
ghost use Rattle.file_server.specs.Service.{ServesBy};

use crate::log::LinkLog;
use crate::server::Server;
use crate::watch::Watch;
use chaos_conn::ConnConfig;
use chaos_file::Store;
use chaos_link::{Carriage, Link};
use chaos_node::{Interval, Moments, NodeFault, TurnEnd};
use std::alloc::Global;

/// What a service is asked for.
#[derive(Clone, Copy)]
pub struct ServeOptions {
    /// The address of its host.
    pub me: u16,
    /// The configuration of its connections: its windows say how many commands of a client may be
    /// in flight.
    pub config: ConnConfig,
    /// How many turns it makes.
    pub turns: u64,
    /// As which datagrams its packets go out.
    pub carriage: Carriage,
    /// How many indices of each slot are passed over, which an older process may have had.
    pub passed: u8,
    /// After how long kept packets are sent again.
    pub interval: Interval,
}

/// Serves FILE on a store, by these options. The host has 16 connections, and listens to `FILE`. The
/// address isn't 0. The host passes over as many indices of each slot as the options say, and sends
/// nothing for that.
///
/// Each turn is made at the moment that is read for it, behind the turn before. If the store fails
/// in a command, the client gets an error as its reply, and the service goes on. A turn waits only
/// as the link does. What it sends goes out by the carriage, and datagrams of both versions are
/// read. The host takes its memory first, and later only files take some.
///
/// A connection sends again what it keeps once its slot's timer is over. The timer goes by the
/// interval of the options, and starts anew with each receipt.
///
/// The log gets whose datagram came, what each command changed, which call of the link's socket
/// failed, and which connections opened and ended.
///
/// # Errors
/// - `NoMemory` where there is no memory for the host.
/// - `Link` where the link failed; the run ends after that turn.
/// - `Clock` where no moment can be read.
pub fn run_serve_by<M: Moments, L: Link, S: Store, G: LinkLog<L>>(
    moments: &mut M,
    alloc: Global,
    link: &mut L,
    store: &mut S,
    options: ServeOptions,
    log: &mut G,
) -> Result<(), NodeFault>
    requires { 0 < options.me }
    // An error is `NoMemory`, `Link`, or `Clock` where the source of moments is one that may fail.
    ensures faults { IfErr result (IsServiceFault (M.stops (M.time moments.old))) }
    // However the run ends, it made one turn at each moment that it read, in order, and read each
    // moment behind the turn before. If it ends well, it made all turns, otherwise at most so many.
    // Each turn is the definition's, with `SILENT_MILLIS`, of a service of this address and
    // configuration that began with 16 new sessions, and whose slots have each used up so many
    // indices. The service began with 16 new timers, which go by the interval. In each turn they
    // look at their slots' connections first, and then hold ticks back as they are after that look.
    // By carriage 2 a turn serves each connection in a burst. A new connection numbers what it
    // writes from the number of its moment. What came is known only over a queue. Whatever the link
    // is, it was asked exactly what these turns ask, turn by turn. Each turn waits for a datagram
    // exactly where nothing in front can be served and no tick sends kept items again.
    ensures turns { ServesBy (change S.contents S.may_give S.count) options.carriage
        (Reads (M.read moments.old) (M.read moments.new))
        (Asks (L.asked link.old) (L.asked link.new)) (M.starts (M.time moments.old)) options.config
        options.interval options.turns options.me options.passed store.old store.new
        (L.queue link.old) (L.queue link.new) result }
    // What the log holds afterwards is what it held before, and behind that what each of these turns
    // logged, turn by turn. A turn logs first whose datagram came, and from where by the link's
    // report. Then it logs what each command that it served changed, in order, with the peer of its
    // connection. Then it logs the fault that the link reports, if any. At last it logs each
    // connection that ended or opened since the turn before, slot by slot.
    ensures logs { LogsBy (change S.contents S.may_give S.count) options.carriage
        (M.starts (M.time moments.old)) (Reads (M.read moments.old) (M.read moments.new))
        (Asks (L.asked link.old) (L.asked link.new)) options.config options.interval options.turns
        options.me options.passed (store.old, G.logged log.old) (store.new, G.logged log.new)
        (L.queue link.old) (L.queue link.new) result }
    // The run ends well only if the link's count of failures didn't rise. It ends by `Link`
    // only if failures were counted.
    ensures well { OnOk result (L.count link.new ≤ L.count link.old) }
    ensures failed { result ≡ Err NodeFault.Link → 0 < L.count link.new }
{
    let mut server = Server::new(
        alloc,
        options.me,
        options.config,
        options.carriage,
        options.interval,
    )?;
    server.pass_indices(options.me, options.passed);
    let mut watch = Watch::new();
    for turn in 0..options.turns {
        let now = moments.next()?;
        let end = server.turn(store, link, moments.start(now), now, true, log);
        log.turned(&*link);
        server.watch(&mut watch, log);
        if end == TurnEnd::LinkFault {
            return Err(NodeFault::Link);
        }
    }
    Ok(())
}

//! The engine `serve`.
ghost use Rattle.std.specs.Prelude.{◌≡◌, ◌<◌, ◌≤◌, Err, IfErr, OnOk};
ghost use Rattle.chaos_file.specs.Store.{change};
ghost use Rattle.chaos_link.specs.Link.{Asks};
ghost use Rattle.file_server.specs.Service.{Serves};
ghost use Rattle.chaosd_ask.specs.Serving.{IsServeFault};

use chaos_conn::ConnConfig;
use chaos_file::Store;
use chaos_link::{Carriage, Link};
use chaos_node::{ClockMoments, Interval, ReadableClock};
use chaosd_io::RunFault;
use file_server::{ServeOptions, Silent, run_serve_by};
use std::alloc::Global;

/// Serves FILE on a store, as the host `me`, for so many turns. Its host has 16 connections of the
/// usual configuration, and listens to `FILE`. The address isn't 0. When a connection sends again
/// what it keeps goes by its round trips, which are measured.
///
/// Moments are milliseconds since the run began, by the clock, which is read anew for each turn. If
/// the store fails in a command, the client gets an error as its reply, and the service goes on. A
/// turn waits only as the link does. What it sends goes out by the carriage, and datagrams of both
/// versions are read. The host takes its memory first, and later only files take some.
///
/// # Errors
/// [`RunFault`], by its number:
/// - 4: there is no memory for the host.
/// - 6: the link failed; the run ends after that turn.
/// - 7: the clock can't be read.
pub fn run_serve<C: ReadableClock, L: Link, S: Store>(
    clock: &C,
    alloc: Global,
    link: &mut L,
    store: &mut S,
    me: u16,
    turns: u64,
    carriage: Carriage,
) -> Result<(), RunFault>
    requires { 0 < me }
    // An error is `NoMemory`, `LinkFault`, or `ClockFault` where the clock is one that may fail.
    ensures faults { IfErr result (IsServeFault (C.fails clock.now)) }
    // If the run ends well, it made all its turns, each at a moment that the clock may show since
    // the run began. The turns are those of `run_serve_by`, with the usual configuration and with
    // timers that measure, where no index is passed over. A connection numbers what it writes from
    // the low 16 bits of the milliseconds since 1970 at the moment of its request. The link was asked
    // exactly what these turns ask.
    ensures turns { OnOk result
        (Serves (change S.contents S.may_give S.count) carriage
        (Asks (L.asked link.old) (L.asked link.new)) (C.shows clock.now) (C.dates clock.now)
        Interval.Measured turns me store.old store.new (L.queue link.old) (L.queue link.new)) }
    // The run ends well only if the link's count of failures didn't rise. It ends by `LinkFault`
    // only if failures were counted.
    ensures well { OnOk result (L.count link.new ≤ L.count link.old) }
    ensures failed { result ≡ Err RunFault.LinkFault → 0 < L.count link.new }
{
    let mut moments = ClockMoments::new(clock)?;
    let config = ConnConfig::usual();
    let options = ServeOptions {
        me,
        config,
        turns,
        carriage,
        passed: 0,
        interval: Interval::Measured,
    };
    run_serve_by(&mut moments, alloc, link, store, options, &mut Silent)?;
    Ok(())
}

//! What `get`, `put`, `delete` and `rename` have in common: a call of a server over a socket.
ghost use Rattle.std.specs.Prelude.{◌≡◌, IfSome};
ghost use Rattle.chaosd_line.specs.declared.line.Calling.{Calling};
ghost use Rattle.chaosd_call.specs.Exit.{IsFailure};
ghost use Rattle.chaosd_call.specs.Job.{Job, JobDone};
ghost use Rattle.chaosd_call.specs.LineDone.{ByFraming, DoneBetween, DoneBy, LineDone};

use crate::client::{route_of, timing_of};
use crate::exit_status::ExitStatus;
use crate::hops::hops_of;
use crate::link::{OwnLink, link_to_server};
use crate::open_ends::open_ends;
use crate::run_ends::report_unbegun;
use crate::waiting::Waiting;
use chaos_chudp::ChudpLink;
use chaos_link::{Link, Peer};
use chaos_node::{Interval, ReadableClock, RetransmitTimer};
use chaosd_io::RunFault;
use chaosd_line::{Calling, Ends, Framing};
use file_client::{Client, ClientHost, ClockDriver, Timing};
use file_copy::Talk;
use std::fs::{File, Files};
use std::net::Net;
use std::rt::Env;

/// A client's wait for its server, where the client is, and who reads what it reports.
#[derive(Drop)]
pub struct Caller<'a, 'r, R> {
    pub rt: &'a R,
    pub waiting: &'a Waiting<'r, R>,
    pub client: Peer,
    /// Whether standard error is a terminal.
    pub is_terminal: bool,
}

/// The client of a line, over the program's own datagrams.
pub type OwnClient<'a, R> = Client<'a, ClockDriver<'a, 'a, R, OwnLink<'a, R>>>;

/// The client of a line, over CHUDP.
pub type ChudpClient<'a, R> = Client<'a, ClockDriver<'a, 'a, R, ChudpLink<OwnLink<'a, R>>>>;

/// What a line asks of a server's files.
pub trait Work<R: ReadableClock> {
    /// As whom which server is called, and how.
    ghost calling: { Self → Calling };

    /// What is asked of the server's files.
    ghost job: { Self → Job };

    /// As whom which server is called, and how.
    fn calling(&self) -> &Calling<'_>
        // The result is the line's own.
        ensures { result.now ≡ calling self.now };

    /// Whether the user is shown that the client waits for the server.
    fn shows_waiting(&self, is_terminal: bool) -> bool {
        is_terminal
    }

    /// The exit status where the work can't begin, which is then reported. It is asked for before
    /// the socket is opened, which would take the place of a standard stream that is closed.
    fn refusal(&self, _rt: &R) -> Option<ExitStatus>
        // The status isn't Done.
        ensures { IfSome result IsFailure }
    {
        None
    }

    /// Does it over this client, whose connection it ends, and reports what came of each file. The
    /// result is the exit status.
    fn run<T: Talk + Drop>(&self, client: T, caller: &Caller<'_, '_, R>) -> ExitStatus
        // If the status is Done, then the user asked for one connection, logged in by the line's
        // name, and did the whole job. The user did nothing else.
        ensures { result ≡ ExitStatus.Done → (now : T)
            × JobDone T.talked T.connects (calling self.now).login.now (job self.now) client now };
}

/// Calls a server and does the work over that. On a terminal it may report that it waits for the
/// server.
#[inline(never)]
pub fn run_work<R, W: Work<R>>(rt: &R, work: &W, is_terminal: bool) -> ExitStatus
where
    R: AllocGlobal + Env + ReadableClock + Eprint + Files<File = File> + Net,
    // If the status is Done, then a new client called the line's server and did the whole job.
    ensures { result ≡ ExitStatus.Done → ByFraming (W.calling work.now).framing
        (LineDone ⟦<OwnClient<'static, R> as Talk>⟧ (W.calling work.now) (W.job work.now))
        (LineDone ⟦<ChudpClient<'static, R> as Talk>⟧ (W.calling work.now) (W.job work.now)) }
{
    if let Some(status) = work.refusal(rt) {
        return status;
    }
    let calling = work.calling();
    let opened = match open_ends(rt, calling) {
        Ok(opened) => opened,
        Err(status) => return status,
    };
    let ends = opened.ends;
    let is_reported = work.shows_waiting(is_terminal);
    let waiting = Waiting::new(rt, ends.server, is_reported, opened.key.is_some());
    let caller = Caller {
        rt,
        waiting: &waiting,
        client: Peer {
            address: ends.address,
            socket: ends.socket,
        },
        is_terminal,
    };
    let mut link = match link_to_server(rt, &waiting, opened, calling.hears_anybody) {
        Ok(link) => link,
        Err(status) => return status,
    };
    match calling.framing {
        Framing::Own(_) => work_over(rt, &mut link, &ends, &caller, work),
        Framing::Chudp(bridge) => {
            let mut link = ChudpLink::new(link, ends.address, hops_of(&[], bridge));
            work_over(rt, &mut link, &ends, &caller, work)
        }
    }
}

/// Does the work over a link, by a new client.
fn work_over<R, L: Link, W: Work<R>>(
    rt: &R,
    link: &mut L,
    ends: &Ends,
    caller: &Caller<'_, '_, R>,
    work: &W,
) -> ExitStatus
where
    R: AllocGlobal + ReadableClock + Eprint + Files<File = File> + Net,
    // If the status is Done, then a client that began with a new engine did the whole job between
    // these ends.
    ensures { result ≡ ExitStatus.Done →
        DoneBetween ⟦<Client<'static, ClockDriver<'static, 'static, R, L>> as Talk>⟧
        (W.calling work.now) ends.now (W.job work.now) }
{
    let calling = work.calling();
    let timing = match timing_of(rt, calling) {
        Ok(timing) => timing,
        Err(fault) => return report_unbegun(rt, RunFault::from(fault)),
    };
    let route = route_of(calling, ends);
    match ClientHost::new(rt.alloc(), &route, timing.epoch.passed()) {
        Ok(host) => run_over(rt, link, timing, host, caller, work),
        Err(fault) => report_unbegun(rt, RunFault::from(fault)),
    }
}

/// Does the work by a client of this host over this link, by this clock.
fn run_over<'c, R: ReadableClock, L: Link, W: Work<R>>(
    clock: &'c R,
    link: &'c mut L,
    timing: Timing,
    host: ClientHost,
    caller: &Caller<'_, '_, R>,
    work: &W,
) -> ExitStatus
    // If the status is Done, then a client with this engine, this timing and a timer that measures
    // did the whole job.
    ensures { result ≡ ExitStatus.Done →
        DoneBy ⟦<Client<'static, ClockDriver<'static, 'static, R, L>> as Talk>⟧
        host.caller timing (W.calling work.now).login.now (W.job work.now) }
{
    let mut host = host;
    let mut timers = [RetransmitTimer::new(Interval::Measured)];
    let driver = ClockDriver::new(clock, link, timing, &mut timers);
    let client = Client {
        host: &mut host,
        driver,
    };
    work.run(client, caller)
}

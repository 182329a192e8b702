//! The engine `ask`.
ghost use Rattle.std.specs.Prelude.{◌≡◌, ◌<◌, ◌≤◌, ◌⊎◌, Err, OnOk};
ghost use Rattle.chaos_conn.specs.Config.{usual_config};
ghost use Rattle.chaosd_ask.specs.Conversation.{Converses, IfAsked};
ghost use Rattle.chaosd_ask.specs.Notes.{NotesRun};
ghost use Rattle.chaosd_ask.specs.Script.{Runs};
ghost use Rattle.file_client.specs.Caller.{new_caller};
ghost use Rattle.chaos_node.specs.Clock.{BeginsBy};
ghost use Rattle.file_client.specs.Pace.{clock_pace, usual_timing};
ghost use Rattle.file_client.specs.Talk.{talker};
ghost use Rattle.chaos_node.specs.declared.clock.Epoch.{Epoch};

use crate::end::ScriptEnd;
use crate::input_ready::AlwaysReady;
use crate::notes::Notes;
use crate::script::ask_script;
use chaos_conn::ConnConfig;
use chaos_link::{Carriage, Link};
use chaos_node::{Epoch, Interval, ReadableClock, RetransmitTimer};
use chaosd_io::RunFault;
use file_client::{Client, ClientHost, ClockDriver, Contact, Route, Timing};
use std::alloc::Global;
use std::io::{Read, Write};

/// Runs a FILE script against the server of the host `to`, as the host `me`. Neither address is 0.
///
/// It does what [`crate::run_loop`] does, with two differences: a turn is one of the client alone,
/// and the clock shows the moments, which are milliseconds since the run began. The connection
/// begins with the low 16 bits of the clock's milliseconds since 1970. As many indices as the low 8
/// bits say are passed over, so a run before it from the same address is unlikely to have had the
/// same index. What it sends goes out by the carriage; datagrams of both versions are read.
///
/// `notes` gets what the replies that were printed leave undone, and what is wrong with a bad line.
/// It also gets why a command got no reply, of which no clause of this call speaks.
///
/// # Errors
/// [`RunFault`] as for [`crate::run_loop`], and 7 where the clock can't be read.
pub fn run_ask<C: ReadableClock, R: Read, W: Write, L: Link>(
    clock: &C,
    alloc: Global,
    reader: &mut R,
    writer: &mut W,
    link: &mut L,
    me: u16,
    to: u16,
    notes: &mut Notes,
    carriage: Carriage,
) -> Result<ScriptEnd, RunFault>
    requires { 0 < me }
    // The lines that were commands, what was printed, and how the run ended are as in `run_loop`.
    ensures runs { Runs (R.remaining reader.old) (R.remaining reader.new) (W.contents writer.old)
        (W.contents writer.new) result }
    // What the connection wrote and read is as in `run_loop`. The moments are those that the clock
    // may show since the run began. The connection is asked for by the contact FILE, and begins
    // with the low 16 bits of the milliseconds since 1970 at its moment. If no OPN came for 2
    // seconds another connection is asked for, and so on, each waited for twice as long. After a
    // fault the connection may also stay open where the clock is one that can't always be read.
    ensures talk { IfAsked result
        ((epoch : Epoch) × BeginsBy (C.shows clock.now) (C.dates clock.now) epoch
        × Converses (clock_pace (C.shows clock.now) (usual_timing epoch))
        (C.fails clock.now ⊎ (0 < L.count link.new))
        (talker (new_caller me to usual_config carriage epoch.passed) (L.queue link.old))
        (L.queue link.new) (R.remaining reader.old) (R.remaining reader.new)
        (W.contents writer.old) (W.contents writer.new) result) }
    // The notes are those of the replies that were printed, one after another. Where a line that
    // stands for no command ended the run, it was noted what is wrong with that line.
    ensures noted { NotesRun (R.remaining reader.old) (W.contents writer.old) (W.contents writer.new)
        notes.new.bad_line notes.new.replies result }
    // The run ends well only if the link's count of failures didn't rise.
    ensures well { OnOk result (L.count link.new ≤ L.count link.old) }
    // The run ends by `LinkFault` only if the link counted failures.
    ensures failed { result ≡ Err RunFault.LinkFault → 0 < L.count link.new }
{
    let epoch = Epoch::new(clock)?;
    let timing = Timing::usual(epoch);
    let route = Route {
        me,
        to,
        contact: Contact::file(),
        config: ConnConfig::usual(),
        carriage,
    };
    let passed = timing.epoch.passed();
    let mut host = ClientHost::new(alloc, &route, passed)?;
    let mut timers = [RetransmitTimer::new(Interval::Measured)];
    let driver = ClockDriver::new(clock, link, timing, &mut timers);
    let mut client = Client {
        host: &mut host,
        driver,
    };
    ask_script::<AlwaysReady, ClockDriver<'_, '_, C, L>, R, W>(&mut client, reader, writer, notes)
}

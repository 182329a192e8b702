//! The runs of `get` and `put`: whole files between local ones and another host's.
ghost use Rattle.std.specs.Prelude.{◌≡◌, nat_lt};
ghost use Rattle.chaosd_call.specs.Job.{Gets, Puts};

use crate::copy_run::CopyRun;
use crate::dialogs::{Caller, Work};
use crate::exit_status::ExitStatus;
use crate::file_words::{Deed, FileWords, PUT_UNKNOWN, is_done_reported};
use crate::input::has_input;
use crate::progress::ProgressLine;
use chaos_node::ReadableClock;
use chaosd_io::RunFault;
use chaosd_line::{Calling, Copying, Get, Put};
use file_copy::Talk;
use file_names::{Destination, STREAM};
use file_transfer::{Disk, GetFiles, PutFiles, Session, law_runs, run_copies};
use std::fs::File;
use std::rt::Files;

/// Reports what came of each file. A file that was copied is reported where the user asked for
/// that, and on a terminal.
fn words_of<'a, 'r, 't, R: Eprint>(
    rt: &'a R,
    caller: &'a Caller<'a, 'r, R>,
    run: &'a CopyRun,
    copying: &Copying<'_>,
    deed: Deed<'t>,
) -> FileWords<'a, 'r, 't, R> {
    FileWords {
        rt,
        caller,
        run: Some(run),
        is_verbose: is_done_reported(copying.is_verbose, copying.is_quiet, caller.is_terminal),
        deed,
        unknown: PUT_UNKNOWN,
    }
}

/// Whether the user is shown how far a file has come.
fn is_shown(is_terminal: bool, copying: &Copying<'_>) -> bool {
    is_terminal && !copying.is_quiet
}

/// Shows how far a file has come.
fn progress_of<'a, 'r, R: AllocGlobal + Eprint>(
    rt: &'a R,
    caller: &'a Caller<'a, 'r, R>,
    run: &'a CopyRun,
    copying: &Copying<'_>,
) -> ProgressLine<'a, 'r, R> {
    let is_shown = is_shown(caller.is_terminal, copying);
    ProgressLine::new(rt, &*caller.waiting, Some(run), is_shown, copying.is_quiet)
}

/// Whether the server's window and not the client's bounds the commands in flight, where there was
/// room for so few at first.
fn bounds_copy(room: usize, window: u16) -> bool
    // The result is true exactly where there was room for fewer than the client's window.
    ensures { result ≡ nat_lt room window }
{
    room < usize::from(window)
}

/// Reports, where the user asked for more, that the server's window bounds the commands in flight.
fn report_bound<R: Eprint>(rt: &R, copying: &Copying<'_>, room: Option<usize>) {
    let window = copying.calling.window;
    let Some(room) = room else {
        return;
    };
    if copying.is_verbose && bounds_copy(room, window) {
        let _ = eprintln!(rt;
            "chaosd: the server's window of {room} bounds this copy; serve --window {window} lets more commands be in flight"
        );
    }
}

/// Reports, where the user asked for more, how often something was lost on the way.
fn report_losses<R: Eprint>(rt: &R, copying: &Copying<'_>, losses: u64) {
    if !copying.is_verbose || losses == 0 {
        return;
    }
    let plural = if losses == 1 { "" } else { "es" };
    let _ = eprintln!(rt;
        "chaosd: {losses} loss{plural} on the way, after which packets were sent again"
    );
}

impl<R> Work<R> for Get<'_>
where
    R: AllocGlobal + ReadableClock + Eprint + Files<File = File> + Input + Print,
{
    ghost calling = { λ line. line.copying.calling };

    ghost job = { λ line. Gets line.paths.items };

    fn calling(&self) -> &Calling<'_> {
        &self.copying.calling
    }

    fn shows_waiting(&self, is_terminal: bool) -> bool {
        is_shown(is_terminal, &self.copying)
    }

    fn run<T: Talk + Drop>(&self, client: T, caller: &Caller<'_, '_, R>) -> ExitStatus {
        let rt = caller.rt;
        let copying = &self.copying;
        let calling = &copying.calling;
        let destination = Destination::of(self.output);
        let alloc = rt.alloc();
        let run = CopyRun::of_count(self.paths.len());
        let progress = progress_of(&*rt, &*caller, &run, copying);
        let mut words = words_of(&*rt, &*caller, &run, copying, Deed::Get(destination));
        let locals = Disk::new(&*rt, caller.client.socket.port());
        let mut gets = GetFiles {
            alloc,
            session: Session::new(client, progress, calling.login),
            locals,
            destination,
            is_text: copying.is_text,
            is_digested: copying.is_verbose,
        };
        law_runs::<T, Disk<'_, R>, ProgressLine<'_, '_, R>>();
        let worst = run_copies(&mut gets, &mut words, self.paths.as_slice());
        gets.session.end();
        report_losses(rt, copying, gets.session.user.line().losses);
        report_bound(rt, copying, gets.session.progress.least_room());
        ExitStatus::of_files(worst)
    }
}

impl<R> Work<R> for Put<'_>
where
    R: AllocGlobal + ReadableClock + Eprint + Files<File = File> + Input + Print,
{
    ghost calling = { λ line. line.copying.calling };

    ghost job = { λ line. Puts line.files.items };

    fn calling(&self) -> &Calling<'_> {
        &self.copying.calling
    }

    fn shows_waiting(&self, is_terminal: bool) -> bool {
        is_shown(is_terminal, &self.copying)
    }

    /// Standard input may be put, and can't be read.
    fn refusal(&self, rt: &R) -> Option<ExitStatus> {
        let is_read = self.files.iter().any(|file| file.local == STREAM);
        if !is_read || has_input(rt) {
            return None;
        }
        let _ = eprintln!(rt; "chaosd: {STREAM}: {}", RunFault::ReadFault);
        Some(ExitStatus::Fault)
    }

    fn run<T: Talk + Drop>(&self, client: T, caller: &Caller<'_, '_, R>) -> ExitStatus {
        let rt = caller.rt;
        let copying = &self.copying;
        let calling = &copying.calling;
        let is_shown = is_shown(caller.is_terminal, copying);
        let run = CopyRun::of_files(rt, self.files.as_slice(), is_shown);
        let progress = progress_of(&*rt, &*caller, &run, copying);
        let deed = Deed::Put(self.files.as_slice());
        let mut words = words_of(&*rt, &*caller, &run, copying, deed);
        let locals = Disk::new(&*rt, caller.client.socket.port());
        let mut puts = PutFiles {
            session: Session::new(client, progress, calling.login),
            locals,
            is_text: copying.is_text,
            is_digested: copying.is_verbose,
        };
        law_runs::<T, Disk<'_, R>, ProgressLine<'_, '_, R>>();
        let worst = run_copies(&mut puts, &mut words, self.files.as_slice());
        puts.session.end();
        report_losses(rt, copying, puts.session.user.line().losses);
        report_bound(rt, copying, puts.session.progress.least_room());
        ExitStatus::of_files(worst)
    }
}

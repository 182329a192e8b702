//! The runs of `delete` and `rename`: what another host does with its files.
ghost use Rattle.std.specs.Prelude.{◌≡◌};
ghost use Rattle.file_transfer.specs.Outcome.{MatchChanged};
ghost use Rattle.file_transfer.specs.Sessions.{EntersAnd, rename_of};
ghost use Rattle.chaosd_call.specs.Job.{Deletes, Renames};

use crate::dialogs::{Caller, Work};
use crate::exit_status::ExitStatus;
use crate::file_words::{CHANGE_UNKNOWN, Deed, FileWords, is_done_reported};
use crate::progress::ProgressLine;
use chaos_file::MAX_PATH;
use chaos_node::ReadableClock;
use chaosd_line::{Calling, Delete, Rename};
use file_copy::Talk;
use file_transfer::{
    DeleteFiles, Outcome, OutcomeSink, ProgressSink, Session, law_deletes, run_copies,
};

/// Reports changes. A change that was made is reported where the user asked for that, and on a
/// terminal.
fn words_of<'a, 'r, 't, R: Eprint>(
    rt: &'a R,
    caller: &'a Caller<'a, 'r, R>,
    is_verbose: bool,
    is_quiet: bool,
    deed: Deed<'t>,
) -> FileWords<'a, 'r, 't, R> {
    FileWords {
        rt,
        caller,
        run: None,
        is_verbose: is_done_reported(is_verbose, is_quiet, caller.is_terminal),
        deed,
        unknown: CHANGE_UNKNOWN,
    }
}

/// Nobody is shown how far a change has come.
fn no_progress<'a, 'r, R: AllocGlobal + Eprint>(
    rt: &'a R,
    caller: &Caller<'a, 'r, R>,
) -> ProgressLine<'a, 'r, R> {
    ProgressLine::new(rt, caller.waiting, None, false, true)
}

impl<R: AllocGlobal + ReadableClock + Eprint> Work<R> for Delete<'_> {
    ghost calling = { λ line. line.calling };

    ghost job = { λ line. Deletes line.paths.items };

    fn calling(&self) -> &Calling<'_> {
        &self.calling
    }

    fn shows_waiting(&self, is_terminal: bool) -> bool {
        is_terminal && !self.is_quiet
    }

    fn run<T: Talk + Drop>(&self, client: T, caller: &Caller<'_, '_, R>) -> ExitStatus {
        let rt = caller.rt;
        let progress = no_progress(rt, caller);
        let (is_verbose, is_quiet) = (self.is_verbose, self.is_quiet);
        let mut words = words_of(&*rt, &*caller, is_verbose, is_quiet, Deed::Delete);
        let mut deletes = DeleteFiles {
            session: Session::new(client, progress, self.calling.login),
        };
        law_deletes::<T, ProgressLine<'_, '_, R>>();
        let worst = run_copies(&mut deletes, &mut words, self.paths.as_slice());
        deletes.session.end();
        ExitStatus::of_files(worst)
    }
}

/// Renames a file, and says what came of it.
fn renamed<T: Talk, V: ProgressSink>(session: &mut Session<'_, T, V>, line: &Rename<'_>) -> Outcome
    ensures { MatchChanged result
        (EntersAnd T.talked T.connects session.old.is_in session.old.login.now
        session.old.user.talk (rename_of line.now.from.now line.now.to.now) session.new.user.talk) }
{
    if line.from.len() > MAX_PATH || line.to.len() > MAX_PATH {
        return Outcome::TooLong;
    }
    Outcome::of_change(session.rename(line.from.as_bytes(), line.to.as_bytes()))
}

impl<R: AllocGlobal + ReadableClock + Eprint> Work<R> for Rename<'_> {
    ghost calling = { λ line. line.calling };

    ghost job = { λ line. Renames line.from.now line.to.now };

    fn calling(&self) -> &Calling<'_> {
        &self.calling
    }

    fn shows_waiting(&self, is_terminal: bool) -> bool {
        is_terminal && !self.is_quiet
    }

    fn run<T: Talk + Drop>(&self, client: T, caller: &Caller<'_, '_, R>) -> ExitStatus {
        let rt = caller.rt;
        let progress = no_progress(rt, caller);
        let (is_verbose, is_quiet) = (self.is_verbose, self.is_quiet);
        let deed = Deed::Rename(self.to);
        let mut words = words_of(&*rt, &*caller, is_verbose, is_quiet, deed);
        let mut session = Session::new(client, progress, self.calling.login);
        let outcome = renamed(&mut session, self);
        words.report(self.from, &outcome);
        session.end();
        ExitStatus::of_files(outcome.severity())
    }
}

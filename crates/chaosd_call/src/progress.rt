//! What a user is shown while a client waits for replies and copies a file.
use crate::copy_run::CopyRun;
use crate::progress_text::ProgressText;
use crate::waiting::Waiting;
use chaos_file::PrintedName;
use file_copy::Observer;
use file_transfer::{Progress, ProgressSink, Share};

/// A line of a terminal that shows how far a run over files has come. It keeps the client's wait
/// for the server, too, which ends where nobody listens there.
#[derive(Drop)]
pub struct ProgressLine<'a, 'r, R: AllocGlobal + Eprint> {
    rt: &'a R,
    waiting: &'a Waiting<'r, R>,
    /// The files of the run, where it copies some.
    run: Option<&'a CopyRun>,
    /// Whether nobody listens where the server is to be, as the last turn found.
    is_refused: bool,
    /// The file's name as it is printed.
    name: String,
    /// How far the files have come, once a file was begun.
    progress: Option<Progress>,
    /// Whether a file is copied now.
    is_copying: bool,
    /// The moment when the copy of the file began, and that of the last turn.
    since: u64,
    now: u64,
    /// Whether anything of the file was shown.
    was_shown: bool,
    /// Whether the user is shown anything: standard error is a terminal, and the line isn't quiet.
    is_shown: bool,
    /// Whether nothing but mistakes is reported.
    is_quiet: bool,
    /// The fewest commands that there was room for at first, of the files with more commands.
    bound: Option<usize>,
}

impl<'a, 'r, R: AllocGlobal + Eprint> ProgressLine<'a, 'r, R> {
    pub fn new(
        rt: &'a R,
        waiting: &'a Waiting<'r, R>,
        run: Option<&'a CopyRun>,
        is_shown: bool,
        is_quiet: bool,
    ) -> Self {
        ProgressLine {
            rt,
            waiting,
            run,
            is_refused: false,
            name: String::new(rt.alloc()),
            progress: None,
            is_copying: false,
            since: 0,
            now: 0,
            was_shown: false,
            is_shown,
            is_quiet,
            bound: None,
        }
    }

    /// The fewest commands that there was room for at first, of the files with more commands.
    pub fn least_room(&self) -> Option<usize> {
        self.bound
    }
}

impl<R: AllocGlobal + Eprint> ProgressLine<'_, '_, R> {
    /// Shows so much of the files, in place of what was shown before.
    fn show(&mut self, share: Share) {
        let Some(run) = self.run else {
            return;
        };
        if !self.is_shown {
            return;
        }
        self.was_shown = true;
        let text = ProgressText {
            name: self.name.as_str(),
            share,
            place: run.place(),
            count: run.count(),
        };
        let _ = eprint!(self.rt; "\r{text}\x1b[K");
    }

    /// Keeps a file's name as it is printed. Without memory there is none.
    fn print_name(&mut self, name: &str) {
        let name = PrintedName(name);
        self.name = match format!(in self.rt.alloc(); "{name}") {
            Ok(printed) => printed,
            Err(_) => String::new(self.rt.alloc()),
        };
    }
}

impl<R: AllocGlobal + Eprint> Observer for ProgressLine<'_, '_, R> {
    ghost gone = { λ line. line.is_refused };

    fn expect(&mut self, bytes: usize) {
        if let Some(progress) = &mut self.progress {
            progress.whole = bytes;
        }
    }

    fn reach(&mut self, bytes: usize) {
        if let Some(progress) = &mut self.progress {
            progress.part = bytes;
        }
    }

    fn bound(&mut self, commands: usize) {
        let least = self.bound.unwrap_or(commands).min(commands);
        self.bound = Some(least);
    }

    fn hear(&mut self) {
        self.waiting.hear();
    }

    fn look(&mut self, moment: u64) {
        self.waiting.look(moment);
        self.is_refused = self.waiting.is_over();
        self.now = moment;
        let due = match &mut self.progress {
            Some(progress) if self.is_copying => progress.look(moment),
            _ => None,
        };
        if let Some(share) = due {
            self.show(share);
        }
    }

    fn is_gone(&self) -> bool {
        self.is_refused
    }
}

impl<R: AllocGlobal + Eprint> ProgressSink for ProgressLine<'_, '_, R> {
    fn begin(&mut self, name: &str, moment: u64) {
        if self.is_shown {
            self.print_name(name);
        }
        let behind = match self.run {
            Some(run) => run.behind(),
            None => None,
        };
        let mut progress = self.progress.unwrap_or(Progress::new(moment));
        progress.begin_file(behind, moment);
        self.progress = Some(progress);
        self.is_copying = true;
        self.since = moment;
        self.now = moment;
        self.was_shown = false;
    }

    fn end(&mut self) {
        self.is_copying = false;
        if let Some(run) = self.run {
            run.took(self.now.saturating_sub(self.since));
        }
        if self.was_shown {
            let _ = eprint!(self.rt; "\r\x1b[K");
        }
    }

    fn report_returns(&mut self, name: &str) {
        if !self.is_quiet {
            let name = PrintedName(name);
            let _ = eprintln!(self.rt;
                "chaosd: {name} has lines that end in CR LF; --text keeps the CRs"
            );
        }
    }
}

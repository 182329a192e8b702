//! A hosts table that is read again when its file changed.
ghost use Rattle.std.specs.Prelude.{◌≡◌, string_bytes, true};
ghost use Rattle.chaosd.specs.ServedPeers.{HasKeysOf};

use crate::restarts::Start;
use chaos_file::PrintedName;
use chaosd_call::{TableFile, read_table};
use chaosd_hosts::HostsTable;
use chaosd_log::LogLines;
use std::fmt::Display;
use std::fs::{File, Files, Metadata};
use std::io;
use std::os::unix::fs::MetadataExt;
use std::time::Clock;

/// The seconds after which the file is looked at again.
const LOOK_SECONDS: u64 = 3;

/// What is seen of a file without reading it.
#[derive(Clone, Copy, PartialEq, Eq)]
struct Seen {
    length: u64,
    /// When the file was changed: seconds, and nanoseconds.
    changed: (i64, i64),
}

impl Seen {
    fn of(data: &Metadata) -> Seen {
        Seen {
            length: data.len(),
            changed: (data.mtime(), data.mtime_nsec()),
        }
    }
}

/// The file of a hosts table, which is looked at now and then.
#[derive(Drop)]
pub(crate) struct TableWatch<'a, R> {
    rt: &'a R,
    lines: LogLines<'a, R>,
    /// Whether only faults are logged.
    is_quiet: bool,
    /// What the server has from its start on.
    start: Start,
    /// The table that was taken in last.
    pub(crate) file: TableFile,
    /// What the file had when it was read last, where that was not taken in.
    left: Option<String>,
    /// What was seen of the file when it was looked at last, if it was there.
    seen: Option<Seen>,
    /// Whether it was logged that the file can't be read.
    is_missed: bool,
    /// The second of the clock from which on the file is looked at again.
    next: u64,
}

impl<'a, R: AllocGlobal + Clock + Eprint + Files<File = File>> TableWatch<'a, R> {
    /// A watch over this file, which a server with this start just read.
    pub(crate) fn new(
        rt: &'a R,
        lines: LogLines<'a, R>,
        is_quiet: bool,
        start: Start,
        file: TableFile,
    ) -> Self {
        TableWatch {
            rt,
            lines,
            is_quiet,
            start,
            file,
            left: None,
            seen: None,
            is_missed: false,
            next: 0,
        }
    }

    /// What is seen of the file. A file that isn't regular might let the service wait.
    fn see(&self) -> io::Result<Seen> {
        let data = self.rt.metadata(self.file.name.as_str())?;
        if data.is_file() {
            Ok(Seen::of(&data))
        } else {
            Err(io::Error::from(io::ErrorKind::Unsupported))
        }
    }

    /// Logs that this table was taken in, and what of the table needs a restart.
    pub(crate) fn log_hosts(&self, table: &HostsTable<'_>) {
        let count = table.hosts().len();
        if !self.is_quiet {
            let plural = if count == 1 { "" } else { "s" };
            self.log(&format_args!("read again, {count} other host{plural}"));
        }
        if let Some(change) = self.start.own_change(table) {
            self.log(&change);
        }
        for peer in table.peers().hosts() {
            if self.start.misses(peer, table.bridge()) {
                let address = peer.address;
                self.log(&format_args!(
                    "host {address:o} outside the bridge is new, which needs a restart"
                ));
            }
        }
    }

    /// Logs what is wrong with the table.
    pub(crate) fn log<D: Display>(&self, what: &D) {
        let name = PrintedName(self.file.name.as_str());
        self.lines
            .write(&format_args!("hosts table {name}: {what}"));
    }

    /// Whether it is time to look at the file again.
    fn is_due(&mut self) -> bool
        ensures { self.new.file ≡ self.old.file }
    {
        let Ok(now) = self.rt.monotonic() else {
            return false;
        };
        let now = now.as_secs();
        let is_due = now >= self.next;
        if is_due {
            self.next = now.saturating_add(LOOK_SECONDS);
        }
        is_due
    }

    /// Reads the file if it isn't what was seen last.
    fn read(&mut self) -> io::Result<Option<String>>
        ensures { self.new.file ≡ self.old.file }
    {
        let seen = self.see()?;
        if self.seen == Some(seen) {
            return Ok(None);
        }
        let text = read_table(self.rt, self.file.name.as_str())?;
        self.seen = Some(seen);
        Ok(Some(text))
    }

    /// Whether the file had this text when it was read last.
    fn is_known(&self, text: &str) -> bool {
        match &self.left {
            Some(left) => left.as_str() == text,
            None => self.file.text.as_str() == text,
        }
    }

    /// The text of the file, where it is another than was read last.
    fn take(&mut self) -> io::Result<Option<String>>
        ensures { self.new.file ≡ self.old.file }
    {
        match self.read()? {
            Some(text) if !self.is_known(text.as_str()) => Ok(Some(text)),
            _ => Ok(None),
        }
    }

    /// Whether the hosts of a table have the same keys as those of the table that was taken in
    /// last, and both tables are sealed or neither is.
    pub(crate) fn has_keys_of(&self, table: &HostsTable<'_>) -> bool
        // The result is true only where the text that was taken in last writes a table, each host has
        // the same key file in both tables, or no key in both, and both tables are sealed or neither
        // is.
        ensures { result ≡ true → HasKeysOf (string_bytes self.now.file.text) table.now }
    {
        match HostsTable::read(self.file.text.as_str()) {
            Ok(taken) => taken.has_keys_of(table),
            Err(_) => false,
        }
    }

    /// This text, which is that of the file now, was taken in.
    pub(crate) fn keep(&mut self, text: String)
        ensures { string_bytes self.new.file.text ≡ string_bytes text }
    {
        self.file.text = text;
        self.left = None;
    }

    /// This text, which is that of the file now, was not taken in.
    pub(crate) fn leave(&mut self, text: String)
        ensures { self.new.file ≡ self.old.file }
    {
        self.left = Some(text);
    }

    /// Looks at the file now and then. Gives its text where it is another than was read last. That
    /// the file can't be read is logged once.
    pub(crate) fn news(&mut self) -> Option<String>
        // The table that was taken in stays.
        ensures { self.new.file ≡ self.old.file }
    {
        if !self.is_due() {
            return None;
        }
        match self.take() {
            Ok(text) => {
                self.is_missed = false;
                text
            }
            Err(error) => {
                self.miss(&error);
                None
            }
        }
    }

    /// Logs once that the file can't be read.
    fn miss(&mut self, error: &io::Error)
        ensures { self.new.file ≡ self.old.file }
    {
        if !self.is_missed {
            self.is_missed = true;
            self.log(&format_args!("can't be read, so the hosts stay: {error}"));
        }
    }
}

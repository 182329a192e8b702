//! A script as it is typed.
ghost use Rattle.std.specs.Prelude.{◌≡◌, ◌≤◌, ◌+◌, length, IfOk};
ghost use Rattle.std.specs.Counts.{IsPrefixLen};
ghost use Rattle.chaosd.specs.Typed.{number_behind};
ghost use Rattle.chaosd_ask.specs.declared.typed.TheConstants.{MAX_TYPED};

use crate::typed_help::show_help;
use chaosd_ask::{
    Front, InputReady, MAX_TYPED, NoCommand, ReplyNotes, no_command, read_command, write_front,
};
use chaosd_io::Data;
use std::fmt::Display;
use std::fs::File;
use std::io;
use std::io::{ErrorKind, Read};

/// The bytes that are asked of a reader at a time. A terminal gives a line at a time, of at most
/// 4,096 bytes.
const CHUNK: usize = 4_096;

/// The terminal at which a script is typed, where it is.
#[derive(Drop)]
pub(crate) struct Terminal {
    /// Whether somebody types, and more is reported.
    pub(crate) is_typed: bool,
    /// The terminal, where it can be read without waiting.
    pub(crate) file: Option<File>,
}

/// The tid of a command that is typed without one has the number behind the last such tid.
fn number_behind(number: u32) -> u32
    requires { number ≤ MAX_TYPED }
    // The number is the next one, and behind the greatest number it is 1.
    ensures value { result ≡ number_behind number }
    ensures within { result ≤ MAX_TYPED }
{
    if number == MAX_TYPED { 1 } else { number + 1 }
}

/// What somebody types in place of a command.
#[derive(Clone, Copy, PartialEq, Eq)]
enum Word {
    /// To be shown what commands there are.
    Help,
    /// To end.
    Quit,
}

impl Word {
    /// The word that a line is, where it is one.
    fn of(line: &[u8]) -> Option<Self> {
        if line == b"help".as_slice() || line == b"?".as_slice() {
            Some(Word::Help)
        } else if line == b"quit".as_slice() {
            Some(Word::Quit)
        } else {
            None
        }
    }
}

/// A script that is read from standard input. On a terminal it asks for each line by a prompt. It
/// puts a tid in front of a command that is typed without one, and shows that. It leaves out and
/// reports a line that is no command of FILE. Where a run is to end by its first error, it gives a
/// line at a time, and none behind an error. It can be asked whether a line was typed.
#[derive(Drop)]
pub(crate) struct TerminalScript<'a, R: Eprint, I: Read> {
    rt: &'a R,
    inner: &'a mut I,
    terminal: Terminal,
    is_strict: bool,
    /// Whether a reply was an error, and whether the last reply was an error for a handle LOGIN.
    has_error: bool,
    is_login: bool,
    chunk: [u8; CHUNK],
    /// What of the chunk came, and was given.
    came: usize,
    given: usize,
    /// Whether the line that is given next was looked at, and a part of it given.
    is_seen: bool,
    is_begun: bool,
    /// The number of the tid for the next command that is typed without one.
    number: u32,
    /// Whether a prompt was shown to which nothing came yet.
    is_prompted: bool,
    /// Whether the script has ended.
    is_over: bool,
    ghost within: { given ≤ came },
    ghost fits: { came ≤ 4096 },
    ghost numbered: { number ≤ MAX_TYPED },
}

/// How long the first line is, with what ends it.
fn line_length(bytes: &[u8]) -> usize
    // The length is at most that of the bytes.
    ensures { result ≤ length bytes.now }
{
    for i in 0..bytes.len() {
        if bytes[i] == b'\n' {
            return i + 1;
        }
    }
    bytes.len()
}

/// Whether a line has come up to the newline that ends it.
fn is_whole(line: &[u8]) -> bool {
    match line.last() {
        Some(last) => *last == b'\n',
        None => false,
    }
}

/// A line without the newline that ends it.
fn bare(line: &[u8]) -> &[u8] {
    line.strip_suffix(b"\n".as_slice()).unwrap_or(line)
}

impl<'a, R: Eprint, I: Read> TerminalScript<'a, R, I> {
    pub(crate) fn new(rt: &'a R, inner: &'a mut I, terminal: Terminal, is_strict: bool) -> Self {
        TerminalScript {
            rt,
            inner,
            terminal,
            is_strict,
            has_error: false,
            is_login: false,
            chunk: [0; CHUNK],
            came: 0,
            given: 0,
            is_seen: false,
            is_begun: false,
            number: 1,
            is_prompted: false,
            is_over: false,
        }
    }

    /// Asks for a line, and explains what may have gone wrong with the last.
    fn prompt(&self) {
        if !self.terminal.is_typed {
            return;
        }
        if self.is_login {
            let _ = eprintln!(self.rt; "chaosd: {}", NoCommand::LoginHandle);
        }
        let _ = eprint!(self.rt; "> ");
    }

    /// The next line, with what ends it.
    fn next_line(&self) -> &[u8]
        // The line is no longer than what came and wasn't given.
        ensures { length result.now + self.now.given ≤ self.now.came }
    {
        let rest = &self.chunk[self.given..self.came];
        &rest[..line_length(rest)]
    }

    /// Looks at the next line that somebody typed, once.
    fn see_line(&mut self) {
        self.is_seen = true;
        match Word::of(bare(self.next_line())) {
            Some(Word::Help) if !self.is_begun => {
                show_help(self.rt);
                self.pass_line();
            }
            Some(Word::Quit) if !self.is_begun => self.is_over = true,
            _ => self.see_command(),
        }
    }

    /// Looks at the next line, which is to be a command: its tid is put in front where that is
    /// missing. A line that is no command of FILE is passed by once it is whole, and that is reported.
    fn see_command(&mut self) {
        let mut command = Data::new();
        let mut front = Front::new();
        if let Err(wrong) = read_command(bare(self.next_line()), &mut command) {
            return self.refuse_line(&wrong);
        }
        if self.is_begun {
            return;
        }
        write_front(command.as_slice(), self.number, &mut front);
        if front.is_empty() {
            match no_command(command.as_slice()) {
                Some(why) if is_whole(self.next_line()) => self.refuse_line(&why),
                _ => {}
            }
            return;
        }
        if !self.put_in_front(front.as_slice()) {
            return self.refuse_line(&"there is no room for a tid");
        }
        self.number = number_behind(self.number);
        if let Err(wrong) = read_command(bare(self.next_line()), &mut command) {
            return self.refuse_line(&wrong);
        }
        if let Ok(line) = str::from_utf8(bare(self.next_line())) {
            let _ = eprintln!(self.rt; "> {line}");
        }
    }

    /// Reports that the next line isn't sent, and why, and passes it by.
    fn refuse_line<D: Display>(&mut self, why: &D) {
        let _ = eprintln!(self.rt; "chaosd: not sent: {why}");
        self.pass_line();
    }

    /// Passes the next line by.
    fn pass_line(&mut self) {
        let length = self.next_line().len();
        self.step(length);
    }

    /// Goes on by so many bytes of the next line.
    fn step(&mut self, length: usize)
        requires { self.old.given + length ≤ self.old.came }
    {
        let line = &self.chunk[self.given..self.given + length];
        if let Some(last) = line.last() {
            self.is_begun = *last != b'\n';
        }
        self.given += length;
        self.is_seen = self.is_begun && self.given < self.came;
    }

    /// Puts these bytes in front of what wasn't given yet. Says whether there was room.
    fn put_in_front(&mut self, front: &[u8]) -> bool {
        let rest = self.came - self.given;
        let came = front.len() + rest;
        if came > CHUNK {
            return false;
        }
        let mut chunk = [0; CHUNK];
        chunk[..front.len()].copy_from_slice(front);
        chunk[front.len()..came].copy_from_slice(&self.chunk[self.given..self.came]);
        self.chunk = chunk;
        self.given = 0;
        self.came = came;
        true
    }

    /// Reads up to 4,096 bytes once.
    fn read_once(&mut self, may_wait: bool) -> io::Result<usize>
        // At most 4,096 bytes come.
        ensures bound { IfOk result (λ n. n ≤ 4096) }
    {
        match &mut self.terminal.file {
            Some(file) if !may_wait => file.read(&mut self.chunk),
            _ => self.inner.read(&mut self.chunk),
        }
    }

    /// Reads more of the script. There is none where none came.
    fn fill(&mut self, may_wait: bool) -> io::Result<()> {
        if !self.is_prompted {
            self.prompt();
            self.is_prompted = true;
        }
        let count = self.read_once(may_wait)?;
        self.given = 0;
        self.came = count;
        self.is_seen = false;
        self.is_prompted = false;
        if self.came == 0 {
            self.is_over = true;
            if self.terminal.is_typed {
                let _ = eprint!(self.rt; "\n");
            }
        }
        Ok(())
    }

    /// How long the next line is, or as much of it as so many bytes hold: nothing at the end.
    fn find(&mut self, most: usize, may_wait: bool) -> io::Result<usize>
        // The length is at most what was asked for, and the line lies in what came.
        ensures bound { IfOk result (λ n. (n ≤ most) × (self.new.given + n ≤ self.new.came)) }
    {
        for _ in 0..u64::MAX {
            if self.is_over || self.is_strict && self.has_error {
                return Ok(0);
            }
            if self.given == self.came {
                self.fill(may_wait)?;
            }
            if self.is_seen || self.is_over || !self.terminal.is_typed {
                return Ok(self.next_line().len().min(most));
            }
            self.see_line();
        }
        Ok(0)
    }

    /// Gives the next line, or as much of it as there is room for.
    fn give(&mut self, buf: &mut [u8]) -> io::Result<usize>
        // No more bytes are given than there is room for.
        ensures bound { IfOk result (λ n. IsPrefixLen n buf.new) }
    {
        let length = self.find(buf.len(), true)?;
        let from = self.given;
        buf[..length].copy_from_slice(&self.chunk[from..from + length]);
        self.step(length);
        Ok(length)
    }

    /// Whether the next line is there, or the end, or a fault.
    fn is_there(&mut self) -> bool {
        match self.find(CHUNK, false) {
            Ok(_) => true,
            Err(error) => {
                let kind = error.kind();
                kind != ErrorKind::WouldBlock && kind != ErrorKind::Interrupted
            }
        }
    }
}

impl<R: Eprint, I: Read> Read for TerminalScript<'_, R, I> {
    fn read(&mut self, buf: &mut [u8]) -> io::Result<usize> {
        if self.is_strict || self.terminal.is_typed || self.terminal.file.is_some() {
            self.give(buf)
        } else {
            self.inner.read(buf)
        }
    }
}

/// The way of a script that is typed: at a terminal that can be read without waiting it is asked
/// whether a line was typed. The reader keeps what was noted of the replies for its next line.
pub(crate) struct PollTerminal;

impl<R: Eprint, I: Read> InputReady<TerminalScript<'_, R, I>> for PollTerminal {
    fn is_ready(reader: &mut TerminalScript<'_, R, I>) -> bool {
        reader.terminal.file.is_none() || reader.is_there()
    }

    fn show(reader: &mut TerminalScript<'_, R, I>, notes: &ReplyNotes) {
        reader.has_error = notes.has_error();
        reader.is_login = notes.is_login();
    }
}

//! What a command asked for, and what is reported of it.
ghost use Rattle.std.specs.Prelude.{◌≡◌};
ghost use Rattle.chaos_file.specs.Session.{handle_named};
ghost use Rattle.chaos_file.specs.Views.{CommandFits, ParsedFits, command_view, parsed_view};
ghost use Rattle.chaos_file.specs.Change.{attempt_by, attempt_in, attempt_of, reading, reported, writing};

use super::{Done, Session};
use crate::answer::kept;
use crate::change::{Attempt, Change};
use crate::command::{Command, Parsed};

impl Session {
    /// To read the file of a handle.
    fn reading(&self, handle: &[u8]) -> Attempt
        ensures { result ≡ attempt_by reading (handle_named handle.now self.now.handles) }
    {
        match self.handles.find(handle) {
            Some((_, h)) => Attempt::Read(h.copied_path()),
            None => Attempt::Nothing,
        }
    }

    /// To write the file of a handle.
    fn writing(&self, handle: &[u8]) -> Attempt
        ensures { result ≡ attempt_by writing (handle_named handle.now self.now.handles) }
    {
        match self.handles.find(handle) {
            Some((_, h)) => Attempt::Write(h.copied_path()),
            None => Attempt::Nothing,
        }
    }

    /// What a command of the right form asks for.
    fn asked(&self, handle: &[u8], command: Command<'_>) -> Attempt
        requires { CommandFits (command_view command) }
        ensures { result ≡ attempt_in self.now handle.now (command_view command.entry) }
    {
        match command {
            Command::Login(_) => Attempt::Nothing,
            Command::OpenRead(path) => Attempt::Read(kept(path)),
            Command::OpenWrite(path) => Attempt::Write(kept(path)),
            Command::Read => self.reading(handle),
            Command::Write(_) => self.writing(handle),
            Command::Close => self.writing(handle),
            Command::Rename(old, new) => Attempt::Rename(kept(old), kept(new)),
            Command::Delete(path) => Attempt::Delete(kept(path)),
        }
    }

    /// What a command asks for. Only a command that was refused is looked at so: the call stays out of
    /// the way of all others.
    #[inline(never)]
    fn attempt(&self, parsed: Parsed<'_>) -> Attempt
        requires { ParsedFits (parsed_view parsed) }
        ensures { result ≡ attempt_of self.now (parsed_view parsed.entry) }
    {
        match parsed {
            Parsed::Good(_, handle, command) => self.asked(handle, command),
            _ => Attempt::Nothing,
        }
    }

    /// Reports a command that was refused, in the place of what a command changed. Such a command
    /// left the session as it was.
    pub(super) fn report(&self, parsed: Parsed<'_>, done: Done, made: &mut Option<Change>)
        requires { ParsedFits (parsed_view parsed) }
        ensures { made.new ≡ reported self.now (parsed_view parsed.entry) made.old done }
    {
        if let Err(error) = done {
            *made = Some(Change::Refused(self.attempt(parsed), error));
        }
    }
}

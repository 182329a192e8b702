//! A user's session: one reply for each command.
ghost use Rattle.std.specs.Prelude.{◌≡◌, ◌≤◌, [], length, option_map};
ghost use Rattle.chaos_file.specs.Session.{SessionView, new_session};
ghost use Rattle.chaos_file.specs.Command.{word_said};
ghost use Rattle.chaos_file.specs.Views.{command_view, parsed_view, CommandFits, ParsedFits};
ghost use Rattle.chaos_file.specs.Plan.{plan_command, may_say, if_known, Refuse, plan_of};
ghost use Rattle.chaos_file.specs.Store.{change};
ghost use Rattle.chaos_file.specs.Outcome.{IsDone};
ghost use Rattle.chaos_file.specs.Apply.{IsApplied};
ghost use Rattle.chaos_file.specs.Change.{IsChange, Reports};

mod asked;
mod close;
mod open;
mod paths;
mod transfer;

use crate::answer::{Reply, begin, end};
use crate::change::{Change, clear};
use crate::command::{Command, Parsed, Word};
use crate::error::FileError;
use crate::handles::Handles;
use crate::limits::{MAX_FRONT, MAX_HANDLE, MAX_NAME};
use crate::parse::parse_command;
use crate::store::Store;
use arrayvec::ArrayVec;
use std::alloc::Global;
use std::marker::Model;

/// A user's session: the name that was given, and the open files. It is dropped when its connection
/// ends, and what its handles had written and not closed is lost.
#[derive(Drop)]
pub struct Session {
    name: Option<ArrayVec<u8, MAX_NAME>>,
    handles: Handles,
}

/// How a part of a command's work ended: by which error, where it was refused.
type Done = Result<(), FileError>;

impl Model for Session {
    ghost use Rattle.std.specs.Prelude.{option_map};
    ghost use Rattle.chaos_file.specs.Session.{SessionView};

    ghost Value = { SessionView };

    ghost view = { λ s. record { name = option_map (λ v. v.items) s.name; handles = s.handles } };
}

impl Session {
    /// A session without a name, and without open files. It takes no memory.
    pub fn new() -> Self
        // The session has no name and no handles.
        ensures { result ≡ new_session }
    {
        Session {
            name: None,
            handles: Handles::new(),
        }
    }

    /// The user's name, where one was given.
    pub fn name(&self) -> Option<&[u8]>
        // It is the name that the session has, where it has one.
        ensures { option_map (λ name. name.now) result ≡ self.now.name }
    {
        match &self.name {
            Some(name) => Some(name.as_slice()),
            None => None,
        }
    }

    /// How many files are open.
    pub fn open_files(&self) -> usize
        // It counts the handles of the session.
        ensures { result ≡ length self.now.handles }
    {
        self.handles.len()
    }

    /// Gives the open files back, as where the connection ended: what their handles had written and
    /// not closed is lost. The user's name stays.
    pub fn drop_files(&mut self)
        // No handle is left, and the name stays.
        ensures { self.new ≡ record self.old { handles = [] } }
    {
        self.handles.clear();
    }

    /// Carries out a command, and answers it by one reply.
    ///
    /// LOGIN, READ, CLOSE of a handle that reads, OPEN WRITE and every error that is found before
    /// the store is asked touch no store and take no memory, over any store.
    ///
    /// A command looks at its own bytes, at the handles' names and at what it copies: a READ copies
    /// its bytes once, into the reply, and a WRITE once, behind the handle's bytes. OPEN READ and
    /// CLOSE cost what the store's call costs.
    pub fn apply<S: Store>(&mut self, alloc: Global, store: &mut S, command: &[u8]) -> Reply
        // `honest`: over an honest store the reply, the session and the files are those of the
        // language's definition; or the reply is a store fault, where the store failed in this call
        // and the command asks it; or it is out of memory, at a command that may take some. At
        // either, session and files are as they were. `any`: over any store the reply and the
        // session are those that the command asks for, by what the store answers. A handle that
        // reads holds bytes such as the store's `get` may give, no more than the greatest file; a
        // store fault comes only where the store's count rose; a command that asks nothing of the
        // store leaves it as it was. `kept`, `kept_files`: after an ERROR reply the session is as
        // it was, and so are the files of an honest store.
        ensures { IsApplied (change S.contents S.may_give S.count store.old store.new) self.old
            self.new command.now result.items }
    {
        let mut reply = Reply::new();
        let mut made = None;
        self.apply_into(alloc, store, command, &mut reply, &mut made);
        reply
    }

    /// Carries out a command, and says what the command changed. `apply` is this call without the
    /// change. The reply and the change are written into places of the caller's, over what stood
    /// there: none is moved. A command without a change only marks its place as empty.
    ///
    /// The change is a file that was opened to be read, written, replaced, moved or taken out; or
    /// that the command was refused, by which error, and what it asked for. Any other command has
    /// no change. Where the error is a store fault, [`Store::cause`] may say more.
    pub fn apply_into<S: Store>(
        &mut self,
        alloc: Global,
        store: &mut S,
        command: &[u8],
        reply: &mut Reply,
        made: &mut Option<Change>,
    )
        // The session, the store and the reply are as `Session::apply` says, whatever stood in the
        // places.
        ensures applied { IsApplied (change S.contents S.may_give S.count store.old store.new)
            self.old self.new command.now reply.new.items }
        // After an ERROR reply the change is that the command was refused by this error, with the
        // file that the command asked for. Otherwise, by what the command asked of the store: an
        // OPEN READ has read as many bytes as its new handle holds. A CLOSE of a handle that writes
        // has written a new file or replaced one, of as many bytes as the handle held, and an
        // honest store says truly which. A RENAME has moved a file, and a DELETE has taken one out.
        // Every other command has no change.
        ensures changed { IsChange (change S.contents S.may_give S.count store.old store.new)
            self.old self.new command.now reply.new.items made.new }
    {
        reply.clear();
        clear(made);
        let parsed = parse_command(command);
        begin(reply, parsed.tid(), parsed.handle());
        let done = self.act(alloc, store, parsed, reply, made);
        end(reply, done);
        self.report(parsed, done, made);
    }

    /// Carries out what was read: a command of the right form, where the user may give it.
    #[tactic(auto, using(crate::proofs::Outcome::settled_done, crate::proofs::Changed::settled_unmade))]
    fn act<S: Store>(
        &mut self,
        alloc: Global,
        store: &mut S,
        parsed: Parsed<'_>,
        reply: &mut Reply,
        made: &mut Option<Change>,
    ) -> Done
        requires fits { ParsedFits (parsed_view parsed) }
        requires room { length reply.old.items ≤ MAX_FRONT }
        requires unmade { made.old ≡ None }
        ensures done { IsDone (change S.contents S.may_give S.count store.old store.new)
            (plan_of self.old (parsed_view parsed.entry))
            (record {
              done = result;
              front = reply.old.items;
              reply = reply.new.items;
              old = self.old;
              new = self.new;
            }) }
        ensures change { Reports (change S.contents S.may_give S.count store.old store.new)
            (plan_of self.old (parsed_view parsed.entry))
            self.old self.new made.new result }
    {
        let (handle, command) = match parsed {
            Parsed::BadHead => return Err(FileError::Syntax),
            Parsed::NoWord(_, _) => return Err(FileError::Syntax),
            Parsed::Unknown(_, _) => return Err(FileError::UnknownCommand),
            Parsed::BadForm(_, _, word) => return Err(self.error_at(word, FileError::Syntax)),
            Parsed::BadPath(_, _, word) => return Err(self.error_at(word, FileError::IllegalPath)),
            Parsed::Good(_, handle, command) => (handle, command),
        };
        if !self.may_say(command.word()) {
            return Err(FileError::NotLoggedIn);
        }
        match command {
            Command::Login(name) => self.log_in(name, reply),
            Command::OpenRead(path) => self.open_read(alloc, store, handle, path, reply, made),
            Command::OpenWrite(path) => self.open_write(handle, path, reply),
            Command::Read => self.read(handle, reply),
            Command::Write(bytes) => self.write(alloc, handle, bytes, reply),
            Command::Close => self.close(alloc, store, handle, reply, made),
            Command::Rename(old, new) => self.rename(alloc, store, old, new, reply, made),
            Command::Delete(path) => self.delete(alloc, store, path, reply, made),
        }
    }

    /// Whether a command with this word may be given: every word but LOGIN wants a user's name.
    fn may_say(&self, word: Word) -> bool
        ensures { result ≡ may_say self.now word }
    {
        word == Word::Login || self.name.is_some()
    }

    /// The error of a command with this word: that no name was given comes first.
    fn error_at(&self, word: Word, error: FileError) -> FileError
        ensures { if_known self.now word (Refuse error) ≡ Refuse result }
    {
        if self.may_say(word) {
            error
        } else {
            FileError::NotLoggedIn
        }
    }
}

impl Default for Session {
    fn default() -> Self
        // The session has no name and no handles.
        ensures { result ≡ new_session }
    {
        Session::new()
    }
}

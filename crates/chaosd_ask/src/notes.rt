//! What is noted of a run over a script besides its result.
ghost use Rattle.std.specs.Prelude.{◌≡◌, ◌≤◌, [], length};
ghost use Rattle.std.specs.Str.{bytes_eq};
ghost use Rattle.chaos_file.specs.declared.limits.TheConstants.{MAX_HANDLE};
ghost use Rattle.chaos_file.specs.Reply.{said_view};
ghost use Rattle.chaosd_ask.specs.Notes.{has_name, no_notes, noted, notes_after, with_name, without_name};

use arrayvec::ArrayVec;
use chaos_file::{MAX_HANDLE, MAX_HANDLES, ReplyParts, Said, read_reply};
use chaosd_io::BadText;
use file_copy::NoReply;
use std::marker::Model;

/// What is noted of a run over a script besides its result.
#[derive(Drop)]
pub struct Notes {
    /// What is wrong with the line that the run ended by, where it stands for no command.
    pub bad_line: Option<BadText>,
    /// Why the last command got no reply, where it got none.
    pub no_reply: Option<NoReply>,
    /// What the replies that were printed leave undone.
    pub replies: ReplyNotes,
}

impl Notes {
    /// Notes of a run that has printed nothing yet.
    pub fn new() -> Self
        // No reply was noted.
        ensures { result.replies ≡ no_notes }
    {
        Notes {
            bad_line: None,
            no_reply: None,
            replies: ReplyNotes::new(),
        }
    }
}

/// The name of a handle.
#[derive(Drop)]
pub struct HandleName {
    name: ArrayVec<u8, MAX_HANDLE>,
}

impl Model for HandleName {
    ghost use Rattle.std.specs.Prelude.{List, ℕ};

    ghost Value = { List ℕ };

    ghost view = { λ h. h.name.items };
}

impl Default for HandleName {
    fn default() -> Self {
        HandleName {
            name: ArrayVec::new(),
        }
    }
}

impl HandleName {
    /// The name of these bytes.
    fn new(bytes: &[u8]) -> Self
        requires { length bytes.now ≤ MAX_HANDLE }
        ensures { result ≡ bytes.now }
    {
        let mut name = ArrayVec::new();
        let _fits = name.try_extend_from_slice(bytes);
        HandleName { name }
    }

    /// Whether these bytes are exactly this name.
    fn is(&self, bytes: &[u8]) -> bool
        ensures { result ≡ bytes_eq self.now bytes.now }
    {
        self.name.as_slice() == bytes
    }

    /// The bytes of the name.
    pub fn as_slice(&self) -> &[u8]
        // The bytes are the name.
        ensures { result.now ≡ self.now }
    {
        self.name.as_slice()
    }
}

/// What the replies of a script leave undone, as they were noted one by one. Handles are kept by
/// their names, as many as a session has.
#[derive(Drop)]
pub struct ReplyNotes {
    has_error: bool,
    is_login: bool,
    written: ArrayVec<HandleName, MAX_HANDLES>,
}

impl Model for ReplyNotes {
    ghost use Rattle.chaosd_ask.specs.Notes.{NotesView};

    ghost Value = { NotesView };

    ghost view = { λ n. record {
      has_error = n.has_error;
      is_login = n.is_login;
      written = n.written.items;
    } };
}

/// Whether a handle is among these.
fn has_name(names: &ArrayVec<HandleName, MAX_HANDLES>, handle: &[u8]) -> bool
    ensures { result ≡ has_name handle.now names.now.items }
{
    names.iter().any(|name| name.is(handle))
}

/// Adds a handle that isn't there, where there is room.
fn add_name(names: &mut ArrayVec<HandleName, MAX_HANDLES>, handle: &[u8])
    requires { length handle.now ≤ MAX_HANDLE }
    ensures { names.new.items ≡ with_name handle.now names.old.items }
{
    if !has_name(names, handle) && names.len() < MAX_HANDLES {
        names.push(HandleName::new(handle));
    }
}

/// Takes a handle out.
fn drop_name(names: &mut ArrayVec<HandleName, MAX_HANDLES>, handle: &[u8])
    ensures { names.new.items ≡ without_name handle.now names.old.items }
{
    names.retain(|name| !name.is(handle));
}

impl ReplyNotes {
    /// Notes of no reply.
    pub fn new() -> Self
        // No reply was an error, and no handle was written.
        ensures { result ≡ no_notes }
    {
        ReplyNotes {
            has_error: false,
            is_login: false,
            written: ArrayVec::new(),
        }
    }

    /// Whether a reply was an error.
    pub fn has_error(&self) -> bool
        // It is what was noted.
        ensures { result ≡ self.now.has_error }
    {
        self.has_error
    }

    /// Whether the last reply was an error for a handle LOGIN: then a command had one space where
    /// two are needed.
    pub fn is_login(&self) -> bool
        // It is what was noted.
        ensures { result ≡ self.now.is_login }
    {
        self.is_login
    }

    /// The handles that were written and not closed.
    pub fn written(&self) -> &[HandleName]
        // They are those that were noted.
        ensures { result.now ≡ self.now.written }
    {
        self.written.as_slice()
    }

    /// Notes a reply. It reads the reply once, and takes no memory.
    pub fn note(&mut self, reply: &[u8])
        // The notes are those after the reply.
        ensures { self.new ≡ notes_after self.old reply.now }
    {
        match read_reply(reply) {
            Some(ReplyParts { handle, said, .. }) => self.note_said(handle, said),
            None => self.is_login = false,
        }
    }

    /// Notes what a reply says of a handle.
    fn note_said(&mut self, handle: &[u8], said: Said<'_>)
        requires { length handle.now ≤ MAX_HANDLE }
        ensures { self.new ≡ noted self.old handle.now (said_view said.entry) }
    {
        self.is_login = false;
        match said {
            Said::Refused(_) => {
                self.has_error = true;
                self.is_login = handle == b"LOGIN".as_slice();
            }
            Said::Wrote(_) => add_name(&mut self.written, handle),
            Said::Closed(_) => drop_name(&mut self.written, handle),
            _ => {}
        }
    }
}

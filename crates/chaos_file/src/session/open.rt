//! LOGIN and OPEN.
ghost use Rattle.std.specs.Prelude.{◌≡◌, ◌<◌, ◌≤◌, length};
ghost use Rattle.chaos_file.specs.Answer.{LoggedIn, Opened};
ghost use Rattle.chaos_file.specs.Session.{handle_named, with_name, with_new_handle, writer};
ghost use Rattle.chaos_file.specs.Plan.{Tell, Ask, GetFile, open_error, plan_open};
ghost use Rattle.chaos_file.specs.Store.{change};
ghost use Rattle.chaos_file.specs.Change.{Reports};
ghost use Rattle.chaos_file.specs.Outcome.{Settles, IsDone};

use super::{Done, Session};
use crate::answer::{Reply, kept, tell, tell_count};
use crate::change::Change;
use crate::error::FileError;
use crate::handle::Handle;
use crate::limits::{MAX_FILE, MAX_FRONT, MAX_HANDLE, MAX_HANDLES, MAX_NAME, MAX_PATH};
use crate::store::{Got, Store};
use std::alloc::Global;

impl Session {
    /// LOGIN: the session has this name. Its handles stay.
    pub(super) fn log_in(&mut self, name: &[u8], reply: &mut Reply) -> Done
        requires name { length name.now ≤ MAX_NAME }
        requires room { length reply.old.items ≤ MAX_FRONT }
        ensures { Settles (Tell (with_name self.old name.now) (LoggedIn name.now))
            (record {
              done = result;
              front = reply.old.items;
              reply = reply.new.items;
              old = self.old;
              new = self.new;
            }) }
    {
        self.name = Some(kept(name));
        tell(reply, b"LOGIN ", name);
        Ok(())
    }

    /// Why no handle of this name may be opened.
    fn open_error(&self, name: &[u8]) -> Option<FileError>
        ensures { result ≡ open_error self.now (handle_named name.now self.now.handles) }
    {
        match self.handles.find(name) {
            Some(_) => Some(FileError::HandleInUse),
            None if self.handles.len() < MAX_HANDLES => None,
            None => Some(FileError::TooManyHandles),
        }
    }

    /// One open file more.
    fn add(&mut self, handle: Handle)
        requires { length self.old.handles < MAX_HANDLES }
        ensures { self.new ≡ with_new_handle self.old handle }
    {
        self.handles.push(handle);
    }

    /// OPEN WRITE: the handle holds no bytes yet, and the store isn't asked.
    pub(super) fn open_write(&mut self, name: &[u8], path: &[u8], reply: &mut Reply) -> Done
        requires name { length name.now ≤ MAX_HANDLE }
        requires path { length path.now ≤ MAX_PATH }
        requires room { length reply.old.items ≤ MAX_FRONT }
        ensures { Settles
            (plan_open self.old name.now
            (Tell (with_new_handle self.old (writer name.now path.now)) (Opened 0)))
            (record {
              done = result;
              front = reply.old.items;
              reply = reply.new.items;
              old = self.old;
              new = self.new;
            }) }
    {
        if let Some(error) = self.open_error(name) {
            return Err(error);
        }
        self.add(Handle::writer(name, path));
        tell_count(reply, b"OPEN ", 0);
        Ok(())
    }

    /// OPEN READ: the handle holds the file's bytes as they are now.
    pub(super) fn open_read<S: Store>(
        &mut self,
        alloc: Global,
        store: &mut S,
        name: &[u8],
        path: &[u8],
        reply: &mut Reply,
        made: &mut Option<Change>,
    ) -> Done
        requires name { length name.now ≤ MAX_HANDLE }
        requires path { length path.now ≤ MAX_PATH }
        requires room { length reply.old.items ≤ MAX_FRONT }
        ensures done { IsDone (change S.contents S.may_give S.count store.old store.new)
            (plan_open self.old name.now (Ask (GetFile name.now path.now)))
            (record {
              done = result;
              front = reply.old.items;
              reply = reply.new.items;
              old = self.old;
              new = self.new;
            }) }
        ensures change { Reports (change S.contents S.may_give S.count store.old store.new)
            (plan_open self.old name.now (Ask (GetFile name.now path.now)))
            self.old self.new made.new result }
    {
        if let Some(error) = self.open_error(name) {
            return Err(error);
        }
        match store.get(alloc, path, MAX_FILE) {
            Got::Bytes(bytes) => {
                *made = Some(Change::Read(kept(path), bytes.len()));
                tell_count(reply, b"OPEN ", bytes.len());
                self.add(Handle::reader(name, path, bytes));
                Ok(())
            }
            Got::Absent => Err(FileError::NoSuchFile),
            Got::TooBig => Err(FileError::FileTooBig),
            Got::Failed => Err(FileError::StoreFault),
            Got::NoMemory => Err(FileError::NoMemory),
        }
    }
}

//! RENAME and DELETE.
ghost use Rattle.std.specs.Prelude.{◌≡◌, ◌≤◌, length};
ghost use Rattle.chaos_file.specs.Plan.{Ask, RenameFile, RemoveFile};
ghost use Rattle.chaos_file.specs.Store.{change};
ghost use Rattle.chaos_file.specs.Change.{Reports};
ghost use Rattle.chaos_file.specs.Outcome.{IsDone};

use super::{Done, Session};
use crate::answer::{Reply, kept, put};
use crate::change::Change;
use crate::error::FileError;
use crate::limits::{MAX_FRONT, MAX_PATH};
use crate::store::{Removed, Renamed, Store};
use std::alloc::Global;

impl Session {
    /// RENAME: moves a file to a path that no file has.
    pub(super) fn rename<S: Store>(
        &self,
        alloc: Global,
        store: &mut S,
        old: &[u8],
        new: &[u8],
        reply: &mut Reply,
        made: &mut Option<Change>,
    ) -> Done
        requires old { length old.now ≤ MAX_PATH }
        requires new { length new.now ≤ MAX_PATH }
        requires room { length reply.old.items ≤ MAX_FRONT }
        ensures done { IsDone (change S.contents S.may_give S.count store.old store.new)
            (Ask (RenameFile old.now new.now))
            (record {
              done = result;
              front = reply.old.items;
              reply = reply.new.items;
              old = self.now;
              new = self.now;
            }) }
        ensures change { Reports (change S.contents S.may_give S.count store.old store.new)
            (Ask (RenameFile old.now new.now))
            self.now self.now made.new result }
    {
        match store.rename(alloc, old, new) {
            Renamed::Done => {
                put(reply, b"RENAME");
                *made = Some(Change::Renamed(kept(old), kept(new)));
                Ok(())
            }
            Renamed::Absent => Err(FileError::NoSuchFile),
            Renamed::Exists => Err(FileError::FileExists),
            Renamed::Failed => Err(FileError::StoreFault),
            Renamed::NoMemory => Err(FileError::NoMemory),
        }
    }

    /// DELETE: takes a file out of the store.
    pub(super) fn delete<S: Store>(
        &self,
        alloc: Global,
        store: &mut S,
        path: &[u8],
        reply: &mut Reply,
        made: &mut Option<Change>,
    ) -> Done
        requires path { length path.now ≤ MAX_PATH }
        requires room { length reply.old.items ≤ MAX_FRONT }
        ensures done { IsDone (change S.contents S.may_give S.count store.old store.new)
            (Ask (RemoveFile path.now))
            (record {
              done = result;
              front = reply.old.items;
              reply = reply.new.items;
              old = self.now;
              new = self.now;
            }) }
        ensures change { Reports (change S.contents S.may_give S.count store.old store.new)
            (Ask (RemoveFile path.now))
            self.now self.now made.new result }
    {
        match store.remove(alloc, path) {
            Removed::Done => {
                put(reply, b"DELETE");
                *made = Some(Change::Deleted(kept(path)));
                Ok(())
            }
            Removed::Absent => Err(FileError::NoSuchFile),
            Removed::Failed => Err(FileError::StoreFault),
            Removed::NoMemory => Err(FileError::NoMemory),
        }
    }
}

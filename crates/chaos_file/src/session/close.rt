//! CLOSE.
ghost use Rattle.std.specs.Prelude.{◌≡◌, ◌<◌, ◌≤◌, ◌++◌, length};
ghost use Rattle.chaos_file.specs.Answer.{Closed, answer_text};
ghost use Rattle.chaos_file.specs.Session.{handle_named, handle_at, without_handle};
ghost use Rattle.chaos_file.specs.Plan.{plan_close};
ghost use Rattle.chaos_file.specs.Store.{change};
ghost use Rattle.chaos_file.specs.Change.{Reports};
ghost use Rattle.chaos_file.specs.Outcome.{IsDone};

use super::{Done, Session};
use crate::answer::{Reply, tell_count};
use crate::change::Change;
use crate::error::FileError;
use crate::limits::MAX_FRONT;
use crate::store::{Store, Stored};
use std::alloc::Global;

impl Session {
    /// Takes out the handle at a place, and tells how many bytes it held.
    fn close_at(&mut self, at: usize, reply: &mut Reply)
        requires within { at < length self.old.handles }
        requires room { length reply.old.items ≤ MAX_FRONT }
        ensures session { self.new ≡ without_handle self.old at }
        ensures text { reply.new.items
            ≡ reply.old.items
            ++ answer_text (Closed (length (handle_at self.old.handles at).bytes)) }
    {
        let h = self.handles.remove(at);
        tell_count(reply, b"CLOSE ", h.len());
    }

    /// CLOSE: the bytes of a handle that writes are put into the store first; then the handle is
    /// gone.
    pub(super) fn close<S: Store>(
        &mut self,
        alloc: Global,
        store: &mut S,
        handle: &[u8],
        reply: &mut Reply,
        made: &mut Option<Change>,
    ) -> Done
        requires room { length reply.old.items ≤ MAX_FRONT }
        requires unmade { made.old ≡ None }
        ensures done { IsDone (change S.contents S.may_give S.count store.old store.new)
            (plan_close self.old (handle_named handle.now self.old.handles))
            (record {
              done = result;
              front = reply.old.items;
              reply = reply.new.items;
              old = self.old;
              new = self.new;
            }) }
        ensures change { Reports (change S.contents S.may_give S.count store.old store.new)
            (plan_close self.old (handle_named handle.now self.old.handles))
            self.old self.new made.new result }
    {
        match self.handles.find(handle) {
            None => Err(FileError::NoSuchHandle),
            Some((at, h)) if h.writes() => match store.put(alloc, h.path(), h.bytes()) {
                Stored::Done(placed) => {
                    *made = Some(h.put_change(placed));
                    self.close_at(at, reply);
                    Ok(())
                }
                Stored::Failed => Err(FileError::StoreFault),
                Stored::NoMemory => Err(FileError::NoMemory),
            },
            Some((at, _)) => {
                self.close_at(at, reply);
                Ok(())
            }
        }
    }
}

//! READ and WRITE. Most commands are these, so their parts are compiled into the one place that calls
//! them.
ghost use Rattle.std.specs.Prelude.{◌≡◌, ◌<◌, ◌≤◌, ◌+◌, ◌++◌, length, OnOk, OnErr};
ghost use Rattle.chaos_file.specs.Answer.{Wrote, answer_text, read_answer};
ghost use Rattle.chaos_file.specs.Session.{handle_named, handle_at, next_bytes, after_read, with_handle, with_bytes};
ghost use Rattle.chaos_file.specs.Plan.{plan_read, plan_write};
ghost use Rattle.chaos_file.specs.Outcome.{Settles, Grows};

use super::{Done, Session};
use crate::answer::{Reply, tell_count};
use crate::error::FileError;
use crate::limits::{MAX_CHUNK, MAX_FILE, MAX_FRONT};
use std::alloc::{AllocError, Global};

impl Session {
    #[inline(always)]
    fn read_at(&mut self, at: usize, reply: &mut Reply)
        requires within { at < length self.old.handles }
        requires room { length reply.old.items ≤ MAX_FRONT }
        ensures session { self.new
            ≡ with_handle self.old at (after_read (handle_at self.old.handles at)) }
        ensures text { reply.new.items
            ≡ reply.old.items
            ++ answer_text (read_answer (next_bytes (handle_at self.old.handles at))) }
    {
        self.handles.read_at(at, reply);
    }

    /// READ: the next bytes of a handle, and `EOF` at their end.
    #[inline(always)]
    pub(super) fn read(&mut self, handle: &[u8], reply: &mut Reply) -> Done
        requires { length reply.old.items ≤ MAX_FRONT }
        ensures { Settles (plan_read self.old (handle_named handle.now self.old.handles))
            (record {
              done = result;
              front = reply.old.items;
              reply = reply.new.items;
              old = self.old;
              new = self.new;
            }) }
    {
        match self.handles.find(handle) {
            None => Err(FileError::NoSuchHandle),
            Some((_, h)) if h.writes() => Err(FileError::WrongKind),
            Some((at, _)) => {
                self.read_at(at, reply);
                Ok(())
            }
        }
    }

    fn append_at(&mut self, alloc: Global, at: usize, bytes: &[u8]) -> Result<(), AllocError>
        requires { at < length self.old.handles }
        ensures ok { OnOk result
            (self.new
            ≡ with_handle self.old at (with_bytes (handle_at self.old.handles at) bytes.now)) }
        ensures err { OnErr result (self.new ≡ self.old) }
    {
        self.handles.append_at(alloc, at, bytes)
    }

    /// Adds bytes to the handle at a place, and tells how many it holds then.
    #[inline(always)]
    fn write_at(
        &mut self,
        alloc: Global,
        at: usize,
        bytes: &[u8],
        len: usize,
        reply: &mut Reply,
    ) -> Done
        requires within { at < length self.old.handles }
        requires len { len ≡ length (handle_at self.old.handles at).bytes + length bytes.now }
        requires room { length reply.old.items ≤ MAX_FRONT }
        ensures { Grows
            (with_handle self.old at (with_bytes (handle_at self.old.handles at) bytes.now))
            (Wrote len) result
            (record {
              done = result;
              front = reply.old.items;
              reply = reply.new.items;
              old = self.old;
              new = self.new;
            }) }
    {
        match self.append_at(alloc, at, bytes) {
            Ok(()) => {
                tell_count(reply, b"WRITE ", len);
                Ok(())
            }
            Err(_) => Err(FileError::NoMemory),
        }
    }

    /// WRITE: adds bytes to a handle.
    #[inline(always)]
    pub(super) fn write(
        &mut self,
        alloc: Global,
        handle: &[u8],
        bytes: &[u8],
        reply: &mut Reply,
    ) -> Done
        requires bytes { length bytes.now ≤ MAX_CHUNK }
        requires room { length reply.old.items ≤ MAX_FRONT }
        ensures { Settles (plan_write bytes.now self.old (handle_named handle.now self.old.handles))
            (record {
              done = result;
              front = reply.old.items;
              reply = reply.new.items;
              old = self.old;
              new = self.new;
            }) }
    {
        match self.handles.find(handle) {
            None => Err(FileError::NoSuchHandle),
            Some((_, h)) if !h.writes() => Err(FileError::WrongKind),
            Some((_, h)) if h.len() + bytes.len() > MAX_FILE => Err(FileError::FileTooBig),
            Some((at, h)) => {
                let len = h.len() + bytes.len();
                self.write_at(alloc, at, bytes, len, reply)
            }
        }
    }
}

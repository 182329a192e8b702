//! The open files of a session.
ghost use Rattle.std.specs.Prelude.{◌≡◌, ◌<◌, ◌≤◌, ◌+◌, ◌∷◌, ◌++◌, [], length, position, remove, slice_set, IfSome, OnOk, OnErr, option_map};
ghost use Rattle.chaos_file.specs.Answer.{answer_text, read_answer};
ghost use Rattle.chaos_file.specs.Session.{HandleView, is_named, handle_named, handle_at, after_read, next_bytes, with_bytes};

use crate::answer::Reply;
use crate::handle::Handle;
use crate::limits::{MAX_FRONT, MAX_HANDLES};
use arrayvec::ArrayVec;
use std::alloc::{AllocError, Global};
use std::marker::Model;

/// The handles that are open, in the order of their opening: eight at most, in a fixed array.
#[derive(Drop)]
pub(crate) struct Handles {
    open: ArrayVec<Handle, MAX_HANDLES>,
}

impl Model for Handles {
    ghost use Rattle.std.specs.Prelude.{List, ◌≤◌, length};
    ghost use Rattle.chaos_file.specs.Session.{HandleView};

    ghost Value = { List HandleView };

    ghost view = { λ h. h.open.items };
}

impl Handles {
    pub(crate) fn new() -> Self
        ensures { result ≡ [] }
    {
        Handles {
            open: ArrayVec::new(),
        }
    }

    pub(crate) fn len(&self) -> usize
        ensures value { result ≡ length self.now }
        ensures most { result ≤ MAX_HANDLES }
    {
        self.open.len()
    }

    /// Lets all handles go.
    pub(crate) fn clear(&mut self)
        ensures { self.new ≡ [] }
    {
        self.open.clear();
    }

    fn place(&self, name: &[u8]) -> Option<usize>
        ensures value { result ≡ position (is_named name.now) self.now }
        ensures within { IfSome result (λ at. at < length self.now) }
    {
        self.open.iter().position(|h| h.is_named(name))
    }

    /// The handle of this name, with its place.
    pub(crate) fn find(&self, name: &[u8]) -> Option<(usize, &Handle)>
        ensures value { option_map (λ p. (p.0, p.1.now)) result ≡ handle_named name.now self.now }
        ensures within { IfSome result (λ p. p.0 < length self.now) }
    {
        let at = self.place(name)?;
        Some((at, &self.open.as_slice()[at]))
    }

    /// Answers a READ of the handle at a place.
    #[inline(always)]
    pub(crate) fn read_at(&mut self, at: usize, reply: &mut Reply)
        requires within { at < length self.old }
        requires room { length reply.old.items ≤ MAX_FRONT }
        ensures view { self.new ≡ slice_set self.old at (after_read (handle_at self.old at)) }
        ensures text { reply.new.items
            ≡ reply.old.items ++ answer_text (read_answer (next_bytes (handle_at self.old at))) }
    {
        let h = &mut self.open.as_mut_slice()[at];
        h.read(reply);
    }

    /// Adds bytes to the handle at a place.
    pub(crate) fn append_at(
        &mut self,
        alloc: Global,
        at: usize,
        bytes: &[u8],
    ) -> Result<(), AllocError>
        requires { at < length self.old }
        ensures ok { OnOk result
            (self.new ≡ slice_set self.old at (with_bytes (handle_at self.old at) bytes.now)) }
        ensures err { OnErr result (self.new ≡ self.old) }
    {
        let h = &mut self.open.as_mut_slice()[at];
        h.append(alloc, bytes)
    }

    /// Takes out the handle at a place.
    pub(crate) fn remove(&mut self, at: usize) -> Handle
        requires { at < length self.old }
        ensures view { self.new ≡ remove self.old at }
        ensures value { result ≡ handle_at self.old at }
    {
        self.open.remove(at)
    }

    /// One handle more, behind the others.
    pub(crate) fn push(&mut self, handle: Handle)
        requires { length self.old < MAX_HANDLES }
        ensures { self.new ≡ self.old ++ handle ∷ [] }
    {
        self.open.push(handle);
    }
}

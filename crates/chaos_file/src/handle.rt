//! One open file.
ghost use Rattle.std.specs.Prelude.{◌≡◌, ◌++◌, ◌+◌, ◌<◌, ◌≤◌, ◌^◌, take, drop, length, OnOk, OnErr};
ghost use Rattle.chaos_file.specs.Answer.{answer_text, read_answer};
ghost use Rattle.chaos_file.specs.Change.{path_in, put_at};
ghost use Rattle.chaos_file.specs.Session.{HandleView, blank_handle, is_named, reader, writer, next_bytes, after_read, with_bytes};

use crate::answer::{Reply, kept, tell_bytes};
use crate::change::Change;
use crate::file_bytes::FileBytes;
use crate::limits::{MAX_CHUNK, MAX_FRONT, MAX_HANDLE, MAX_PATH};
use crate::names::FilePath;
use crate::store::Placed;
use arrayvec::ArrayVec;
use std::alloc::{AllocError, Global};
use std::marker::Model;

/// A file handle. One that reads holds the file's bytes as they were at its opening; one that
/// writes holds what was written so far.
#[derive(Drop)]
pub(crate) struct Handle {
    name: ArrayVec<u8, MAX_HANDLE>,
    path: FilePath,
    writes: bool,
    bytes: FileBytes,
    position: usize,
}

impl Model for Handle {
    ghost use Rattle.std.specs.Prelude.{◌≤◌, length};
    ghost use Rattle.chaos_file.specs.Session.{HandleView};

    ghost Value = { HandleView };

    ghost view = { λ h. record {
      name = h.name.items;
      path = h.path.items;
      writes = h.writes;
      bytes = h.bytes;
      position = h.position;
    } };

    ghost invariant = { λ h. h.position ≤ length h.bytes };
}

impl Default for Handle {
    fn default() -> Self
        ensures { result ≡ blank_handle }
    {
        Handle {
            name: ArrayVec::new(),
            path: FilePath::new(),
            writes: false,
            bytes: FileBytes::new(),
            position: 0,
        }
    }
}

impl Handle {
    /// A handle that reads these bytes, from the first on.
    pub(crate) fn reader(name: &[u8], path: &[u8], bytes: FileBytes) -> Handle
        requires name { length name.now ≤ MAX_HANDLE }
        requires path { length path.now ≤ MAX_PATH }
        ensures { result ≡ reader name.now path.now bytes }
    {
        Handle {
            name: kept(name),
            path: kept(path),
            writes: false,
            bytes,
            position: 0,
        }
    }

    /// A handle that writes, without bytes yet.
    pub(crate) fn writer(name: &[u8], path: &[u8]) -> Handle
        requires name { length name.now ≤ MAX_HANDLE }
        requires path { length path.now ≤ MAX_PATH }
        ensures { result ≡ writer name.now path.now }
    {
        Handle {
            name: kept(name),
            path: kept(path),
            writes: true,
            bytes: FileBytes::new(),
            position: 0,
        }
    }

    pub(crate) fn is_named(&self, name: &[u8]) -> bool
        ensures { result ≡ is_named name.now self.now }
    {
        name == self.name.as_slice()
    }

    pub(crate) fn writes(&self) -> bool
        ensures { result ≡ self.now.writes }
    {
        self.writes
    }

    pub(crate) fn path(&self) -> &[u8]
        ensures { result.now ≡ self.now.path }
    {
        self.path.as_slice()
    }

    /// The path, in bytes of its own.
    pub(crate) fn copied_path(&self) -> FilePath
        ensures { result ≡ path_in self.now.path }
    {
        kept(self.path.as_slice())
    }

    /// What a put of the handle's bytes changed.
    pub(crate) fn put_change(&self, placed: Placed) -> Change
        ensures { result ≡ put_at self.now.path (length self.now.bytes) placed }
    {
        match placed {
            Placed::New => Change::Written(self.copied_path(), self.len()),
            Placed::Replaced => Change::Replaced(self.copied_path(), self.len()),
        }
    }

    pub(crate) fn bytes(&self) -> &[u8]
        ensures { result.now ≡ self.now.bytes }
    {
        self.bytes.as_slice()
    }

    pub(crate) fn len(&self) -> usize
        ensures value { result ≡ length self.now.bytes }
        ensures small { result < 2 ^ 63 }
    {
        self.bytes.len()
    }

    /// The bytes that the next READ gives.
    fn next_bytes(&self) -> &[u8]
        ensures value { result.now ≡ next_bytes self.now }
        ensures short { length result.now ≤ MAX_CHUNK }
        ensures within { self.now.position + length result.now ≤ length self.now.bytes }
        ensures small { length self.now.bytes < 2 ^ 63 }
    {
        let (_, rest) = self.bytes.as_slice().split_at(self.position);
        front(rest, MAX_CHUNK)
    }

    /// Moves past the next bytes.
    fn read_on(&mut self)
        ensures { self.new ≡ after_read self.old }
    {
        let count = self.next_bytes().len();
        self.position += count;
    }

    /// Answers a READ with the next bytes, and moves past them.
    pub(crate) fn read(&mut self, reply: &mut Reply)
        requires { length reply.old.items ≤ MAX_FRONT }
        ensures view { self.new ≡ after_read self.old }
        ensures text { reply.new.items
            ≡ reply.old.items ++ answer_text (read_answer (next_bytes self.old)) }
    {
        tell_bytes(reply, self.next_bytes());
        self.read_on();
    }

    /// Adds bytes.
    pub(crate) fn append(&mut self, alloc: Global, more: &[u8]) -> Result<(), AllocError>
        ensures ok { OnOk result (self.new ≡ with_bytes self.old more.now) }
        ensures err { OnErr result (self.new ≡ self.old) }
    {
        self.bytes.append(alloc, more)
    }
}

/// The bytes at the front, at most so many.
fn front(bytes: &[u8], most: usize) -> &[u8]
    ensures value { result.now ≡ take most bytes.now }
    ensures short { length result.now ≤ most }
    ensures within { length result.now ≤ length bytes.now }
{
    if bytes.len() <= most {
        bytes
    } else {
        &bytes[..most]
    }
}

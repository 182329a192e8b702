//! Bytes that wait to be written.
ghost use Rattle.std.specs.Prelude.{◌≡◌, ◌+◌, ◌-◌, ◌^◌, ◌<◌, ◌≤◌, ◌↔◌, ◌++◌, [], ℕ, List, Some, Ok, length, min, drop, IsOk, IsTrue, OnOk, OnErr, IfSome};
ghost use Rattle.std.specs.Fmt.{decimal};
ghost use Rattle.std.specs.Io.{WritesAtMost};
ghost use Rattle.std.specs.Io.KnownBytes.{Appends, Keeps, WriteAppends};
ghost use Rattle.chaosd_io.specs.Buffer.{written_of};

use crate::limits::BUFFER_LEN;
use crate::moves::move_to_front;
use crate::output::{ByWrite, WriteOnce, write_out};
use itoa::write_digits;
use std::io;
use std::io::{Error, ErrorKind, Write};
use std::marker::Model;

/// What didn't fit, or wasn't taken by the writer.
///
/// It is the fault of all that writes here, in place of an `io::Error`: that one is some 90 bytes,
/// which each call that may answer it has to fill.
#[derive(Clone, Copy)]
pub struct NotWritten;

/// Bytes that wait to be written: a writer of a fixed size, whose contents are handed on to another
/// writer in one piece. A contract sees the bytes. It allocates nothing.
///
/// An engine writes its text here, asks [`WriteBuffer::room`] before each text of bounded length,
/// and hands on what waits where there is too little, before each read and at its end.
///
/// Nothing is handed on when the value is dropped.
#[derive(Drop)]
pub struct WriteBuffer {
    /// What waits, and behind it bytes that wait no more. These are not cleared.
    bytes: [u8; BUFFER_LEN],
    /// How many bytes wait.
    waiting: usize,
}

impl Model for WriteBuffer {
    ghost use Rattle.std.specs.Prelude.{◌≤◌, ℕ, List, take};
    ghost use Rattle.chaosd_io.specs.declared.limits.TheConstants.{BUFFER_LEN};

    ghost Value = { List ℕ };

    ghost view = { λ b. take b.waiting b.bytes };

    ghost invariant = { λ b. b.waiting ≤ BUFFER_LEN };
}

impl WriteBuffer {
    /// An empty buffer.
    pub fn new() -> Self
        // A new buffer is empty.
        ensures { result ≡ [] }
    {
        WriteBuffer {
            bytes: [0; BUFFER_LEN],
            waiting: 0,
        }
    }

    /// How many bytes fit before some must be handed on.
    pub fn room(&self) -> usize
        // The room and what waits in the buffer are 16,384 bytes together.
        ensures { result + length self.now ≡ BUFFER_LEN }
    {
        BUFFER_LEN - self.waiting
    }

    /// Takes all bytes, if they fit.
    ///
    /// # Errors
    /// `NotWritten` if they don't fit; nothing is taken then.
    #[inline]
    pub fn put(&mut self, bytes: &[u8]) -> Result<(), NotWritten>
        // A text is put into the buffer exactly where all of it fits, and otherwise nothing of it.
        ensures taken { OnOk result (self.new ≡ self.old ++ bytes.now) }
        ensures fits { IsOk result ↔ (length self.old + length bytes.now ≤ BUFFER_LEN) }
        ensures refused { OnErr result (self.new ≡ self.old) }
    {
        if self.room() < bytes.len() {
            return Err(NotWritten);
        }
        self.append(bytes);
        Ok(())
    }

    /// Takes the digits of a number in decimal, of which there are `count`, if they fit.
    ///
    /// # Errors
    /// `NotWritten` if they don't fit; nothing is taken then.
    #[inline]
    pub(crate) fn put_digits(&mut self, n: u64, count: usize) -> Result<(), NotWritten>
        requires { count ≡ length (decimal n) }
        ensures { OnOk result (self.new ≡ self.old ++ decimal n) }
    {
        if self.room() < count {
            return Err(NotWritten);
        }
        let end = self.waiting + count;
        write_digits(n, &mut self.bytes, end);
        self.waiting = end;
        Ok(())
    }

    /// Takes bytes that fit.
    #[inline]
    fn append(&mut self, bytes: &[u8])
        requires { length self.old + length bytes.now ≤ BUFFER_LEN }
        ensures { self.new ≡ self.old ++ bytes.now }
    {
        let end = self.waiting + bytes.len();
        self.bytes[self.waiting..end].copy_from_slice(bytes);
        self.waiting = end;
    }

    /// Hands on all bytes, and flushes the writer that takes them. The cost is the writer's.
    ///
    /// # Errors
    /// The writer's first fault, or `WriteZero` where it takes nothing. Nothing is lost: what the
    /// writer didn't take is still here.
    pub fn hand_on<W: Write>(&mut self, writer: &mut W) -> io::Result<()>
        // No byte that waits is lost or doubled: what the writer holds, with what waits behind it,
        // stays the same.
        ensures kept { Keeps (written_of (W.contents writer.old) self.old)
            (written_of (W.contents writer.new) self.new) }
        // If it ends well, nothing waits in the buffer.
        ensures empty { OnOk result (self.new ≡ []) }
    {
        self.hand_on_by::<ByWrite, W>(writer)
    }

    /// [`WriteBuffer::hand_on`] to a writer that is written in a way of its own. An interrupted
    /// write is made again.
    ///
    /// # Errors
    /// The writer's first fault that is no interruption, or `WriteZero` where it takes nothing, or
    /// was interrupted 2^64 - 1 times in a row. Nothing is lost: what the writer didn't take is
    /// still here.
    pub fn hand_on_by<T: WriteOnce<W>, W>(&mut self, writer: &mut W) -> io::Result<()>
        // No byte that waits is lost or doubled: what the writer holds, with what waits behind it,
        // stays the same.
        ensures kept { Keeps (written_of (T.contents writer.old) self.old)
            (written_of (T.contents writer.new) self.new) }
        // If it ends well, nothing waits in the buffer.
        ensures empty { OnOk result (self.new ≡ []) }
        // If it ends well, all that the writer took was flushed.
        ensures flushed { OnOk result (IfSome (T.is_flushed writer.new) IsTrue) }
        // Interruptions whose number is known are no fault, if they are fewer than 2^64 - 1.
        ensures interrupted { IfSome (T.interruptions writer.old)
            (λ n. n < 2 ^ 64 - 1 → IsOk result) }
    {
        let (count, end) = write_out::<T, W>(writer, &self.bytes[..self.waiting]);
        self.remove_front(count);
        end?;
        T::flush_once(writer)
    }

    /// Takes that many bytes off the front. The others move there.
    fn remove_front(&mut self, count: usize)
        requires { count ≤ length self.old }
        ensures { self.new ≡ drop count self.old }
    {
        let rest = self.waiting - count;
        move_to_front(&mut self.bytes, count, rest);
        self.waiting = rest;
    }
}

impl Write for WriteBuffer {
    ghost contents = { λ b. Some b };

    /// Takes what fits.
    fn write(&mut self, bytes: &[u8]) -> io::Result<usize>
        // No more bytes are taken than there are.
        ensures bound { WritesAtMost result bytes.now }
        // The buffer takes exactly what fits.
        ensures bytes { WriteAppends (Some self.old) (Some self.new) result bytes.now }
        ensures count { result ≡ Ok (min (length bytes.now) (BUFFER_LEN - length self.old)) }
    {
        let count = bytes.len().min(self.room());
        self.append(&bytes[..count]);
        Ok(count)
    }

    /// Does nothing: only [`WriteBuffer::hand_on`] has a writer to hand on to.
    fn flush(&mut self) -> io::Result<()>
        // A flush drops nothing, and ends well.
        ensures bytes { Keeps (Some self.old) (Some self.new) }
        ensures done { IsOk result }
    {
        Ok(())
    }

    /// Takes all bytes, if they fit.
    ///
    /// # Errors
    /// `WriteZero` if they don't fit; nothing is taken then.
    #[inline]
    fn write_all(&mut self, bytes: &[u8]) -> io::Result<()>
        // A text is taken exactly where all of it fits, and otherwise nothing of it.
        ensures bytes { OnOk result (Appends (Some self.old) (Some self.new) bytes.now) }
        ensures fits { IsOk result ↔ (length self.old + length bytes.now ≤ BUFFER_LEN) }
        ensures refused { OnErr result (self.new ≡ self.old) }
    {
        match self.put(bytes) {
            Ok(()) => Ok(()),
            Err(NotWritten) => Err(Error::from(ErrorKind::WriteZero)),
        }
    }
}

//! Writing in pieces.
ghost use Rattle.std.specs.Prelude.{◌≡◌, ◌<◌, ◌≤◌, ℕ, Bool, List, Option, None, length, take, IfOk, IfSome, IsOk, IsTrue, OnOk};
ghost use Rattle.std.specs.Io.{WritesAtMost};
ghost use Rattle.std.specs.Io.KnownBytes.{Appends, Keeps, WriteAppends};
ghost use Rattle.chaosd_io.specs.Output.{GoesOn, Takes};

use std::io;
use std::io::{Error, ErrorKind, Write};

/// How a writer of the type `W` is written and flushed once. Of std's `Write` no clause says when
/// it is interrupted or what was flushed; of such a way one may.
pub trait WriteOnce<W> {
    /// The bytes that the writer has taken, where they are known.
    ghost contents: { W → Option (List ℕ) };

    /// How often writes will be interrupted from here on, where that is known.
    ghost interruptions: { W → Option ℕ };

    /// Whether all bytes that the writer has taken were flushed, where that is known.
    ghost is_flushed: { W → Option Bool };

    /// Writes once, and says how many bytes were taken. An interruption is an error of the kind
    /// `Interrupted`.
    fn write_once(writer: &mut W, bytes: &[u8]) -> io::Result<usize>
        // A write takes no more bytes than there are.
        ensures bound { WritesAtMost result bytes.now }
        // A write takes bytes from the front, or fails and takes nothing.
        ensures bytes { WriteAppends (contents writer.old) (contents writer.new) result bytes.now }
        // If the number of interruptions to come is known, each interruption is one of these, and
        // every other write takes a byte at least.
        ensures told { Takes bytes.now (interruptions writer.old) (interruptions writer.new)
            result };

    /// Flushes what the writer has taken.
    fn flush_once(writer: &mut W) -> io::Result<()>
        // A flush takes nothing.
        ensures bytes { Keeps (contents writer.old) (contents writer.new) }
        // If it ends well, all bytes that were taken are flushed, where that is known.
        ensures flushed { OnOk result (IfSome (is_flushed writer.new) IsTrue) }
        // A flush doesn't fail where the number of interruptions to come is known.
        ensures told { IfSome (interruptions writer.old) (λ _. IsOk result) };
}

/// The way of std's `Write`, which reports neither interruptions nor flushes.
pub struct ByWrite;

impl<W: Write> WriteOnce<W> for ByWrite {
    ghost contents = { W.contents };

    ghost interruptions = { λ _. None };

    ghost is_flushed = { λ _. None };

    fn write_once(writer: &mut W, bytes: &[u8]) -> io::Result<usize> {
        writer.write(bytes)
    }

    fn flush_once(writer: &mut W) -> io::Result<()> {
        writer.flush()
    }
}

/// Writes until all is written or a write fails, and says how many bytes were written.
pub(crate) fn write_out<T: WriteOnce<W>, W>(writer: &mut W, bytes: &[u8]) -> (usize, io::Result<()>)
    ensures within { result.0 ≤ length bytes.now }
    ensures all { OnOk result.1 (result.0 ≡ length bytes.now) }
    ensures written { Appends (T.contents writer.old) (T.contents writer.new)
        (take result.0 bytes.now) }
    ensures interrupted { GoesOn (T.interruptions writer.old) (T.interruptions writer.new)
        result.1 }
{
    let mut count = 0;
    while count < bytes.len() {
        match write_some::<T, W>(writer, &bytes[count..]) {
            Ok(more) => count += more,
            Err(error) => return (count, Err(error)),
        }
    }
    (count, Ok(()))
}

/// How many of these bytes, at least one, the writer took. An interrupted write is made again.
fn write_some<T: WriteOnce<W>, W>(writer: &mut W, bytes: &[u8]) -> io::Result<usize>
    requires { 0 < length bytes.now }
    ensures some { IfOk result (λ count. (1 ≤ count) × (count ≤ length bytes.now)) }
    ensures taken { WriteAppends (T.contents writer.old) (T.contents writer.new) result bytes.now }
    ensures interrupted { GoesOn (T.interruptions writer.old) (T.interruptions writer.new) result }
{
    for tries in 0..u64::MAX {
        match T::write_once(writer, bytes) {
            Ok(0) => break,
            Ok(count) => return Ok(count),
            Err(error) => {
                if error.kind() != ErrorKind::Interrupted {
                    return Err(error);
                }
            }
        }
    }
    Err(Error::from(ErrorKind::WriteZero))
}

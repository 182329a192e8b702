//! Reading in chunks.
ghost use Rattle.std.specs.Prelude.{◌≡◌, ◌≤◌, ◌<◌, ℕ, List, Option, None, length, take, IfErr, MatchResult};
ghost use Rattle.std.specs.Io.{ReadsAtMost};
ghost use Rattle.std.specs.Io.KnownBytes.{Consumes, Keeps, ReadConsumes};
ghost use Rattle.chaosd_io.specs.Input.{ReadsOn, Tells, Counts};

use crate::fault::RunFault;
use crate::limits::INTERRUPTIONS;
use std::io;
use std::io::{ErrorKind, Read};

/// How a reader of the type `R` is read once. Of std's `Read` no clause says when it is
/// interrupted; of such a way one may.
pub trait ReadOnce<R> {
    /// The bytes that reads will give from here on, where they are known.
    ghost remaining: { R → Option (List ℕ) };

    /// How often reads will be interrupted from here on before one answers, where that is known.
    ghost interruptions: { R → Option ℕ };

    /// Reads once. An interruption is an error of the kind `Interrupted`.
    fn read_once(reader: &mut R, chunk: &mut [u8]) -> io::Result<usize>
        // A read gives no more bytes than the chunk has.
        ensures bound { ReadsAtMost result chunk.new }
        // A read gives the next bytes, or fails and takes nothing.
        ensures bytes { ReadConsumes (remaining reader.old) (remaining reader.new) result
            chunk.new }
        // If the number of interruptions is known, so many reads are interrupted, and then a read
        // answers.
        ensures told { Tells (interruptions reader.old) (interruptions reader.new) result };
}

/// The way of std's `Read`, of which it isn't known when it will be interrupted.
pub struct ByRead;

impl<R: Read> ReadOnce<R> for ByRead {
    ghost remaining = { R.remaining };

    ghost interruptions = { λ _. None };

    fn read_once(reader: &mut R, chunk: &mut [u8]) -> io::Result<usize> {
        reader.read(chunk)
    }
}

/// Reads the next bytes of an input into the chunk, and says how many came: none only at the end.
/// `interruptions` counts the interruptions of a whole run.
///
/// # Errors
/// `ReadFault` where the reader fails, or where it was interrupted 2,000,000 times in all.
pub fn read_chunk<T: ReadOnce<R>, R>(
    reader: &mut R,
    chunk: &mut [u8],
    interruptions: &mut u64,
) -> Result<usize, RunFault>
    requires { 0 < length chunk.old }
    // The next bytes of the input come into the chunk, none only at its end. A failed read takes
    // nothing.
    ensures read { ReadsOn (T.remaining reader.old) (T.remaining reader.new) chunk.new result }
    // The count of a run's interruptions never falls.
    ensures counted { interruptions.old ≤ interruptions.new }
    // If it is known when the reader will be interrupted, each interruption is counted, and is a
    // fault exactly where the count comes to 2,000,000.
    ensures interrupted { Counts (T.interruptions reader.old) interruptions.old interruptions.new
        result }
{
    while *interruptions < INTERRUPTIONS {
        match T::read_once(reader, chunk) {
            Ok(count) => return Ok(count),
            Err(error) => {
                if error.kind() != ErrorKind::Interrupted {
                    break;
                }
                *interruptions += 1;
            }
        }
    }
    Err(RunFault::ReadFault)
}

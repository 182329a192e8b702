//! The lines of an input, one after another.
ghost use Rattle.std.specs.Prelude.{◌≡◌, ◌+◌, ◌<◌, ◌≤◌, ℕ, List, Option, [], length, take, drop, true, false, option_map, IfOk, OnOk};
ghost use Rattle.std.specs.Io.KnownBytes.{IsAtEnd};
ghost use Rattle.chaosd_io.specs.declared.reader.TheConstants.{HELD_LEN};
ghost use Rattle.chaosd_io.specs.declared.limits.TheConstants.{CHUNK_LEN};
ghost use Rattle.chaosd_io.specs.Input.{Counts};
ghost use Rattle.chaosd_io.specs.Reader.{left_of, Cuts, Refills, Gives, GivesNext, GivesMore, GivesLast};

use crate::fault::RunFault;
use crate::input::{ByRead, ReadOnce, read_chunk};
use crate::limits::CHUNK_LEN;
use crate::lines::cut_line;
use crate::moves::move_to_front;
use std::io::Read;
use std::marker::Model;

/// How many bytes a reader of lines holds: what is kept of a line that has begun, and a chunk
/// behind it.
const HELD_LEN: usize = 2 * CHUNK_LEN;

/// Cuts lines from the chunks that a reader gives, and lends each where it lies. Of a line that
/// began in an earlier chunk the first `KEPT` bytes are kept, which are moved to the front of the
/// next chunk. It allocates nothing.
///
/// An engine takes each line that [`LineReader::cut`] finds, hands on its output, and asks
/// [`LineReader::refill`] for more, so that somebody who types lines sees what came of each before
/// the next is asked for. At the end of the input it takes [`LineReader::last`], where there is
/// one. A contract sees what a caller may know: the present line, and what is left.
#[derive(Drop)]
pub struct LineReader<const KEPT: usize> {
    bytes: [u8; HELD_LEN],
    /// The present line.
    start: usize,
    end: usize,
    /// What came of the line whose end isn't found yet, and then what isn't looked at yet.
    begin: usize,
    from: usize,
    to: usize,
    /// How many more bytes may come.
    room: usize,
    /// How often reads were interrupted.
    interruptions: u64,
}

impl<const KEPT: usize> Model for LineReader<KEPT> {
    ghost use Rattle.std.specs.Prelude.{◌-◌, ◌≤◌, take, drop};
    ghost use Rattle.chaosd_io.specs.Reader.{LinesView};
    ghost use Rattle.chaosd_io.specs.declared.reader.TheConstants.{HELD_LEN};

    ghost Value = { LinesView };

    ghost view = { λ r. record {
      line = take (r.end - r.start) (drop r.start r.bytes);
      begun = take (r.from - r.begin) (drop r.begin r.bytes);
      waiting = take (r.to - r.from) (drop r.from r.bytes);
      room = r.room;
      interruptions = r.interruptions;
    } };

    ghost invariant = { λ r. (r.start ≤ r.end) × (r.end ≤ HELD_LEN) × (r.begin ≤ r.from)
        × (r.from ≤ r.to) × (r.to ≤ HELD_LEN) };
}

impl<const KEPT: usize> LineReader<KEPT> {
    /// A reader of an input of at most `limit` bytes.
    pub fn new(limit: usize) -> Self
        // At most so many bytes may come.
        ensures left { left_of result ≡ limit }
        // The reader has not been interrupted.
        ensures interruptions { result.interruptions ≡ 0 }
        // The reader has given no line yet, of an input of at most so many bytes.
        ensures given { (input : Option (List ℕ)) → Gives KEPT limit input input [] result }
    {
        LineReader {
            bytes: [0; HELD_LEN],
            start: 0,
            end: 0,
            begin: 0,
            from: 0,
            to: 0,
            room: limit,
            interruptions: 0,
        }
    }

    /// The present line, as much of it as is kept, or more.
    #[inline]
    pub fn line(&self) -> &[u8]
        // What is kept of the present line is lent.
        ensures { result.now ≡ self.now.line }
    {
        &self.bytes[self.start..self.end]
    }

    /// Makes the next line that ends in what came the present one, and says whether there is one.
    /// The cost is a look at each of its bytes.
    #[inline]
    pub fn cut(&mut self) -> bool
        // If it gives a line, fewer bytes wait to be cut.
        ensures less { result ≡ true → length self.new.waiting < length self.old.waiting }
        // If it gives no line, nothing waits to be cut.
        ensures none { result ≡ false → self.new.waiting ≡ [] }
        // How much more may come, and the interruptions, stay as they are.
        ensures room { self.new.room ≡ self.old.room }
        ensures interruptions { self.new.interruptions ≡ self.old.interruptions }
        // It gives the next line that ends in what came, or all such lines were given.
        ensures given { (limit : ℕ) (input rest : Option (List ℕ)) (given : List (List ℕ)) →
            Gives KEPT limit input rest given self.old →
            GivesNext KEPT limit input rest given self.new result }
    {
        self.cut_off()
    }

    /// Cuts the next line off.
    #[inline]
    fn cut_off(&mut self) -> bool
        ensures cut { Cuts self.old self.new result }
        ensures interruptions { self.new.interruptions ≡ self.old.interruptions }
    {
        match cut_line(&self.bytes[self.from..self.to]) {
            Some((piece, _)) => {
                let len = piece.len();
                self.start = self.begin;
                self.end = self.from + len;
                self.from = self.end + 1;
                self.begin = self.from;
                true
            }
            None => {
                self.from = self.to;
                false
            }
        }
    }

    /// Reads the next chunk, and says whether something came: nothing only at the end. There is no
    /// present line then. The cost is the reader's, and a copy of what is kept of a line that has
    /// begun.
    ///
    /// # Errors
    /// `ReadFault` where the reader fails, or is interrupted 2,000,000 times in all, and
    /// `InputTooLong` where more than the limit comes.
    pub fn refill<R: Read>(&mut self, reader: &mut R) -> Result<bool, RunFault>
        requires kept { KEPT ≤ CHUNK_LEN }
        requires waiting { self.old.waiting ≡ [] }
        // If something came, fewer bytes may come from here on.
        ensures less { IfOk result (λ more. more ≡ true → self.new.room < self.old.room) }
        // If it ends well, no more of the input is left than before.
        ensures left { OnOk result (left_of self.new ≤ left_of self.old) }
        // If nothing came, the input has ended, and nothing is left to cut.
        ensures end { IfOk result
            (λ more. more ≡ false → (self.new.waiting ≡ []) × IsAtEnd (R.remaining reader.new)) }
        // More comes, or the input ends. If the reader fails or more than the limit comes, just the
        // lines were given that ended in what came, or within the limit.
        ensures given { (limit : ℕ) (input : Option (List ℕ)) (given : List (List ℕ)) →
            Gives KEPT limit input (R.remaining reader.old) given self.old →
            GivesMore KEPT limit input (R.remaining reader.new) given self.new result }
        // No interruption is forgotten.
        ensures counted { self.old.interruptions ≤ self.new.interruptions }
    {
        self.refill_by::<ByRead, R>(reader)
    }

    /// [`LineReader::refill`] from a reader that is read in a way of its own, of which it may be
    /// known when it will be interrupted.
    ///
    /// # Errors
    /// As [`LineReader::refill`].
    pub fn refill_by<T: ReadOnce<R>, R>(&mut self, reader: &mut R) -> Result<bool, RunFault>
        requires kept { KEPT ≤ CHUNK_LEN }
        requires waiting { self.old.waiting ≡ [] }
        // If something came, fewer bytes may come from here on.
        ensures less { IfOk result (λ more. more ≡ true → self.new.room < self.old.room) }
        // If it ends well, no more of the input is left than before.
        ensures left { OnOk result (left_of self.new ≤ left_of self.old) }
        // If nothing came, the input has ended, and nothing is left to cut.
        ensures end { IfOk result
            (λ more. more ≡ false → (self.new.waiting ≡ []) × IsAtEnd (T.remaining reader.new)) }
        // More comes, or the input ends. If the reader fails or more than the limit comes, just the
        // lines were given that ended in what came, or within the limit.
        ensures given { (limit : ℕ) (input : Option (List ℕ)) (given : List (List ℕ)) →
            Gives KEPT limit input (T.remaining reader.old) given self.old →
            GivesMore KEPT limit input (T.remaining reader.new) given self.new result }
        // No interruption is forgotten.
        ensures counted { self.old.interruptions ≤ self.new.interruptions }
        // Interruptions that are known are all counted, and are a `ReadFault` exactly where the
        // reader's count comes to 2,000,000.
        ensures interrupted { Counts (T.interruptions reader.old) self.old.interruptions
            self.new.interruptions result }
    {
        self.read_on::<T, R>(reader)
    }

    /// Reads as much as a chunk holds and may come, or one byte where nothing more may.
    fn read_on<T: ReadOnce<R>, R>(&mut self, reader: &mut R) -> Result<bool, RunFault>
        requires kept { KEPT ≤ CHUNK_LEN }
        requires waiting { self.old.waiting ≡ [] }
        ensures read { Refills KEPT (T.remaining reader.old) (T.remaining reader.new) self.old
            self.new result }
        ensures counted { self.old.interruptions ≤ self.new.interruptions }
        ensures interrupted { Counts (T.interruptions reader.old) self.old.interruptions
            self.new.interruptions result }
    {
        let len = (self.from - self.begin).min(KEPT);
        move_to_front(&mut self.bytes, self.begin, len);
        self.start = 0;
        self.end = 0;
        self.begin = 0;
        self.from = len;
        self.to = len;
        let most = self.room.min(CHUNK_LEN).max(1);
        let mut interruptions = self.interruptions;
        let read = read_chunk::<T, R>(reader, &mut self.bytes[len..len + most], &mut interruptions);
        self.interruptions = interruptions;
        let count = read?;
        if count > self.room {
            return Err(RunFault::InputTooLong);
        }
        self.to = len + count;
        self.room -= count;
        Ok(count > 0)
    }

    /// What stands after the last end of a line, if that isn't empty: the last line of an input
    /// that has ended.
    pub fn last(&self) -> Option<&[u8]>
        requires kept { 0 < KEPT }
        requires waiting { self.now.waiting ≡ [] }
        // At the end the line without an end is given, if there is one. Then the lines that were
        // given are all lines.
        ensures { (limit : ℕ) (input rest : Option (List ℕ)) (given : List (List ℕ)) →
            Gives KEPT limit input rest given self.now → IsAtEnd rest →
            GivesLast KEPT limit input rest given (option_map (λ line. line.now) result) }
    {
        if self.begin == self.from {
            None
        } else {
            Some(&self.bytes[self.begin..self.from])
        }
    }
}

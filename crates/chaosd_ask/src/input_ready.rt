//! How a reader is asked whether it has something to give, and is shown what was noted of replies.
ghost use Rattle.std.specs.Prelude.{◌≡◌};

use crate::notes::ReplyNotes;
use std::io::Read;

/// How a reader of the type `R` is asked whether it has something to give, and is shown what was
/// noted of the replies. std's `Read` can't be asked.
pub trait InputReady<R: Read> {
    /// Whether a read would be answered at once, by bytes, the end or a fault. Otherwise the client
    /// of a script takes a turn, which may wait a moment, and asks again.
    fn is_ready(reader: &mut R) -> bool
        // The question takes nothing of what the reader has to give.
        ensures { R.remaining reader.new ≡ R.remaining reader.old };

    /// Shows the reader what was noted of the replies so far, before each read. A reader may end a
    /// script by what it sees.
    fn show(reader: &mut R, notes: &ReplyNotes)
        // The call takes nothing of what the reader has to give.
        ensures { R.remaining reader.new ≡ R.remaining reader.old };
}

/// The way of readers that aren't asked: a read may wait, and no turns are taken while it does.
pub(crate) struct AlwaysReady;

impl<R: Read> InputReady<R> for AlwaysReady {
    fn is_ready(_reader: &mut R) -> bool {
        true
    }

    fn show(_reader: &mut R, _notes: &ReplyNotes) {}
}

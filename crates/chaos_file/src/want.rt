//! Out-of-memory replies.
ghost use Rattle.std.specs.Prelude.{◌≡◌};
ghost use Rattle.chaos_file.specs.Want.{is_want};

use crate::error::FileError;
use crate::parse::cut;

/// Whether a reply tells of being out of memory. No other reply to a command reads so:
/// [`law_want`](crate::law_want).
pub fn is_want(reply: &[u8]) -> bool
    // Behind its two names stands the error MEM, and nothing else.
    ensures { result ≡ is_want reply.now }
{
    let Some((_, after)) = cut(reply, b' ') else {
        return false;
    };
    let Some((_, text)) = cut(after, b' ') else {
        return false;
    };
    text == FileError::NoMemory.text()
}

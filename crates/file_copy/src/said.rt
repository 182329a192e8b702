//! What a reply says to the command that it should answer.
ghost use Rattle.std.specs.Prelude.{◌≡◌, ◌≤◌, ◌<◌, ◌++◌, length, option_map};
ghost use Rattle.std.specs.Fmt.{decimal};
ghost use Rattle.chaos_file.specs.declared.limits.TheConstants.{MAX_HANDLE};
ghost use Rattle.chaos_file.specs.Answer.{reply_front};
ghost use Rattle.chaos_file.specs.Reply.{reading_of, said_text, said_view, SaidFits};
ghost use Rattle.file_copy.specs.Said.{said_to};

use chaos_file::{Reply, ReplyParts, Said, read_reply, write_reply};
use itoa::Buffer;

/// What a reply says, where it is one to the command with this number and handle.
pub fn said_to<'a>(reply: &'a Reply, tid: u32, handle: &[u8]) -> Option<Said<'a>>
    ensures { option_map said_view result
        ≡ said_to (decimal tid) handle.now (reading_of reply.now.items) }
{
    let parts = read_reply(reply.as_slice())?;
    let mut digits = Buffer::new();
    if parts.tid == digits.format(tid as usize).as_bytes() && parts.handle == handle {
        Some(parts.said)
    } else {
        None
    }
}

/// Writes the reply that says this to the command with this number and handle, in place of what was
/// there.
pub fn write_wanted(wanted: &mut Reply, tid: u32, handle: &[u8], said: Said<'_>)
    requires tid { tid < 100000000 }
    requires handle { length handle.now ≤ MAX_HANDLE }
    requires said { SaidFits (said_view said) }
    ensures { wanted.new.items
        ≡ reply_front (decimal tid) handle.now ++ said_text (said_view said.entry) }
{
    let mut digits = Buffer::new();
    let tid = digits.format(tid as usize).as_bytes();
    write_reply(ReplyParts { tid, handle, said }, wanted);
}

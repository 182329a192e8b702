//! Writing a reply, part after part.
ghost use Rattle.std.specs.Prelude.{◌≡◌, ◌≤◌, ◌+◌, ◌∷◌, ◌++◌, [], length, OnErr};
ghost use Rattle.std.specs.Fmt.{decimal};
ghost use Rattle.chaos_file.specs.Answer.{reply_front, answer_text, read_answer};
ghost use Rattle.chaos_file.specs.Outcome.{whole_reply};

use crate::error::FileError;
use crate::limits::{MAX_CHUNK, MAX_FRONT, MAX_HANDLE, MAX_REPLY, MAX_TID};
use arrayvec::ArrayVec;
use itoa::Buffer;

/// A reply: tid, space, handle, space, and an answer or an error. It is as long as a packet's data
/// at most.
pub type Reply = ArrayVec<u8, MAX_REPLY>;

/// Copies few bytes into an array of their own.
pub(crate) fn kept<const N: usize>(bytes: &[u8]) -> ArrayVec<u8, N>
    requires { length bytes.now ≤ N }
    ensures { result.items ≡ bytes.now }
{
    let mut kept = ArrayVec::new();
    let _ = kept.try_extend_from_slice(bytes);
    kept
}

/// Adds bytes to a reply.
pub(crate) fn put(reply: &mut Reply, bytes: &[u8])
    requires { length reply.old.items + length bytes.now ≤ MAX_REPLY }
    ensures { reply.new.items ≡ reply.old.items ++ bytes.now }
{
    let _ = reply.try_extend_from_slice(bytes);
}

/// Adds a number to a reply, decimal and without leading zeros.
fn put_number(reply: &mut Reply, n: usize)
    requires { length reply.old.items + length (decimal n) ≤ MAX_REPLY }
    ensures { reply.new.items ≡ reply.old.items ++ decimal n }
{
    let mut digits = Buffer::new();
    put(reply, digits.format(n).as_bytes());
}

/// Writes the front of a reply: the command's two names.
pub(crate) fn begin(reply: &mut Reply, tid: &[u8], handle: &[u8])
    requires empty { reply.old.items ≡ [] }
    requires tid { length tid.now ≤ MAX_TID }
    requires handle { length handle.now ≤ MAX_HANDLE }
    ensures value { reply.new.items ≡ reply_front tid.now handle.now }
    ensures room { length reply.new.items ≤ MAX_FRONT }
{
    put(reply, tid);
    put(reply, b" ");
    put(reply, handle);
    put(reply, b" ");
}

/// Writes the end of a reply: the error, where there is one.
pub(crate) fn end(reply: &mut Reply, done: Result<(), FileError>)
    requires { OnErr done (length reply.old.items ≤ MAX_FRONT) }
    ensures { reply.new.items ≡ whole_reply done reply.old.items }
{
    if let Err(error) = done {
        put(reply, error.text());
    }
}

/// Adds a word, and bytes behind it.
#[tactic(auto, using(std::proofs::Common::append_assoc))]
pub(crate) fn tell(reply: &mut Reply, word: &[u8], bytes: &[u8])
    requires room { length reply.old.items ≤ MAX_FRONT }
    requires word { length word.now ≤ 11 }
    requires bytes { length bytes.now ≤ MAX_CHUNK }
    ensures { reply.new.items ≡ reply.old.items ++ (word.now ++ bytes.now) }
{
    put(reply, word);
    put(reply, bytes);
}

/// Adds a word, and a number behind it.
#[tactic(auto, using(std::proofs::Common::append_assoc))]
pub(crate) fn tell_count(reply: &mut Reply, word: &[u8], n: usize)
    requires room { length reply.old.items ≤ MAX_FRONT }
    requires word { length word.now ≤ 8 }
    ensures { reply.new.items ≡ reply.old.items ++ (word.now ++ decimal n) }
{
    put(reply, word);
    put_number(reply, n);
}

/// Adds the answer to a READ, which copies the file's bytes once.
pub(crate) fn tell_bytes(reply: &mut Reply, bytes: &[u8])
    requires room { length reply.old.items ≤ MAX_FRONT }
    requires bytes { length bytes.now ≤ MAX_CHUNK }
    ensures { reply.new.items ≡ reply.old.items ++ answer_text (read_answer bytes.now) }
{
    if bytes.is_empty() {
        put(reply, b"EOF");
    } else {
        tell(reply, b"READ\x8d", bytes);
    }
}

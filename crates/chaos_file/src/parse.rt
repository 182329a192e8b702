//! Reading a command, in place.
ghost use Rattle.std.specs.Prelude.{◌≡◌, ◌<◌, ◌≤◌, ◌==◌, length, option_map, position, IfSome};
ghost use Rattle.chaos_file.specs.Grammar.{head_of, cut, word_of, word_end, ends_word, parse_of_tail, parse_of};
ghost use Rattle.chaos_file.specs.Views.{front_view, parsed_view, NamesFit, ParsedFits};

use crate::command::{Parsed, Word};
use crate::form::{Form, form_of};
use crate::limits::{MAX_HANDLE, MAX_TID, NL};
use crate::names::is_name;

/// The two names that a command begins with, and what follows them.
#[derive(Clone, Copy)]
pub(crate) struct Front<'a> {
    tid: &'a [u8],
    handle: &'a [u8],
    tail: &'a [u8],
}

fn first_place(bytes: &[u8], stop: u8) -> Option<usize>
    ensures value { result ≡ position (λ b. b == stop) bytes.now }
    ensures within { IfSome result (λ at. at < length bytes.now) }
{
    bytes.iter().position(|b| *b == stop)
}

/// The bytes before the first `stop`, and those after it.
pub(crate) fn cut(bytes: &[u8], stop: u8) -> Option<(&[u8], &[u8])>
    ensures { option_map (λ p. (p.0.now, p.1.now)) result ≡ cut stop bytes.now }
{
    let at = first_place(bytes, stop)?;
    Some((&bytes[..at], &bytes[at + 1..]))
}

/// The names of a command, where a space ends each.
fn front_of(bytes: &[u8]) -> Option<Front<'_>>
    ensures value { option_map front_view result ≡ head_of bytes.now }
    ensures fits { IfSome result (λ f. NamesFit f.tid.now f.handle.now) }
{
    let (tid, after) = cut(bytes, b' ')?;
    let (handle, tail) = cut(after, b' ')?;
    if is_name(1, MAX_TID, tid) && is_name(0, MAX_HANDLE, handle) {
        Some(Front { tid, handle, tail })
    } else {
        None
    }
}

/// The word that these bytes spell.
pub(crate) fn word_of(bytes: &[u8]) -> Option<Word>
    ensures { result ≡ word_of bytes.now }
{
    if bytes == b"LOGIN".as_slice() {
        Some(Word::Login)
    } else if bytes == b"OPEN".as_slice() {
        Some(Word::Open)
    } else if bytes == b"READ".as_slice() {
        Some(Word::Read)
    } else if bytes == b"WRITE".as_slice() {
        Some(Word::Write)
    } else if bytes == b"CLOSE".as_slice() {
        Some(Word::Close)
    } else if bytes == b"RENAME".as_slice() {
        Some(Word::Rename)
    } else if bytes == b"DELETE".as_slice() {
        Some(Word::Delete)
    } else {
        None
    }
}

fn ends_word(b: u8) -> bool
    ensures { result ≡ ends_word b }
{
    b == b' ' || b == NL
}

fn first_end(tail: &[u8]) -> Option<usize>
    ensures value { result ≡ position ends_word tail.now }
    ensures within { IfSome result (λ at. at < length tail.now) }
{
    tail.iter().position(|b| ends_word(*b))
}

/// Where the word that the bytes begin with ends.
pub(crate) fn word_end(tail: &[u8]) -> usize
    ensures value { result ≡ word_end tail.now }
    ensures within { result ≤ length tail.now }
{
    match first_end(tail) {
        Some(end) => end,
        None => tail.len(),
    }
}

/// What the bytes behind the two names say, where their word ends at `end`.
fn parsed_tail<'a>(tid: &'a [u8], handle: &'a [u8], tail: &'a [u8], end: usize) -> Parsed<'a>
    requires names { NamesFit tid.now handle.now }
    requires within { end ≤ length tail.now }
    ensures value { parsed_view result ≡ parse_of_tail tid.now handle.now tail.now end }
    ensures fits { ParsedFits (parsed_view result) }
{
    if end == 0 {
        return Parsed::NoWord(tid, handle);
    }
    let Some(word) = word_of(&tail[..end]) else {
        return Parsed::Unknown(tid, handle);
    };
    match form_of(word, handle.is_empty(), &tail[end..]) {
        Form::Malformed => Parsed::BadForm(tid, handle, word),
        Form::IllegalPath => Parsed::BadPath(tid, handle, word),
        Form::Formed(command) => Parsed::Good(tid, handle, command),
    }
}

/// What a command's bytes say. It takes no memory, and looks at each byte a few times at most; the
/// parts are lent from `bytes`.
pub fn parse_command(bytes: &[u8]) -> Parsed<'_>
    // The bytes are read by the grammar of the language.
    ensures value { parsed_view result ≡ parse_of bytes.now }
    // The parts are no longer than they may be.
    ensures fits { ParsedFits (parsed_view result) }
{
    match front_of(bytes) {
        None => Parsed::BadHead,
        Some(Front { tid, handle, tail }) => parsed_tail(tid, handle, tail, word_end(tail)),
    }
}

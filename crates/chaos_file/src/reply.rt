//! Reading a reply, in place.
ghost use Rattle.std.specs.Prelude.{◌≡◌, ◌≤◌, ◌∷◌, [], length, option_map};
ghost use Rattle.chaos_file.specs.Grammar.{after_front, space};
ghost use Rattle.chaos_file.specs.Reply.{count_of, count_behind, login_said, given_in, given_said, opened_in, reading_of, refused_in, reply_view, said_behind, said_of_text, said_view};

use crate::command::Word;
use crate::form::after_front;
use crate::limits::{MAX_CHUNK, MAX_FILE, MAX_HANDLE, MAX_TID, NL};
use crate::names::{is_name, is_user};
use crate::parse::{cut, word_end, word_of};
use itoa::Buffer;
use std::str;

/// What a reply says behind its two names. Its parts are lent from the reply's bytes.
#[derive(Clone, Copy, Debug, PartialEq, Eq)]
pub enum Said<'a> {
    /// `LOGIN`: the user's name.
    LoggedIn(&'a [u8]),
    /// `OPEN`: the bytes of the file, at most 1,048,576.
    Opened(usize),
    /// `READ`: the next bytes of the file, at most 448.
    Given(&'a [u8]),
    /// `EOF`: no bytes are left.
    AtEnd,
    /// `WRITE`: the bytes of the handle so far, at most 1,048,576.
    Wrote(usize),
    /// `CLOSE`: the bytes of the handle, at most 1,048,576.
    Closed(usize),
    /// `RENAME`: the file was moved.
    Renamed,
    /// `DELETE`: the file was taken out of the store.
    Deleted,
    /// `ERROR`: the code and the text, whatever they are.
    Refused(&'a [u8]),
}

impl<'a> Said<'a> {
    /// The length of the file that was opened.
    pub fn opened(self) -> Option<usize>
        // An answer to OPEN has one, and no other does.
        ensures { result ≡ opened_in (said_view self.entry) }
    {
        match self {
            Said::Opened(count) => Some(count),
            _ => None,
        }
    }

    /// The bytes of the file that were read.
    pub fn given(self) -> Option<&'a [u8]>
        // An answer to READ has them, and no other does, nor EOF.
        ensures { option_map (λ bytes. bytes.now) result ≡ given_in (said_view self.entry) }
    {
        match self {
            Said::Given(bytes) => Some(bytes),
            _ => None,
        }
    }

    /// The code and the text of an error.
    pub fn refused(self) -> Option<&'a [u8]>
        // An error has them, and no answer does.
        ensures { option_map (λ text. text.now) result ≡ refused_in (said_view self.entry) }
    {
        match self {
            Said::Refused(text) => Some(text),
            _ => None,
        }
    }
}

/// The parts of a reply, lent from its bytes. The names are those of the command, and both are
/// empty where the server couldn't read them.
#[derive(Clone, Copy, Debug, PartialEq, Eq)]
pub struct ReplyParts<'a> {
    /// The command's tid, of at most 8 letters and digits.
    pub tid: &'a [u8],
    /// The command's handle, of at most 8 letters and digits.
    pub handle: &'a [u8],
    /// What stands behind them.
    pub said: Said<'a>,
}

/// The number that decimal digits write, without leading zeros, where a file may have so many
/// bytes.
fn count_of(digits: &[u8]) -> Option<usize>
    ensures { result ≡ count_of digits.now }
{
    let Ok(text) = str::from_utf8(digits) else {
        return None;
    };
    let Ok(count) = text.parse::<usize>() else {
        return None;
    };
    let mut buffer = Buffer::new();
    if count <= MAX_FILE && buffer.format(count).as_bytes() == digits {
        Some(count)
    } else {
        None
    }
}

/// The number that stands behind a word and a space.
fn count_behind(rest: &[u8]) -> Option<usize>
    ensures { result ≡ count_behind (after_front (space ∷ []) rest.now) }
{
    match after_front(b" ", rest) {
        Some(digits) => count_of(digits),
        None => None,
    }
}

fn login_said(rest: &[u8]) -> Option<Said<'_>>
    ensures { option_map said_view result ≡ login_said (after_front (space ∷ []) rest.now) }
{
    match after_front(b" ", rest) {
        Some(name) if is_user(name) => Some(Said::LoggedIn(name)),
        _ => None,
    }
}

fn given_said(rest: &[u8]) -> Option<Said<'_>>
    ensures { option_map said_view result ≡ given_said (after_front (NL ∷ []) rest.now) }
{
    match after_front(&[NL], rest) {
        Some(bytes) if bytes.len() <= MAX_CHUNK => Some(Said::Given(bytes)),
        _ => None,
    }
}

/// What a reply with this word says.
fn said_behind(word: Word, rest: &[u8]) -> Option<Said<'_>>
    ensures { option_map said_view result ≡ said_behind word rest.now }
{
    match word {
        Word::Login => login_said(rest),
        Word::Open => Some(Said::Opened(count_behind(rest)?)),
        Word::Read => given_said(rest),
        Word::Write => Some(Said::Wrote(count_behind(rest)?)),
        Word::Close => Some(Said::Closed(count_behind(rest)?)),
        Word::Rename if rest.is_empty() => Some(Said::Renamed),
        Word::Delete if rest.is_empty() => Some(Said::Deleted),
        _ => None,
    }
}

/// What the bytes behind the two names say, where their word ends at `end`.
fn said_of_text(text: &[u8], end: usize) -> Option<Said<'_>>
    requires { end ≤ length text.now }
    ensures { option_map said_view result ≡ said_of_text text.now end }
{
    let rest = &text[end..];
    if &text[..end] == b"ERROR".as_slice() {
        return Some(Said::Refused(after_front(b" ", rest)?));
    }
    if &text[..end] == b"EOF".as_slice() {
        return if rest.is_empty() {
            Some(Said::AtEnd)
        } else {
            None
        };
    }
    said_behind(word_of(&text[..end])?, rest)
}

/// What a reply's bytes say, or None where they are no reply of FILE. It takes no memory, and looks
/// at each byte a few times at most; the parts are lent from `bytes`.
pub fn read_reply(bytes: &[u8]) -> Option<ReplyParts<'_>>
    // The parts are those of the definition's reading.
    ensures { option_map reply_view result ≡ reading_of bytes.now }
{
    let (tid, after) = cut(bytes, b' ')?;
    let (handle, text) = cut(after, b' ')?;
    if is_name(0, MAX_TID, tid) && is_name(0, MAX_HANDLE, handle) {
        let said = said_of_text(text, word_end(text))?;
        Some(ReplyParts { tid, handle, said })
    } else {
        None
    }
}

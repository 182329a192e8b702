//! Texts of this side and of the other.
ghost use Rattle.std.specs.Prelude.{◌≡◌, ◌≤◌, length, IfOk, OnOk};
ghost use Rattle.file_transfer.specs.Copied.{bytes_in};

use chaos_file::NL;
use file_copy::Charset;

/// A byte of a text that would not come back, and where the first such stands.
#[derive(Clone, Copy, Debug, PartialEq, Eq)]
pub struct Lost {
    /// The byte.
    pub byte: u8,
    /// Its line, from 1 on.
    pub line: usize,
    /// Its place in the line, from 1 on.
    pub place: usize,
}

impl Lost {
    /// The first such byte of a text.
    fn of(byte: u8, text: &[u8]) -> Self {
        let mut line: usize = 1;
        let mut place: usize = 1;
        for b in text {
            if *b == byte {
                break;
            }
            if *b == b'\n' || *b == NL {
                line = line.saturating_add(1);
                place = 1;
            } else {
                place = place.saturating_add(1);
            }
        }
        Lost { byte, line, place }
    }
}

/// Whether a line of a text ends in CR LF.
pub(crate) fn has_returns(text: &[u8]) -> bool {
    let mut last = 0;
    for b in text {
        if last == b'\r' && *b == b'\n' {
            return true;
        }
        last = *b;
    }
    false
}

/// Puts a file's bytes into this character set, where they are a text. The error is the first byte
/// that would not come back.
fn put_in(set: Charset, is_text: bool, bytes: &mut [u8]) -> Result<(), u8>
    ensures { OnOk result (bytes.new ≡ bytes_in set is_text bytes.old) }
{
    if is_text {
        set.translate(bytes)
    } else {
        Ok(())
    }
}

/// A file's bytes in this character set, where they are a text.
///
/// # Errors
/// The first byte that would not come back.
pub(crate) fn in_set(set: Charset, is_text: bool, bytes: Vec<u8>) -> Result<Vec<u8>, Lost>
    ensures value { IfOk result (λ v. v.items ≡ bytes_in set is_text bytes.items) }
    ensures long { IfOk result (λ v. length v.items ≡ length bytes.items) }
{
    let mut bytes = bytes;
    match put_in(set, is_text, bytes.as_mut_slice()) {
        Ok(()) => Ok(bytes),
        Err(byte) => Err(Lost::of(byte, bytes.as_slice())),
    }
}

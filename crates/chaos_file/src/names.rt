//! Which names and paths commands may have.
ghost use Rattle.std.specs.Prelude.{◌≡◌, ◌≤◌, true, length};
ghost use Rattle.std.specs.List.{list_all};
ghost use Rattle.std.specs.Char.{is_ascii_alphanumeric};
ghost use Rattle.chaos_file.specs.Names.{is_name, is_path_byte, begins_with_dot, is_path};

use crate::limits::{MAX_NAME, MAX_PATH};
use arrayvec::ArrayVec;

/// A path, in bytes of its own.
pub type FilePath = ArrayVec<u8, MAX_PATH>;

fn all_alphanumeric(bytes: &[u8]) -> bool
    ensures { result ≡ list_all is_ascii_alphanumeric bytes.now }
{
    bytes.iter().all(|b| b.is_ascii_alphanumeric())
}

/// Whether the bytes are a name: from `least` to `most` ASCII letters and digits.
pub(crate) fn is_name(least: usize, most: usize, bytes: &[u8]) -> bool
    ensures value { result ≡ is_name least most bytes.now }
    ensures fits { result ≡ true → length bytes.now ≤ most }
{
    least <= bytes.len() && bytes.len() <= most && all_alphanumeric(bytes)
}

/// Whether the bytes are a user's name.
pub fn is_user(bytes: &[u8]) -> bool
    // They are from 1 to 16 letters and digits.
    ensures value { result ≡ is_name 1 MAX_NAME bytes.now }
    // So they are no more than the longest name.
    ensures fits { result ≡ true → length bytes.now ≤ MAX_NAME }
{
    is_name(1, MAX_NAME, bytes)
}

/// Whether a byte may stand in a path.
pub fn is_path_byte(b: u8) -> bool
    // The byte is a letter, a digit, a dot, a hyphen or an underscore.
    ensures { result ≡ is_path_byte b }
{
    b.is_ascii_alphanumeric() || b == b'.' || b == b'-' || b == b'_'
}

fn all_path_bytes(bytes: &[u8]) -> bool
    ensures { result ≡ list_all is_path_byte bytes.now }
{
    bytes.iter().all(|b| is_path_byte(*b))
}

fn begins_with_dot(bytes: &[u8]) -> bool
    ensures { result ≡ begins_with_dot bytes.now }
{
    match bytes {
        [first, ..] => *first == b'.',
        [] => false,
    }
}

/// Whether the bytes are a legal path.
pub fn is_path(bytes: &[u8]) -> bool
    // They are from 1 to 64 bytes of a path, of which the first is no dot.
    ensures value { result ≡ is_path bytes.now }
    // So they are no more than the longest path.
    ensures fits { result ≡ true → length bytes.now ≤ MAX_PATH }
{
    1 <= bytes.len() && bytes.len() <= MAX_PATH && all_path_bytes(bytes) && !begins_with_dot(bytes)
}

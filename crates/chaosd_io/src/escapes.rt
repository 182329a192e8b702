//! Bytes, written as text in the lines of scripts: `^` is byte 8D, `\` and two lower-case
//! hexadecimal digits is that byte, and every other byte from 20 to 7E is itself.
ghost use Rattle.std.specs.Prelude.{◌≡◌, ◌≤◌, ◌<◌, ◌++◌, length, None, option_map, IfSome, OnOk};
ghost use Rattle.std.specs.List.{flat_map, list_all};
ghost use Rattle.chaosd_io.specs.Escapes.{plain_byte, low_hex, escaped_byte, first_byte, bytes_of, with_front, within_packet, ReadsFront, data_of, low_hex_digit, is_escaped, is_plain, shown_byte, IsReadBack};

use crate::buffer::{NotWritten, WriteBuffer};
use arrayvec::ArrayVec;
use chaos_packet::MAX_DATA;

/// The bytes that a text stands for, at most as many as a packet has.
pub type Data = ArrayVec<u8, MAX_DATA>;

/// What stands for byte 8D, the end of a line in the Lisp machine's characters.
const RETURN: u8 = 0x8D;

/// The byte that one of a text stands for.
fn plain_byte(b: u8) -> Option<u8>
    ensures { result ≡ plain_byte b }
{
    match b {
        b'^' => Some(RETURN),
        b'\\' => None,
        0x20..=0x7E => Some(b),
        _ => None,
    }
}

/// The value of a lower-case hexadecimal digit.
fn low_hex(b: u8) -> Option<u8>
    ensures value { result ≡ low_hex b }
    ensures within { IfSome result (λ digit. digit ≤ 15) }
{
    match b {
        b'0'..=b'9' => Some(b - b'0'),
        b'a'..=b'f' => Some(b - b'a' + 10),
        _ => None,
    }
}

/// The byte of two hexadecimal digits.
fn escaped_byte(high: u8, low: u8) -> Option<u8>
    ensures { result ≡ escaped_byte high low }
{
    Some(16 * low_hex(high)? + low_hex(low)?)
}

/// The first byte that a text stands for, and how many of its own bytes stand for it.
pub(crate) fn first_byte(text: &[u8]) -> Option<(u8, usize)>
    requires { 0 < length text.now }
    ensures value { result ≡ first_byte text.now }
    ensures within { IfSome result (λ p. (0 < p.1) × (p.1 ≤ length text.now)) }
{
    if text[0] != b'\\' {
        return Some((plain_byte(text[0])?, 1));
    }
    if text.len() < 3 {
        return None;
    }
    Some((escaped_byte(text[1], text[2])?, 3))
}

/// How many bytes are looked at together.
const PIECE: usize = 32;

/// Whether a byte is shown otherwise than by itself.
fn is_escaped(b: u8) -> bool
    ensures { result ≡ is_escaped b }
{
    b == b'^' || b == b'\\' || b < 0x20 || b > 0x7E
}

/// Whether each byte stands for itself, and is shown by itself. There is no way out between two
/// bytes, so that many are looked at at once.
fn are_plain(bytes: &[u8]) -> bool
    ensures { result ≡ list_all is_plain bytes.now }
{
    let mut plain = true;
    for b in bytes {
        plain = plain & !is_escaped(*b);
    }
    plain
}

/// Reads what the first byte of a text stands for, and answers how many bytes of the text stand for
/// it.
fn read_byte(text: &[u8], bytes: &mut Data) -> Option<usize>
    requires some { 0 < length text.now }
    requires room { length bytes.old.items ≤ MAX_DATA }
    ensures read { IfSome result (λ n. ReadsFront bytes.old.items text.now bytes.new.items n) }
    ensures room { length bytes.new.items ≤ MAX_DATA }
    ensures none { result ≡ None →
        within_packet (with_front bytes.old.items (bytes_of text.now)) ≡ None }
{
    let (byte, count) = first_byte(text)?;
    if bytes.is_full() {
        return None;
    }
    bytes.push(byte);
    Some(count)
}

/// Reads what the front of a text stands for, a whole piece at a time where that stands for itself.
fn read_some(text: &[u8], bytes: &mut Data) -> Option<usize>
    requires some { 0 < length text.now }
    requires room { length bytes.old.items ≤ MAX_DATA }
    ensures read { IfSome result (λ n. ReadsFront bytes.old.items text.now bytes.new.items n) }
    ensures room { length bytes.new.items ≤ MAX_DATA }
    ensures none { result ≡ None →
        within_packet (with_front bytes.old.items (bytes_of text.now)) ≡ None }
{
    let count = text.len().min(PIECE);
    let piece = &text[..count];
    if !are_plain(piece) {
        return read_byte(text, bytes);
    }
    match bytes.try_extend_from_slice(piece) {
        Ok(()) => Some(count),
        Err(_) => None,
    }
}

/// Reads the bytes that a text stands for into a place of the caller's, if they are no more than
/// the 488 that a packet has. The result is `None` for a text with a byte that isn't from 20 to 7E,
/// or with a `\` without its two lower-case hexadecimal digits.
///
/// The cost is a look at each byte, at 32 together where they stand for themselves, and zeros over
/// the bytes that lay there. No memory is taken.
pub fn read_data(text: &[u8], bytes: &mut Data) -> Option<()>
    // The bytes that a text of a script stands for, at most 488, are left in the caller's place
    // exactly where it is such a text.
    ensures { option_map (λ none. bytes.new.items) result ≡ data_of text.now }
{
    bytes.clear();
    let mut i = 0;
    while i < text.len() {
        i += read_some(&text[i..], bytes)?;
    }
    Some(())
}

/// The bytes that a text stands for, lent: from the text itself where each of its bytes stands for
/// itself, and otherwise from the caller's place, as [`read_data`] leaves them there.
///
/// The cost is a look at each byte of a text that is lent, and otherwise that of [`read_data`] too.
#[inline]
pub fn data_of<'a>(text: &'a [u8], place: &'a mut Data) -> Option<&'a [u8]>
    // The bytes that a text of a script stands for, at most 488, are lent exactly where it is such
    // a text.
    ensures { option_map (λ bytes. bytes.now) result ≡ data_of text.now }
{
    if text.len() <= MAX_DATA && are_plain(text) {
        return Some(text);
    }
    read_data(text, place)?;
    Some(place.as_slice())
}

/// A lower-case hexadecimal digit.
fn low_hex_digit(digit: u8) -> u8
    requires { digit < 16 }
    ensures { result ≡ low_hex_digit digit }
{
    if digit < 10 {
        b'0' + digit
    } else {
        b'a' + (digit - 10)
    }
}

/// Writes a byte as text.
fn put_byte(out: &mut WriteBuffer, b: u8) -> Result<(), NotWritten>
    ensures { OnOk result (out.new ≡ out.old ++ shown_byte b) }
{
    if b == RETURN {
        return out.put(b"^");
    }
    if is_escaped(b) {
        return out.put(&[b'\\', low_hex_digit(b / 16), low_hex_digit(b % 16)]);
    }
    out.put(&[b])
}

/// Writes bytes as text, each by itself.
fn put_bytes(out: &mut WriteBuffer, bytes: &[u8]) -> Result<(), NotWritten>
    ensures { OnOk result (out.new ≡ out.old ++ flat_map shown_byte bytes.now) }
{
    for b in bytes {
        put_byte(out, *b)?;
    }
    Ok(())
}

/// Writes a piece as text, whole where each byte is shown by itself.
fn put_piece(out: &mut WriteBuffer, piece: &[u8]) -> Result<(), NotWritten>
    ensures { OnOk result (out.new ≡ out.old ++ flat_map shown_byte piece.now) }
{
    if are_plain(piece) {
        return out.put(piece);
    }
    put_bytes(out, piece)
}

/// Writes bytes as text: `^` for 8D, the byte itself from 20 to 7E but for `^` and `\`, and a `\`
/// with two lower-case hexadecimal digits for every other byte.
///
/// The cost is a look at each byte, at 32 together where they are shown by themselves.
pub fn put_text(out: &mut WriteBuffer, bytes: &[u8]) -> Result<(), NotWritten>
    // If it ends well, the bytes were printed as such a text.
    ensures { OnOk result (out.new ≡ out.old ++ flat_map shown_byte bytes.now) }
{
    let mut i = 0;
    while i < bytes.len() {
        let count = PIECE.min(bytes.len() - i);
        put_piece(out, &bytes[i..i + count])?;
        i += count;
    }
    Ok(())
}

/// What a script printed can be typed.
pub fn law_read_back()
    // What is printed of bytes stands for these bytes again.
    ensures { IsReadBack }
{}

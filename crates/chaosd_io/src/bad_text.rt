//! Why a text of a script stands for no bytes.
ghost use Rattle.std.specs.Prelude.{◌≡◌, ◌-◌, ◌<◌, length, position, is_some, IfSome};
ghost use Rattle.chaosd_io.specs.Escapes.{bytes_of};
ghost use Rattle.chaosd_io.specs.BadText.{why_text, is_unprinting};

use crate::escapes::first_byte;
use crate::limits::LINE_LIMIT;
use thiserror::Error;

/// Why a text stands for no bytes of a packet.
#[derive(Clone, Copy, Debug, PartialEq, Eq, Error)]
pub enum BadText {
    #[error("it has more than 4096 bytes")]
    TooLong,
    /// The place of the byte, counted from 1.
    #[error("byte {0} is not a printable character of ASCII")]
    NotPrinting(usize),
    #[error("each \\ needs two lower-case hexadecimal digits behind it")]
    NoDigits,
    #[error("it stands for more than 488 bytes")]
    TooMany,
}

/// Whether a byte is no printable character of ASCII.
fn is_unprinting(b: u8) -> bool
    ensures { result ≡ is_unprinting b }
{
    b < b' ' || b > b'~'
}

/// Where the first byte stands that isn't printable.
fn first_unprinting(text: &[u8]) -> Option<usize>
    ensures value { result ≡ position is_unprinting text.now }
    ensures within { IfSome result (λ at. at < length text.now) }
{
    text.iter().position(|b| is_unprinting(*b))
}

/// Whether a text stands for bytes, however many.
fn stands_for_bytes(text: &[u8]) -> bool
    ensures { result ≡ is_some (bytes_of text.now) }
{
    let mut i = 0;
    while i < text.len() {
        let Some((_, count)) = first_byte(&text[i..]) else {
            return false;
        };
        i += count;
    }
    true
}

/// What is wrong with a text that stands for no bytes of a packet, of which [`crate::read_data`]
/// answers none. The text ends its line, in which places are counted. The cost is a walk over the
/// text.
#[tactic(auto, unfolding(crate::specs::BadText::why_text))]
pub fn why_text(line: &[u8], text: &[u8]) -> BadText
    // A text of more than 4,096 bytes is too long. Of another one the first byte is reported that
    // is no printable character. Of a printable text a `\` lacks its digits exactly where the text
    // stands for nothing; otherwise the text stands for too many bytes.
    ensures { result ≡ why_text (length line.now - length text.now) text.now }
{
    if text.len() > LINE_LIMIT {
        return BadText::TooLong;
    }
    if let Some(place) = first_unprinting(text) {
        return BadText::NotPrinting(line.len().saturating_sub(text.len()) + place + 1);
    }
    if stands_for_bytes(text) {
        BadText::TooMany
    } else {
        BadText::NoDigits
    }
}

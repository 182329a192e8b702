//! Lines, cut from chunks of an input.
ghost use Rattle.std.specs.Prelude.{◌≡◌, All, MatchOption, false, ◌<◌, ◌+◌, length, take, drop};
ghost use Rattle.std.specs.Io.BufRead.{strip_last};
ghost use Rattle.chaosd_io.specs.Lines.{is_newline, IsCut};

use memchr::memchr;

/// Where the first line ends, by a search.
fn first_end(bytes: &[u8]) -> Option<usize>
    ensures { MatchOption result (All (λ b. is_newline b ≡ false) bytes.now)
        (λ at. (at < length bytes.now)
        × IsCut bytes.now (take at bytes.now) (drop (at + 1) bytes.now)) }
{
    memchr(b'\n', bytes)
}

/// Where the first line ends. That of an empty one is found by a look, which costs less than the
/// call of a search.
fn line_end(bytes: &[u8]) -> Option<usize>
    ensures { MatchOption result (All (λ b. is_newline b ≡ false) bytes.now)
        (λ at. (at < length bytes.now)
        × IsCut bytes.now (take at bytes.now) (drop (at + 1) bytes.now)) }
{
    if bytes.len() > 0 && bytes[0] == b'\n' {
        return Some(0);
    }
    first_end(bytes)
}

/// The line that ends first, and what comes after its end; None where none ends.
pub fn cut_line(bytes: &[u8]) -> Option<(&[u8], &[u8])>
    // The first part is a line without a byte 10, and the second is what comes after its end. There
    // is no result exactly where no byte 10 is there.
    ensures { MatchOption result (All (λ b. is_newline b ≡ false) bytes.now)
        (λ cut. IsCut bytes.now cut.0.now cut.1.now) }
{
    let at = line_end(bytes)?;
    Some((&bytes[..at], &bytes[at + 1..]))
}

/// A line without a carriage return at its end.
pub fn without_return(raw: &[u8]) -> &[u8]
    // One carriage return is taken off the line's end, where one stands there.
    ensures { result.now ≡ strip_last 13 raw.now }
{
    let len = raw.len();
    if len > 0 && raw[len - 1] == b'\r' {
        &raw[..len - 1]
    } else {
        raw
    }
}

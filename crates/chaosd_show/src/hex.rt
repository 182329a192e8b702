//! Bytes that are written as hexadecimal digits.
ghost use Rattle.std.specs.Prelude.{◌≡◌, ◌≤◌, length, take, option_map, IfSome};
ghost use Rattle.chaosd_show.specs.Hex.{is_blank, hex_value, hex_bytes};

use crate::limits::SHOW_LINE_LIMIT;

/// The most bytes that a line stands for.
pub const MOST_BYTES: usize = SHOW_LINE_LIMIT / 2;

/// What stands in the table for a byte that is no digit.
const NO_DIGIT: u8 = 255;

/// The value of each byte as a hexadecimal digit of either case.
static VALUES: [u8; 256] = [
    255, 255, 255, 255, 255, 255, 255, 255, 255, 255, 255, 255, 255, 255, 255, 255, 255, 255, 255,
    255, 255, 255, 255, 255, 255, 255, 255, 255, 255, 255, 255, 255, 255, 255, 255, 255, 255, 255,
    255, 255, 255, 255, 255, 255, 255, 255, 255, 255, 0, 1, 2, 3, 4, 5, 6, 7, 8, 9, 255, 255, 255,
    255, 255, 255, 255, 10, 11, 12, 13, 14, 15, 255, 255, 255, 255, 255, 255, 255, 255, 255, 255,
    255, 255, 255, 255, 255, 255, 255, 255, 255, 255, 255, 255, 255, 255, 255, 255, 10, 11, 12, 13,
    14, 15, 255, 255, 255, 255, 255, 255, 255, 255, 255, 255, 255, 255, 255, 255, 255, 255, 255,
    255, 255, 255, 255, 255, 255, 255, 255, 255, 255, 255, 255, 255, 255, 255, 255, 255, 255, 255,
    255, 255, 255, 255, 255, 255, 255, 255, 255, 255, 255, 255, 255, 255, 255, 255, 255, 255, 255,
    255, 255, 255, 255, 255, 255, 255, 255, 255, 255, 255, 255, 255, 255, 255, 255, 255, 255, 255,
    255, 255, 255, 255, 255, 255, 255, 255, 255, 255, 255, 255, 255, 255, 255, 255, 255, 255, 255,
    255, 255, 255, 255, 255, 255, 255, 255, 255, 255, 255, 255, 255, 255, 255, 255, 255, 255, 255,
    255, 255, 255, 255, 255, 255, 255, 255, 255, 255, 255, 255, 255, 255, 255, 255, 255, 255, 255,
    255, 255, 255, 255, 255, 255, 255, 255, 255, 255, 255, 255, 255, 255, 255, 255, 255, 255, 255,
    255, 255, 255,
];

/// The value of a hexadecimal digit of either case.
#[inline]
fn hex_value(b: u8) -> Option<u8>
    ensures { result ≡ hex_value b }
{
    let value = VALUES[b as usize];
    if value == NO_DIGIT { None } else { Some(value) }
}

/// Whether the byte may stand between pairs of digits.
fn is_blank(b: u8) -> bool
    ensures { result ≡ is_blank b }
{
    b == b' ' || b == b'\t'
}

/// Puts the bytes that a line stands for at the front of `bytes`, and says how many they are, where
/// the line is pairs of digits with blanks between them. The cost is that of one look at each byte
/// of the line.
#[tactic(auto, using(crate::proofs::Digits::digit_is_no_blank, crate::proofs::Pairs::hex_bytes_blank, crate::proofs::Pairs::hex_bytes_pair, crate::proofs::Pairs::hex_bytes_odd, crate::proofs::Pairs::hex_bytes_end))]
pub fn read_hex(line: &[u8], bytes: &mut [u8; MOST_BYTES]) -> Option<usize>
    requires { length line.now ≤ SHOW_LINE_LIMIT }
    ensures within { IfSome result (λ count. count ≤ MOST_BYTES) }
    ensures value { option_map (λ count. take count bytes.new) result ≡ hex_bytes line.now }
{
    let mut count = 0;
    let mut i = 0;
    while i < line.len() {
        let Some(high) = hex_value(line[i]) else {
            if !is_blank(line[i]) {
                return None;
            }
            i += 1;
            continue;
        };
        if line.len() - i < 2 {
            return None;
        }
        let Some(low) = hex_value(line[i + 1]) else {
            return None;
        };
        bytes[count] = 16 * high + low;
        count += 1;
        i += 2;
    }
    Some(count)
}

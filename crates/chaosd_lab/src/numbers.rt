//! What a field says: a side, a number, an opcode.
ghost use Rattle.std.specs.Prelude.{◌≡◌, ◌≤◌, IfSome, Some};
ghost use Rattle.chaosd_lab.specs.Numbers.{side_of, digit_of, octal_of, number_of, digits_behind, opcode_of};

use chaos_lab::Side;
use chaos_packet::Opcode;

/// The side that a field names.
pub fn side_of(field: &[u8]) -> Option<Side>
    ensures { result ≡ side_of field.now }
{
    if field == b"a".as_slice() {
        Some(Side::A)
    } else if field == b"b".as_slice() {
        Some(Side::B)
    } else {
        None
    }
}

/// The value of a decimal digit.
fn digit_of(b: u8) -> Option<u8>
    ensures value { result ≡ digit_of b }
    ensures within { IfSome result (λ digit. digit ≤ 9) }
{
    if b'0' <= b && b <= b'9' {
        Some(b - b'0')
    } else {
        None
    }
}

/// A decimal number without leading zeros that isn't over `most`.
#[inline(always)]
pub fn number_of(most: u64, field: &[u8]) -> Option<u64>
    ensures value { result ≡ number_of most field.now }
    ensures within { IfSome result (λ n. n ≤ most) }
{
    if field.is_empty() || field.len() > 1 && field[0] == b'0' {
        return None;
    }
    value_of(most, field)
}

/// The number that these digits make, where it isn't over `most`.
#[tactic(auto, using(crate::proofs::Digits::digits_step, crate::proofs::Digits::digits_none, crate::proofs::Digits::digits_end, crate::proofs::Digits::digits_more, crate::proofs::Digits::digits_stop))]
fn value_of(most: u64, field: &[u8]) -> Option<u64>
    ensures value { result ≡ digits_behind most (Some 0) field.now }
    ensures within { IfSome result (λ n. n ≤ most) }
{
    let mut value = 0;
    for b in field {
        let next = 10 * u128::from(value) + u128::from(digit_of(*b)?);
        if next > u128::from(most) {
            return None;
        }
        value = next as u64;
    }
    Some(value)
}

/// The value of an octal digit.
fn octal_of(b: u8) -> Option<u8>
    ensures value { result ≡ octal_of b }
    ensures within { IfSome result (λ digit. digit ≤ 7) }
{
    if b'0' <= b && b <= b'7' {
        Some(b - b'0')
    } else {
        None
    }
}

/// An opcode in three octal digits.
pub fn opcode_of(field: &[u8]) -> Option<Opcode>
    ensures { result ≡ opcode_of field.now }
{
    let &[high, middle, low] = field else {
        return None;
    };
    let value = 64 * u16::from(octal_of(high)?)
        + 8 * u16::from(octal_of(middle)?)
        + u16::from(octal_of(low)?);
    if value > 255 {
        return None;
    }
    Some(Opcode(value as u8))
}

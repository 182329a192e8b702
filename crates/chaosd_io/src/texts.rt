//! Lines and numbers as text.
ghost use Rattle.std.specs.Prelude.{◌≡◌, ◌<◌, ◌≤◌, ◌++◌, length, OnOk};
ghost use Rattle.std.specs.Fmt.{decimal};
ghost use Rattle.chaosd_io.specs.Texts.{line, octal_three};

use crate::buffer::{NotWritten, WriteBuffer};

/// Writes a text, and the end of its line.
///
/// # Errors
/// `NotWritten` if not all of it fits.
pub fn put_line(out: &mut WriteBuffer, text: &str) -> Result<(), NotWritten>
    // If it ends well, the text and the end of its line were written.
    ensures { OnOk result (out.new ≡ out.old ++ line text.now) }
{
    out.put(text.as_bytes())?;
    out.put(b"\n")
}

/// Writes a number in decimal, without leading zeros.
///
/// # Errors
/// `NotWritten` if it doesn't fit.
pub fn put_decimal(out: &mut WriteBuffer, n: usize) -> Result<(), NotWritten>
    // If it ends well, the number was written in decimal.
    ensures { OnOk result (out.new ≡ out.old ++ decimal n) }
{
    out.put_digits(n as u64, digits_in(n as u64))
}

/// How many digits a number has in decimal, counted by four.
#[inline]
fn digits_in(n: u64) -> usize
    ensures { result ≡ length (decimal n) }
{
    let mut count = 0;
    let mut rest = n;
    while rest >= 10_000 {
        rest /= 10_000;
        count += 4;
    }
    count + last_digits(rest)
}

/// How many digits a number of at most four has.
#[inline]
fn last_digits(n: u64) -> usize
    requires { n < 10000 }
    ensures { result ≡ length (decimal n) }
{
    match n {
        0..=9 => 1,
        10..=99 => 2,
        100..=999 => 3,
        _ => 4,
    }
}

/// Writes a number below 512 as three octal digits.
///
/// # Errors
/// `NotWritten` if they don't fit.
pub fn put_octal_three(out: &mut WriteBuffer, n: u16) -> Result<(), NotWritten>
    requires { n < 512 }
    // If it ends well, the number was written in three octal digits.
    ensures { OnOk result (out.new ≡ out.old ++ octal_three n) }
{
    let digits = [n / 64, n / 8 % 8, n % 8];
    out.put(&[
        b'0' + digits[0] as u8,
        b'0' + digits[1] as u8,
        b'0' + digits[2] as u8,
    ])
}

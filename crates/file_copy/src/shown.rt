//! Bytes in a report to a user.
use std::fmt;
use std::fmt::{Display, Formatter};

/// Bytes as replies are printed: `^` for 8D, and two hexadecimal digits behind a `\` for a byte
/// that is no printing character.
#[derive(Drop)]
pub struct Shown<'a>(pub &'a [u8]);

impl Display for Shown<'_> {
    fn fmt<W: fmt::Write>(&self, f: &mut Formatter<W>) -> fmt::Result {
        for byte in self.0 {
            match *byte {
                0x8D => write!(f, "^")?,
                b'^' | b'\\' => write!(f, "\\{byte:02x}")?,
                0x20..=0x7E => write!(f, "{}", char::from(*byte))?,
                _ => write!(f, "\\{byte:02x}")?,
            }
        }
        Ok(())
    }
}

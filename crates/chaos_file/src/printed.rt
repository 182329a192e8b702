//! Local names in what a user reads.
use std::fmt;
use std::fmt::{Display, Formatter};

/// The name of a local file or folder, as it is printed.
///
/// No name makes a terminal do anything, and no two names are printed alike: a control character
/// stands there as `\x1b` or as `\u{9b}`, so does a mark that changes the direction of writing, and
/// `\` is doubled. Every other character is printed as it is.
#[derive(Clone, Copy, Debug)]
pub struct PrintedName<'a>(pub &'a str);

impl Display for PrintedName<'_> {
    fn fmt<W: fmt::Write>(&self, f: &mut Formatter<W>) -> fmt::Result {
        for character in self.0.chars() {
            let code = character as u32;
            match character {
                '\\' => write!(f, "\\\\")?,
                '\0'..='\x1f' | '\x7f' => write!(f, "\\x{code:02x}")?,
                '\u{80}'..='\u{9f}'
                | '\u{200e}'
                | '\u{200f}'
                | '\u{2028}'..='\u{202e}'
                | '\u{2066}'..='\u{2069}' => { write!(f, "\\u{{{code:x}}}")? }
                _ => write!(f, "{character}")?,
            }
        }
        Ok(())
    }
}

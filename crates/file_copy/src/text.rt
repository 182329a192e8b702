//! Text files between the character sets of the Lisp machines and ours.
ghost use Rattle.std.specs.Prelude.{◌≡◌, false, ℕ, List, map, find, OnOk, OnErr, Some, None};
ghost use Rattle.std.specs.List.{list_any};
ghost use Rattle.file_copy.specs.declared.text.Charset.{Charset};
ghost use Rattle.file_copy.specs.Text.{byte_in, lisp_byte, ascii_byte, other_set, is_lost, refused_for};

/// A character set of text files.
#[derive(Clone, Copy, Debug, PartialEq, Eq)]
pub enum Charset {
    /// That of the Lisp machines: Overstrike is 88, Tab 89, Page 8C and Return 8D, in hexadecimal.
    LispMachine,
    /// ASCII: backspace is 08, tab 09, newline 0A and page 0C.
    Ascii,
}

/// Backspace, tab, newline and page of a Lisp machine; every other byte as it is.
fn lisp_byte(b: u8) -> u8
    ensures { result ≡ lisp_byte b }
{
    match b {
        0x08 => 0x88,
        0x09 => 0x89,
        0x0a => 0x8d,
        0x0c => 0x8c,
        _ => b,
    }
}

/// The same back.
fn ascii_byte(b: u8) -> u8
    ensures { result ≡ ascii_byte b }
{
    match b {
        0x88 => 0x08,
        0x89 => 0x09,
        0x8d => 0x0a,
        0x8c => 0x0c,
        _ => b,
    }
}

impl Charset {
    /// A byte of the other set, in this one.
    fn byte(self, b: u8) -> u8
        ensures { result ≡ byte_in self b }
    {
        match self {
            Charset::LispMachine => lisp_byte(b),
            Charset::Ascii => ascii_byte(b),
        }
    }

    /// Whether a byte stands for another one in this set, so that it can't be in a text of the
    /// other.
    fn loses(self, b: u8) -> bool
        ensures { result ≡ is_lost self b }
    {
        match self {
            Charset::LispMachine => matches!(b, 0x88 | 0x89 | 0x8c | 0x8d),
            Charset::Ascii => matches!(b, 0x08 | 0x09 | 0x0a | 0x0c),
        }
    }

    /// The first byte of a text of the other set that would not come back.
    fn first_lost(self, bytes: &[u8]) -> Option<u8>
        ensures { result ≡ find (is_lost self) bytes.now }
    {
        bytes.iter().copied().find(|b| self.loses(*b))
    }

    /// Puts a text of the other set into this one, byte by byte and in place; what comes out is as
    /// long.
    ///
    /// # Errors
    /// The first byte that would not come back: then nothing changed.
    pub fn translate(self, bytes: &mut [u8]) -> Result<(), u8>
        // It is refused for the first byte that would not come back, where there is one.
        ensures refused { result ≡ refused_for (find (is_lost self) bytes.old) }
        // Each byte is put into this set.
        ensures ok { OnOk result (bytes.new ≡ map (byte_in self) bytes.old) }
        // Where it is refused, nothing changed.
        ensures err { OnErr result (bytes.new ≡ bytes.old) }
    {
        if let Some(lost) = self.first_lost(bytes) {
            return Err(lost);
        }
        for i in 0..bytes.len() {
            bytes[i] = self.byte(bytes[i]);
        }
        Ok(())
    }
}

/// A text that was put into a set, put back.
pub fn law_text()
    // A text that was not refused comes back byte for byte.
    ensures back { (set : Charset) (bytes : List ℕ) → find (is_lost set) bytes ≡ None →
        map (byte_in (other_set set)) (map (byte_in set) bytes) ≡ bytes }
    // A text that is refused would not come back.
    ensures lost { (set : Charset) (bytes : List ℕ) (b : ℕ) → find (is_lost set) bytes ≡ Some b →
        ¬ (map (byte_in (other_set set)) (map (byte_in set) bytes) ≡ bytes) }
{}

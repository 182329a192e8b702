//! The fields of a line.
ghost use Rattle.std.specs.Prelude.{◌≡◌, ◌==◌, ◌<◌, length, option_map, position, IfSome};
ghost use Rattle.chaosd_lab.specs.Fields.{cut, field_and_text};

fn first_space(bytes: &[u8]) -> Option<usize>
    ensures value { result ≡ position (λ b. b == 32) bytes.now }
    ensures within { IfSome result (λ at. at < length bytes.now) }
{
    bytes.iter().position(|b| *b == b' ')
}

/// The bytes before the first space, and those after it.
pub fn cut(bytes: &[u8]) -> Option<(&[u8], &[u8])>
    ensures { option_map (λ p. (p.0.now, p.1.now)) result ≡ cut bytes.now }
{
    let at = first_space(bytes)?;
    Some((&bytes[..at], &bytes[at + 1..]))
}

/// A field, and the text behind it: none where it is left out.
pub fn field_and_text(bytes: &[u8]) -> (&[u8], &[u8])
    ensures { (result.0.now, result.1.now) ≡ field_and_text bytes.now }
{
    match cut(bytes) {
        Some(parts) => parts,
        None => (bytes, &[]),
    }
}

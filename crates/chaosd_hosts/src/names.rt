//! Names of hosts.
ghost use Rattle.std.specs.Prelude.{◌≡◌};
ghost use Rattle.std.specs.Char.{is_ascii_alphabetic};
ghost use Rattle.std.specs.List.{list_all, list_any};
ghost use Rattle.chaosd_hosts.specs.Names.{is_host_name, is_name_byte, is_own_name, is_same_name};

/// The most bytes of a host's name.
pub const MAX_HOST_NAME: usize = 64;

/// The name of each own entry of a table.
pub(crate) const OWN_NAME: &str = "self";

/// Whether a name may have a byte: a letter, a digit, a hyphen or a dot.
fn is_name_byte(byte: u8) -> bool
    ensures { result ≡ is_name_byte byte }
{
    byte.is_ascii_alphanumeric() || byte == b'-' || byte == b'.'
}

/// Whether all these bytes are bytes of names.
fn has_name_bytes(name: &[u8]) -> bool
    ensures { result ≡ list_all is_name_byte name.now }
{
    name.iter().all(|byte| is_name_byte(*byte))
}

/// Whether one of these bytes is a letter.
fn has_letter(name: &[u8]) -> bool
    ensures { result ≡ list_any is_ascii_alphabetic name.now }
{
    name.iter().any(|byte| byte.is_ascii_alphabetic())
}

/// Whether these bytes are a host's name: 1 to 64 letters, digits, hyphens and dots, of which one
/// is a letter.
pub fn is_host_name(name: &[u8]) -> bool
    // The result is true exactly for 1 to 64 letters, digits, hyphens and dots, of which at least
    // one is a letter.
    ensures { result ≡ is_host_name name.now }
{
    name.len() <= MAX_HOST_NAME && has_name_bytes(name) && has_letter(name)
}

/// Whether two names are the same; case doesn't count.
pub fn is_same_name(name: &str, other: &str) -> bool
    // The result is true exactly where the names differ at most in capital and small letters.
    ensures { result ≡ is_same_name name.now other.now }
{
    name.eq_ignore_ascii_case(other)
}

/// Whether a name is that of each own entry.
pub(crate) fn is_own_name(name: &str) -> bool
    ensures { result ≡ is_own_name name.now }
{
    is_same_name(OWN_NAME, name)
}

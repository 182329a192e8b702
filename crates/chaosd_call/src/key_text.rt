//! The text of a key file.
ghost use Rattle.std.specs.Prelude.{◌≡◌};
ghost use Rattle.chaosd_call.specs.Key.{key_of};

use chaos_seal::KEY_BYTES;
use hex::{FromHex, FromHexError};

/// The key that a text writes: 64 hexadecimal digits, with white space around them.
#[tactic(auto, unfolding(crate::specs::Key::key_of))]
pub fn key_of(text: &[u8]) -> Result<[u8; KEY_BYTES], FromHexError>
    // The key has the 32 bytes that 64 hexadecimal digits write, which may be of either case and
    // have white space around them. Any other text is refused.
    ensures { result ≡ key_of text.now }
{
    <[u8; KEY_BYTES] as FromHex>::from_hex(text.trim_ascii())
}

//! Tags: HMAC-SHA-256, cut to 16 bytes.
ghost use Rattle.std.specs.Prelude.{◌≡◌, ◌↔◌, IsTrue};
ghost use Rattle.sha2.specs.Hashers.{Holds256};
ghost use Rattle.chaos_seal.specs.Hmac.{padded};
ghost use Rattle.chaos_seal.specs.Seal.{tag_of};

use crate::limits::{KEY_BYTES, TAG_BYTES};
use sha2::{Digest, Sha256};
use std::marker::Model;

/// The bits that are turned in the key's block before the text is hashed.
const INNER_PAD: u8 = 0x36;

/// The bits that are turned in the key's block before the first hash is hashed.
const OUTER_PAD: u8 = 0x5C;

/// A key, and two hashers that took in the key's blocks, so that no tag hashes a block of the key
/// anew. A contract sees the key.
#[derive(Drop)]
pub struct Keyed {
    key: [u8; KEY_BYTES],
    inner: Sha256,
    outer: Sha256,
}

impl Model for Keyed {
    ghost use Rattle.std.specs.Prelude.{ℕ, List};
    ghost use Rattle.sha2.specs.Hashers.{Holds256};
    ghost use Rattle.chaos_seal.specs.Hmac.{padded};

    ghost Value = { List ℕ };

    ghost view = { λ keyed. keyed.key };

    ghost invariant = { λ keyed. Holds256 keyed.inner (padded 0x36 keyed.key)
        × Holds256 keyed.outer (padded 0x5C keyed.key) };
}

impl Keyed {
    /// Makes a key ready.
    pub fn new(key: &[u8; KEY_BYTES]) -> Self
        ensures { result ≡ key.now }
    {
        Keyed {
            key: *key,
            inner: block_of(key, INNER_PAD),
            outer: block_of(key, OUTER_PAD),
        }
    }

    /// The tag of a text.
    pub fn tag(&self, text: &[u8]) -> [u8; TAG_BYTES]
        ensures { result ≡ tag_of self.now text.now }
    {
        let mut inner = copy_of(&self.inner);
        inner.update(text);
        let within = inner.finalize();
        let mut outer = copy_of(&self.outer);
        outer.update(&within);
        let whole = outer.finalize();
        let mut tag = [0; TAG_BYTES];
        tag.copy_from_slice(&whole[..TAG_BYTES]);
        tag
    }
}

/// A hasher that took in the key's block.
fn block_of(key: &[u8; KEY_BYTES], pad: u8) -> Sha256
    ensures { Holds256 result (padded pad key.now) }
{
    let mut hasher = Sha256::new();
    for i in 0..KEY_BYTES {
        hasher.update(&[pad ^ key[i]]);
    }
    hasher.update(&[pad; 32]);
    hasher
}

/// A copy of a hasher.
fn copy_of(hasher: &Sha256) -> Sha256
    ensures { result ≡ hasher.now }
{
    let Ok(copy) = hasher.clone() else {
        unreachable!()
    };
    copy
}

/// Whether two tags are the same, with no branch on their bytes.
pub fn are_same(a: &[u8; TAG_BYTES], b: &[u8; TAG_BYTES]) -> bool
    ensures { IsTrue result ↔ (a.now ≡ b.now) }
{
    let mut differ = 0;
    for i in 0..TAG_BYTES {
        differ |= a[i] ^ b[i];
    }
    differ == 0
}

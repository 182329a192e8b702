//! Sizes, each with its unit.
ghost use Rattle.std.specs.Prelude.{◌≡◌, ◌+◌};
ghost use Rattle.chaos_link.specs.declared.limits.TheConstants.{LINK_ROOM};
ghost use Rattle.chaos_seal.specs.declared.limits.TheConstants.{HEAD_BYTES, KEY_BYTES, MAX_PAYLOAD, SEAL_BYTES, SEAL_WINDOW, TAG_BYTES};

/// The bytes of a key.
pub const KEY_BYTES: usize = 32;

/// The bytes that stand before the payload: mark, two addresses, two sessions and counter.
pub(crate) const HEAD_BYTES: usize = 32;

/// The bytes of a tag.
pub const TAG_BYTES: usize = 16;

/// The bytes that a seal adds to a payload.
pub const SEAL_BYTES: usize = 48;

/// The most bytes that are sealed.
pub const MAX_PAYLOAD: usize = 2000;

/// How many counters a receiver looks back from the greatest one heard.
pub const SEAL_WINDOW: u64 = 256;

/// The limits as numerals.
pub fn law_limits()
    // A key has 32 bytes, and a tag 16.
    ensures key { KEY_BYTES ≡ 32 }
    ensures tag { TAG_BYTES ≡ 16 }
    // A seal adds 48 bytes: those before the payload, and the tag.
    ensures seal { SEAL_BYTES ≡ 48 }
    ensures parts { HEAD_BYTES + TAG_BYTES ≡ SEAL_BYTES }
    // At most 2,000 bytes are sealed, and such a datagram is as long as a link takes.
    ensures payload { MAX_PAYLOAD ≡ 2000 }
    ensures room { MAX_PAYLOAD + SEAL_BYTES ≡ LINK_ROOM }
    // A receiver looks back over 256 counters.
    ensures window { SEAL_WINDOW ≡ 256 }
{}

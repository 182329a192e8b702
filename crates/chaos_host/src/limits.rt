//! The sizes of a host.
ghost use Rattle.std.specs.Prelude.{◌≡◌};
ghost use Rattle.chaos_host.specs.declared.limits.TheConstants.{MAX_CONNS, MAX_LISTENERS, MAX_CONTACT};

/// The most connections of a host.
pub const MAX_CONNS: usize = 255;

/// The most contacts that a host listens to.
pub const MAX_LISTENERS: usize = 16;

/// The most bytes of a contact that a host listens to.
pub const MAX_CONTACT: usize = 64;

/// The limits as numerals.
pub fn law_limits()
    // A host has at most 255 connections.
    ensures conns { MAX_CONNS ≡ 255 }
    // A host listens to at most 16 contacts.
    ensures listeners { MAX_LISTENERS ≡ 16 }
    // A contact that a host listens to has at most 64 bytes.
    ensures contact { MAX_CONTACT ≡ 64 }
{}

//! What a client asks for.

/// The contact of a server of FILE.
pub const CONTACT: &[u8] = b"FILE";

//! The form of a sealed datagram.
ghost use Rattle.std.specs.Prelude.{◌≡◌, ◌↔◌, ◌+◌, ◌≤◌, ◌++◌, length, take, drop, IsTrue};
ghost use Rattle.std.specs.Int.{w16, w64, to_be_bytes};
ghost use Rattle.chaos_link.specs.declared.limits.TheConstants.{LINK_ROOM};
ghost use Rattle.chaos_seal.specs.Seal.{Fits, Seals, front, payload_of, tag_in, tag_of};
ghost use Rattle.chaos_seal.specs.Opening.{IsSealed};
ghost use Rattle.chaos_seal.specs.declared.limits.TheConstants.{HEAD_BYTES, MAX_PAYLOAD, SEAL_BYTES};

use crate::hmac::{Keyed, are_same};
use crate::limits::{HEAD_BYTES, MAX_PAYLOAD, SEAL_BYTES, TAG_BYTES};
use chaos_link::LINK_ROOM;

/// The mark and the version of a sealed datagram.
const MARK: [u8; 4] = [0x43, 0x48, 3, 0];

/// The numbers of a sealed datagram.
#[derive(Clone, Copy, Debug, PartialEq, Eq)]
pub struct Head {
    /// The receiver's address.
    pub to: u16,
    /// The sender's address.
    pub from: u16,
    /// The sender's session.
    pub session: u64,
    /// The receiver's session, as the sender last heard it.
    pub peer: u64,
    pub counter: u64,
}

/// Writes the one datagram that seals the payload, and gives its length.
pub fn write_sealed(key: &Keyed, head: Head, payload: &[u8], room: &mut [u8; LINK_ROOM]) -> usize
    requires { length payload.now ≤ MAX_PAYLOAD }
    ensures long { result ≡ SEAL_BYTES + length payload.now }
    ensures sealed { Seals key.now head payload.now (take result room.new) }
{
    let at = put(room, 0, &MARK);
    let at = put(room, at, &head.to.to_be_bytes());
    let at = put(room, at, &head.from.to_be_bytes());
    let at = put(room, at, &head.session.to_be_bytes());
    let at = put(room, at, &head.peer.to_be_bytes());
    let at = put(room, at, &head.counter.to_be_bytes());
    let at = put(room, at, payload);
    let tag = key.tag(&room[..at]);
    put(room, at, &tag)
}

/// Puts bytes behind the first `at` bytes of the room, and gives where they end.
#[inline(always)]
fn put(room: &mut [u8; LINK_ROOM], at: usize, bytes: &[u8]) -> usize
    requires { at + length bytes.now ≤ LINK_ROOM }
    ensures end { result ≡ at + length bytes.now }
    ensures bytes { take result room.new ≡ take at room.old ++ bytes.now }
{
    let end = at + bytes.len();
    room[at..end].copy_from_slice(bytes);
    end
}

/// The numbers of a datagram, which is long enough.
pub fn read_head(bytes: &[u8]) -> Head
    requires { SEAL_BYTES ≤ length bytes.now }
    ensures fits { Fits result }
    ensures to { to_be_bytes w16 result.to ≡ take 2 (drop 4 bytes.now) }
    ensures from { to_be_bytes w16 result.from ≡ take 2 (drop 6 bytes.now) }
    ensures session { to_be_bytes w64 result.session ≡ take 8 (drop 8 bytes.now) }
    ensures peer { to_be_bytes w64 result.peer ≡ take 8 (drop 16 bytes.now) }
    ensures counter { to_be_bytes w64 result.counter ≡ take 8 (drop 24 bytes.now) }
{
    Head {
        to: word_at(bytes, 4),
        from: word_at(bytes, 6),
        session: long_at(bytes, 8),
        peer: long_at(bytes, 16),
        counter: long_at(bytes, 24),
    }
}

/// The number whose two bytes begin there.
#[inline(always)]
fn word_at(bytes: &[u8], at: usize) -> u16
    requires { at + 2 ≤ length bytes.now }
    ensures { to_be_bytes w16 result ≡ take 2 (drop at bytes.now) }
{
    u16::from_be_bytes([bytes[at], bytes[at + 1]])
}

/// The number whose eight bytes begin there.
#[inline(always)]
fn long_at(bytes: &[u8], at: usize) -> u64
    requires { at + 8 ≤ length bytes.now }
    ensures { to_be_bytes w64 result ≡ take 8 (drop at bytes.now) }
{
    u64::from_be_bytes([
        bytes[at],
        bytes[at + 1],
        bytes[at + 2],
        bytes[at + 3],
        bytes[at + 4],
        bytes[at + 5],
        bytes[at + 6],
        bytes[at + 7],
    ])
}

/// Whether a datagram begins with the mark and the version 3.
pub fn is_sealed(bytes: &[u8]) -> bool
    ensures { IsTrue result ↔ IsSealed bytes.now }
{
    bytes.len() >= 3 && bytes[0] == MARK[0] && bytes[1] == MARK[1] && bytes[2] == MARK[2]
}

/// Whether the tag of a datagram is right under the key.
pub fn has_right_tag(key: &Keyed, bytes: &[u8]) -> bool
    requires { SEAL_BYTES ≤ length bytes.now }
    ensures { IsTrue result ↔ (tag_in bytes.now ≡ tag_of key.now (front bytes.now)) }
{
    let end = bytes.len() - TAG_BYTES;
    let right = key.tag(&bytes[..end]);
    let mut came = [0; TAG_BYTES];
    came.copy_from_slice(&bytes[end..]);
    are_same(&came, &right)
}

/// The payload of a sealed datagram, which is long enough.
pub fn payload(bytes: &[u8]) -> &[u8]
    requires { SEAL_BYTES ≤ length bytes.now }
    ensures payload { result.now ≡ payload_of bytes.now }
    ensures long { length result.now + SEAL_BYTES ≡ length bytes.now }
{
    let front = &bytes[..bytes.len() - TAG_BYTES];
    &front[HEAD_BYTES..]
}

/// Moves the payload of so many sealed bytes to the front.
pub fn lift(buffer: &mut [u8; LINK_ROOM], count: usize)
    requires long { SEAL_BYTES ≤ count }
    requires fits { count ≤ LINK_ROOM }
    ensures { take (length (payload_of (take count buffer.old))) buffer.new
        ≡ payload_of (take count buffer.old) }
{
    buffer.copy_within(HEAD_BYTES..count - TAG_BYTES, 0);
}

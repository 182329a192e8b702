//! The sources of the packets that a datagram carries.
ghost use Rattle.std.specs.Prelude.{◌≡◌, ◌↔◌, All, IsTrue};
ghost use Rattle.chaos_seal.specs.Sources.{AreSources, IsAllFrom};

use arrayvec::ArrayVec;
use chaos_link::{MAX_PACKETS, open_datagram};
use chaos_packet::Packet;

/// The sources of the packets that the bytes carry by either version, and none where the bytes
/// carry no packets.
pub fn sources(bytes: &[u8]) -> ArrayVec<u16, MAX_PACKETS>
    ensures { AreSources bytes.now result.items }
{
    let mut sources = ArrayVec::new();
    let Ok(mut packets) = open_datagram(bytes) else {
        return sources;
    };
    let mut packet = Packet::default();
    for _turn in 0..MAX_PACKETS {
        let Some(source) = packets.source() else {
            return sources;
        };
        sources.push(source);
        packets.next_into(&mut packet);
    }
    sources
}

/// Whether each packet that the bytes carry comes from this host.
pub fn is_all_from(bytes: &[u8], from: u16) -> bool
    ensures { IsTrue result ↔ IsAllFrom from bytes.now }
{
    are_all(sources(bytes).as_slice(), from)
}

/// Whether all sources are this host.
fn are_all(sources: &[u16], from: u16) -> bool
    ensures { IsTrue result ↔ All (λ source. source ≡ from) sources.now }
{
    sources.iter().all(|source| *source == from)
}

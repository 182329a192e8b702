//! Where a peer stands in a list.
ghost use Rattle.std.specs.Prelude.{◌≡◌, ◌<◌, IfSome, length};
ghost use Rattle.chaosd_log.specs.PeerSources.{place_of};

use chaos_link::Peer;

/// The place of the first peer with this address.
pub(crate) fn place_of(peers: &[Peer], address: u16) -> Option<usize>
    ensures place { result ≡ place_of address peers.now }
    ensures bound { IfSome result (λ place. place < length peers.now) }
{
    let (first, others) = peers.split_first()?;
    if first.address == address {
        return Some(0);
    }
    let place = place_of(others, address)?;
    Some(place + 1)
}

//! The hops of packets in CHUDP.
ghost use Rattle.std.specs.Prelude.{◌≡◌, ◌≤◌, length};
ghost use Rattle.chaos_link.specs.declared.limits.TheConstants.{MAX_PEERS};
ghost use Rattle.chaosd_call.specs.Hops.{hops_by};

use chaos_chudp::Hops;
use chaos_link::Peer;

/// The hops over which packets of CHUDP leave a host.
pub fn hops_of(hosts: &[Peer], bridge: Option<u16>) -> Hops
    requires { length hosts.now ≤ MAX_PEERS }
    // If the bridge's Chaosnet address is known, these hosts are reached directly, and all others
    // through the bridge. Otherwise the hops name no host and no bridge.
    ensures { result ≡ hops_by hosts.now bridge }
{
    match bridge {
        Some(bridge) => Hops::beside(hosts, bridge),
        None => Hops::direct(),
    }
}

//! The next hop of a packet.
ghost use Rattle.std.specs.Prelude.{◌≡◌, ◌==◌, ◌≤◌, [], Some, None, length, map};
ghost use Rattle.std.specs.List.{list_any};
ghost use Rattle.chaos_link.specs.declared.limits.TheConstants.{MAX_PEERS};
ghost use Rattle.chaos_chudp.specs.Hops.{hop_of};

use arrayvec::ArrayVec;
use chaos_link::{MAX_PEERS, Peer};
use std::marker::Model;

/// Which Chaosnet addresses a host reaches directly, at most [`MAX_PEERS`] of them. All others are
/// reached through a bridge, where the Chaosnet address of that bridge is known.
#[derive(Drop)]
pub struct Hops {
    near: ArrayVec<u16, MAX_PEERS>,
    bridge: Option<u16>,
}

impl Model for Hops {
    ghost use Rattle.std.specs.Prelude.{◌≤◌, length};
    ghost use Rattle.chaos_link.specs.declared.limits.TheConstants.{MAX_PEERS};
    ghost use Rattle.chaos_chudp.specs.Hops.{HopsView};

    ghost Value = { HopsView };

    ghost view = { λ hops. record { near = hops.near.items; bridge = hops.bridge } };

    ghost invariant = { λ hops. length hops.near.items ≤ MAX_PEERS };
}

impl Hops {
    /// The hops of a host that talks to its peers alone, or doesn't know the Chaosnet address of
    /// its bridge.
    pub fn direct() -> Self
        // No address is listed and no bridge is known, so that each address is its own hop.
        ensures { result ≡ record { near = []; bridge = None } }
    {
        Hops {
            near: ArrayVec::new(),
            bridge: None,
        }
    }

    /// The hops of a host that reaches these hosts directly, and all others through the bridge with
    /// this address.
    pub fn beside(hosts: &[Peer], bridge: u16) -> Self
        requires { length hosts.now ≤ MAX_PEERS }
        // The addresses of these hosts are reached directly, and all others through this bridge.
        ensures { result
            ≡ record { near = map (λ host. host.address) hosts.now; bridge = Some bridge } }
    {
        let mut near = ArrayVec::new();
        for host in hosts {
            near.push(host.address);
        }
        Hops {
            near,
            bridge: Some(bridge),
        }
    }

    /// The next hop on the way to an address.
    ///
    /// The call walks once over the addresses that are reached directly.
    pub fn next(&self, to: u16) -> u16
        // The next hop is the address itself where it is reached directly or no bridge is known,
        // otherwise the bridge.
        ensures { result ≡ hop_of to self.now }
    {
        if self.is_near(to) {
            return to;
        }
        self.bridge.unwrap_or(to)
    }

    /// Whether an address is reached directly.
    fn is_near(&self, to: u16) -> bool
        ensures { result ≡ list_any (λ address. address == to) self.now.near }
    {
        self.near.iter().any(|address| *address == to)
    }
}

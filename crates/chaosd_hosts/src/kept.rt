//! The peers of a server that reads its table of hosts again.
ghost use Rattle.std.specs.Prelude.{◌≡◌};
ghost use Rattle.chaosd_hosts.specs.Kept.{peers_after, with_followed};

use crate::following::{is_among, set_place};
use crate::table::HostsTable;
use chaos_link::{Peer, Peers};

/// Sets those of these hosts that are followed.
fn keep_followed(peers: &mut Peers, followed: &[u16], known: &[Peer])
    ensures { peers.new ≡ with_followed followed.now known.now peers.old }
{
    for host in known {
        if is_among(host.address, followed) {
            set_place(peers, *host);
        }
    }
}

impl HostsTable<'_> {
    /// The peers of a server that reads this table, and that had these peers so far.
    pub fn into_peers_after(self, known: &Peers) -> Peers
        // The peers are those of the table, and each host that the table follows, where the server
        // heard the host last. At most 32 are kept.
        ensures { result ≡ peers_after self.entry known.now }
    {
        let followed = self.followed();
        let mut peers = self.into_peers();
        keep_followed(&mut peers, followed.as_slice(), known.hosts());
        peers
    }
}

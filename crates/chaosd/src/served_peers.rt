//! The peers of `serve`: some are followed, and a hosts table may be read again.
ghost use Rattle.chaosd.specs.ServedPeers.{ServesPeers, text_taken};

use crate::table_watch::TableWatch;
use chaos_link::{PeerKeeper, Peers};
use chaosd_hosts::{FollowedHosts, HostsTable};
use std::fs::{File, Files};
use std::net::SocketAddrV4;
use std::time::Clock;

/// What is wrong with a table that has a host with `*`, where only peers are heard: such a host
/// would never be one.
pub(crate) const UNHEARD: &str = "a host with * can't be heard with --only-peers";

/// What is logged of a table whose hosts have other keys: the keys are read at the start alone.
const KEYS_CHANGED: &str = "the keys changed, which needs a restart; the hosts stay";

/// Keeps the peers of a server. A host that is followed is where its last good datagram came from.
/// Behind an idle turn the hosts table is read again, if there is one and its file changed. A table
/// whose hosts have other keys isn't taken in, nor one that a start would refuse.
#[derive(Drop)]
pub(crate) struct ServedPeers<'a, R> {
    pub(crate) followed: FollowedHosts,
    /// Whether datagrams from elsewhere than a peer's UDP address are dropped.
    pub(crate) hears_only_peers: bool,
    /// The file of the hosts table, where the peers come from one.
    pub(crate) table: Option<TableWatch<'a, R>>,
}

impl<R: AllocGlobal + Clock + Eprint + Files<File = File>> PeerKeeper for ServedPeers<'_, R> {
    ghost becomes = { λ keeper peers came next_keeper next.
        ServesPeers (text_taken keeper.table) keeper.followed peers came
        (text_taken next_keeper.table) next_keeper.followed next };

    fn hear(&mut self, peers: &mut Peers, from: SocketAddrV4, datagram: &[u8]) {
        self.followed.hear(peers, from, datagram);
    }

    fn rest(&mut self, peers: &mut Peers) {
        let Some(watch) = &mut self.table else {
            return;
        };
        let Some(text) = watch.news() else {
            return;
        };
        match HostsTable::read(text.as_str()) {
            Ok(table) if self.hears_only_peers && !table.followed().is_empty() => {
                watch.log(&format_args!("{UNHEARD}; the hosts stay"));
            }
            Ok(table) => {
                if watch.has_keys_of(&table) {
                    watch.log_hosts(&table);
                    self.followed.follow(table.followed());
                    *peers = table.into_peers_after(peers);
                    watch.keep(text);
                    return;
                }
                watch.log(&KEYS_CHANGED);
            }
            Err(fault) => watch.log(&format_args!("{fault}; the hosts stay")),
        }
        watch.leave(text);
    }
}

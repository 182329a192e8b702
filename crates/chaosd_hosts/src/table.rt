//! The table of hosts.
ghost use Rattle.std.specs.Prelude.{◌≡◌, ◌==◌, ◌++◌, ◌<◌, false, IfErr, OnOk, length, map, option_map};
ghost use Rattle.std.specs.List.{list_any};
ghost use Rattle.std.specs.Option.{option_to_list};
ghost use Rattle.std.specs.Result.{result_map_both};
ghost use Rattle.chaos_link.specs.declared.limits.TheConstants.{MAX_PEERS};
ghost use Rattle.chaosd_hosts.specs.Fields.{fields_of, names_among};
ghost use Rattle.chaosd_hosts.specs.Table.{fault_view, first_taken, followed_of, host_named, host_view, is_taken, knows, no_hosts, peer_of_host, peers_of, refusal_view, table_of, with_bridge, with_host, with_line, with_other, with_self};

use crate::fault::{Reason, Refusal, TableFault};
use crate::fields::{before_comment, has_name, next_field, next_name};
use crate::host::{Host, MAX_SELVES, find_named, followed_among, has_address};
use crate::names::is_own_name;
use crate::reading::{bridge_in, host_in, is_star};
use arrayvec::ArrayVec;
use chaos_link::{MAX_PEERS, Peer, Peers};
use std::marker::Model;
use std::net::SocketAddrV4;

/// The most bytes of a file that is read as a table.
pub const MAX_TABLE_BYTES: usize = 65_536;

/// The hosts that a text names: this host's own entries, the other hosts, and the bridge to all
/// hosts that have no entry. The table borrows its names from the text.
#[derive(Drop)]
pub struct HostsTable<'a> {
    selves: ArrayVec<Host<'a>, MAX_SELVES>,
    hosts: ArrayVec<Host<'a>, MAX_PEERS>,
    /// The other hosts that have a UDP address, and the bridge.
    peers: Peers,
}

impl<'a> Model for HostsTable<'a> {
    ghost use Rattle.std.specs.Prelude.{◌≡◌, ◌≤◌, length, map};
    ghost use Rattle.std.specs.List.{filter_map};
    ghost use Rattle.chaos_link.specs.declared.limits.TheConstants.{MAX_PEERS};
    ghost use Rattle.chaosd_hosts.specs.Table.{TableView, host_view, peer_of_host};
    ghost use Rattle.chaosd_hosts.specs.declared.host.TheConstants.{MAX_SELVES};

    ghost Value = { TableView };

    ghost view = { λ table.
        record {
          selves = map host_view table.selves.items;
          hosts = map host_view table.hosts.items;
          bridge = table.peers.bridge;
        } };

    ghost invariant = { λ table.
        (length table.selves.items ≤ MAX_SELVES) × (length table.hosts.items ≤ MAX_PEERS)
        × (table.peers.hosts ≡ filter_map peer_of_host (map host_view table.hosts.items)) };
}

/// Adds a host to the peers, if the host has a UDP address.
fn add_peer(peers: &mut Peers, host: &Host)
    requires few { length peers.old.hosts < MAX_PEERS }
    requires fresh { list_any (λ peer. peer.address == host.now.address) peers.old.hosts ≡ false }
    ensures { peers.new ≡ record peers.old {
      hosts = peers.old.hosts ++ option_to_list (peer_of_host (host_view host.now));
    } }
{
    let address = host.address;
    let Some(socket) = host.udp else {
        return;
    };
    match peers.add(Peer { address, socket }) {
        Ok(()) => {}
        Err(_) => unreachable!(),
    }
}

impl<'a> HostsTable<'a> {
    /// A table without hosts.
    fn new() -> Self
        ensures { result ≡ no_hosts }
    {
        HostsTable {
            selves: ArrayVec::new(),
            hosts: ArrayVec::new(),
            peers: Peers::new(),
        }
    }

    /// This host's own entries.
    pub fn selves(&self) -> &[Host<'a>]
        // The own entries are given in the order of their lines.
        ensures { map host_view result.now ≡ self.now.selves }
    {
        self.selves.as_slice()
    }

    /// The other hosts.
    pub fn hosts(&self) -> &[Host<'a>]
        // The other hosts are given in the order of their lines.
        ensures { map host_view result.now ≡ self.now.hosts }
    {
        self.hosts.as_slice()
    }

    /// The UDP address of the bridge to all hosts that have no entry.
    pub fn bridge(&self) -> Option<SocketAddrV4>
        // The bridge is that of the table, where the table has a bridge.
        ensures { result ≡ self.now.bridge }
    {
        self.peers.bridge()
    }

    /// The other hosts that have a UDP address, and the bridge.
    pub fn peers(&self) -> &Peers
        // The peers are the other hosts that have a UDP address, in the order of their lines, and
        // the bridge of the table.
        ensures { result.now ≡ peers_of self.now }
    {
        &self.peers
    }

    /// The same, for keeps.
    #[tactic(auto, unfolding(crate::specs::Table::peers_of))]
    pub fn into_peers(self) -> Peers
        // The peers are those of the table.
        ensures { result ≡ peers_of self.entry }
    {
        self.peers
    }

    /// The host with this name; case doesn't count.
    pub fn find(&self, name: &str) -> Option<Host<'a>>
        // The host is the first with this name, own entries before others; where no host has the
        // name there is none.
        ensures { option_map host_view result ≡ host_named name.now self.now }
    {
        find_named(self.selves(), name).or(find_named(self.hosts(), name))
    }

    /// Whether a host has this Chaosnet address.
    fn knows(&self, address: u16) -> bool
        ensures { result ≡ knows self.now address }
    {
        has_address(self.selves(), address) || has_address(self.hosts(), address)
    }

    /// Whether a name is taken, in front of these names: a host has the name, or the name stands
    /// there again. `self` is free.
    fn is_taken(&self, name: &str, behind: &str) -> bool
        ensures { result ≡ is_taken self.now name.now (names_among (fields_of behind.now)) }
    {
        !is_own_name(name) && (self.find(name).is_some() || has_name(behind, name))
    }

    /// The first name among these fields that a host has already, or that stands there again.
    #[tactic(auto, unfolding(crate::specs::Table::first_taken))]
    fn first_taken<'n>(&self, fields: &'n str) -> Option<&'n str>
        ensures { option_map (λ name. name.now) result
            ≡ first_taken self.now (names_among (fields_of fields.entry.now)) }
    {
        let mut rest = fields;
        while let Some((name, behind)) = next_name(rest) {
            if self.is_taken(name, behind) {
                return Some(name);
            }
            rest = behind;
        }
        None
    }

    /// Adds an own entry; a refusal names the word.
    #[tactic(auto, unfolding(crate::specs::Table::with_self))]
    fn add_self(&mut self, word: &'a str, host: Host<'a>) -> Result<(), Refusal<'a>>
        ensures ok { OnOk result (with_self self.old word.entry.now (host_view host.entry) ≡ Ok self.new) }
        ensures err { IfErr result (λ refusal.
            with_self self.old word.entry.now (host_view host.entry) ≡ Err (refusal_view refusal)) }
    {
        if self.selves.is_full() {
            return Err(Refusal::new(Reason::TooManySelves, word));
        }
        self.selves.push(host);
        Ok(())
    }

    /// Adds another host; a refusal names the word.
    #[tactic(auto, unfolding(crate::specs::Table::with_other))]
    fn add_other(&mut self, word: &'a str, host: Host<'a>) -> Result<(), Refusal<'a>>
        requires { knows self.old host.address ≡ false }
        ensures ok { OnOk result (with_other self.old word.entry.now (host_view host.entry) ≡ Ok self.new) }
        ensures err { IfErr result (λ refusal.
            with_other self.old word.entry.now (host_view host.entry) ≡ Err (refusal_view refusal)) }
    {
        if self.hosts.is_full() {
            return Err(Refusal::new(Reason::TooManyHosts, word));
        }
        add_peer(&mut self.peers, &host);
        self.hosts.push(host);
        Ok(())
    }

    /// Adds a host whose first field is this word.
    #[tactic(auto, unfolding(crate::specs::Table::with_host, crate::specs::Table::with_named))]
    fn add_host(&mut self, word: &'a str, host: Host<'a>) -> Result<(), Refusal<'a>>
        ensures ok { OnOk result (with_host self.old word.entry.now (host_view host.entry) ≡ Ok self.new) }
        ensures err { IfErr result (λ refusal.
            with_host self.old word.entry.now (host_view host.entry) ≡ Err (refusal_view refusal)) }
    {
        if self.knows(host.address) {
            return Err(Refusal::new(Reason::AddressTwice, word));
        }
        if let Some(name) = self.first_taken(host.fields) {
            return Err(Refusal::new(Reason::NameTwice, name));
        }
        if host.is_own() {
            self.add_self(word, host)
        } else {
            self.add_other(word, host)
        }
    }

    /// Sets the bridge, whose first field is this word.
    #[tactic(auto, unfolding(crate::specs::Table::with_bridge))]
    fn add_bridge(&mut self, word: &'a str, socket: SocketAddrV4) -> Result<(), Refusal<'a>>
        ensures ok { OnOk result (with_bridge self.old word.entry.now socket ≡ Ok self.new) }
        ensures err { IfErr result (λ refusal.
            with_bridge self.old word.entry.now socket ≡ Err (refusal_view refusal)) }
    {
        if self.bridge().is_some() {
            return Err(Refusal::new(Reason::SecondBridge, word));
        }
        self.peers.set_bridge(socket);
        Ok(())
    }

    /// Takes in what a line writes.
    #[tactic(auto, unfolding(crate::specs::Table::with_line))]
    fn add_line(&mut self, line: &'a str) -> Result<(), Refusal<'a>>
        ensures ok { OnOk result (with_line self.old line.entry.now ≡ Ok self.new) }
        ensures err { IfErr result (λ refusal.
            with_line self.old line.entry.now ≡ Err (refusal_view refusal)) }
    {
        let Some((word, fields)) = next_field(before_comment(line)) else {
            return Ok(());
        };
        if is_star(word) {
            let socket = bridge_in(word, fields)?;
            self.add_bridge(word, socket)
        } else {
            let host = host_in(word, fields)?;
            self.add_host(word, host)
        }
    }

    /// The table that a text writes. Lines end with LF, before which a CR is dropped.
    ///
    /// # Errors
    /// The first bad line, by its number, with the word at fault and the reason.
    #[tactic(auto, unfolding(crate::specs::Table::table_of))]
    pub fn read(text: &'a str) -> Result<HostsTable<'a>, TableFault<'a>>
        // The result is the table that the lines of the text write one after the other, or the
        // number of the first bad line, with the word and the reason.
        ensures { result_map_both (λ table. table) fault_view result ≡ table_of text.entry.now }
    {
        let mut table = HostsTable::new();
        let mut number = 0;
        for line in text.lines() {
            number += 1;
            match table.add_line(line) {
                Ok(()) => {}
                Err(refusal) => {
                    return Err(TableFault {
                        line: number,
                        refusal,
                    });
                }
            }
        }
        Ok(table)
    }

    /// The addresses of the other hosts that have no UDP address.
    #[tactic(auto, unfolding(crate::specs::Table::followed_of))]
    pub fn followed(&self) -> ArrayVec<u16, MAX_PEERS>
        // The addresses are those of the other hosts without a UDP address, in the order of their
        // lines.
        ensures { result.items ≡ followed_of self.now }
    {
        followed_among(&self.hosts)
    }
}

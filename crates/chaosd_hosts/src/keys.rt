//! The keys of a table, and of the table that is read behind it.
ghost use Rattle.std.specs.Prelude.{◌≡◌, map, option_map};
ghost use Rattle.chaosd_hosts.specs.Keys.{are_keyed, has_keys_of, is_alike, is_same_file, is_sealed, keeps_keys, key_at};
ghost use Rattle.chaosd_hosts.specs.Table.{host_view};

use crate::host::Host;
use crate::table::HostsTable;

/// The key file of the host with this address, if there is such a host and it has one.
fn key_at<'a>(address: u16, hosts: &[Host<'a>]) -> Option<&'a str>
    ensures { option_map (λ file. file.now) result ≡ key_at address (map host_view hosts.now) }
{
    for host in hosts {
        if host.address == address {
            return host.key;
        }
    }
    None
}

/// Whether these are one file, or both none.
fn is_same_file(file: Option<&str>, other: Option<&str>) -> bool
    ensures { result ≡ is_same_file (option_map (λ file. file.now) file.entry)
        (option_map (λ file. file.now) other.entry) }
{
    match (file, other) {
        (None, None) => true,
        (Some(file), Some(other)) => file == other,
        _ => false,
    }
}

/// Whether each of these hosts has the same key file among the others, or no key in both.
fn keeps_keys(hosts: &[Host], others: &[Host]) -> bool
    ensures { result ≡ keeps_keys (map host_view hosts.now) (map host_view others.now) }
{
    for host in hosts {
        if !is_same_file(host.key, key_at(host.address, others)) {
            return false;
        }
    }
    true
}

/// Whether each of these hosts has a key.
fn are_keyed(hosts: &[Host]) -> bool
    ensures { result ≡ are_keyed (map host_view hosts.now) }
{
    for host in hosts {
        if host.key.is_none() {
            return false;
        }
    }
    true
}

/// Whether both are so, or neither.
fn is_alike(one: bool, other: bool) -> bool
    ensures { result ≡ is_alike one other }
{
    if one { other } else { !other }
}

impl HostsTable<'_> {
    /// Whether all that is to be heard is sealed: there are other hosts, each has a key, and there
    /// is no bridge.
    #[tactic(auto, unfolding(crate::specs::Keys::is_sealed))]
    pub fn is_sealed(&self) -> bool
        // The result is true exactly where there is another host, each of them has a key, and the
        // table has no bridge.
        ensures { result ≡ is_sealed self.now }
    {
        !self.hosts().is_empty() && self.bridge().is_none() && are_keyed(self.hosts())
    }

    /// Whether the hosts have the same keys in this table and in another one, and both tables are
    /// sealed or neither.
    #[tactic(auto, unfolding(crate::specs::Keys::has_keys_of))]
    pub fn has_keys_of(&self, other: &HostsTable<'_>) -> bool
        // The result is true exactly where each host of one of the tables has in the other the same
        // key file, or no key in both, and both tables are sealed or neither is.
        ensures { result ≡ has_keys_of self.now other.now }
    {
        is_alike(self.is_sealed(), other.is_sealed())
            && keeps_keys(self.hosts(), other.hosts())
            && keeps_keys(other.hosts(), self.hosts())
    }
}

//! A host of a table.
ghost use Rattle.std.specs.Prelude.{◌≡◌, ◌≤◌, length, map};
ghost use Rattle.std.specs.List.{filter_map, find, list_any};
ghost use Rattle.chaos_link.specs.declared.limits.TheConstants.{MAX_PEERS};
ghost use Rattle.chaosd_hosts.specs.Fields.{fields_of, names_among};
ghost use Rattle.chaosd_hosts.specs.Names.{is_own_name, is_same_name};
ghost use Rattle.chaosd_hosts.specs.Table.{followed_address, has_address, has_name, host_view};

use crate::fields::has_name;
use crate::names::OWN_NAME;
use arrayvec::ArrayVec;
use chaos_link::MAX_PEERS;
use std::net::SocketAddrV4;

/// The most own entries of a table.
pub const MAX_SELVES: usize = 8;

/// A host of a table. Its names and its key file are lent from the text of the table.
#[derive(Clone, Copy, Debug)]
pub struct Host<'a> {
    /// The Chaosnet address.
    pub address: u16,
    /// The UDP address; none where the table has a `*`.
    pub udp: Option<SocketAddrV4>,
    /// The fields behind the UDP address as they stand on the line, separated by spaces and tabs:
    /// names, and a key file if the host has one.
    pub fields: &'a str,
    /// The name of the file that has the key of this host and the table's own, where the two have
    /// one.
    pub key: Option<&'a str>,
}

/// Stands in the places of a table that hold no host yet: address 0, which no host has, without
/// names.
impl Default for Host<'_> {
    fn default() -> Self {
        Host {
            address: 0,
            udp: None,
            fields: "",
            key: None,
        }
    }
}

impl Host<'_> {
    /// Whether the host has this name; case doesn't count.
    pub fn has_name(&self, name: &str) -> bool
        // The result is true exactly where one of the host's names is this one, in capital or small
        // letters.
        ensures { result ≡ list_any (is_same_name name.now) (names_among (fields_of self.now.fields.now)) }
    {
        has_name(self.fields, name)
    }

    /// Whether the host is this one: one of its names is `self`.
    pub fn is_own(&self) -> bool
        // The result is true exactly where one of the names is `self`, in capital or small letters.
        ensures { result ≡ list_any is_own_name (names_among (fields_of self.now.fields.now)) }
    {
        has_name(self.fields, OWN_NAME)
    }
}

/// The first of these hosts that has this name.
pub(crate) fn find_named<'a>(hosts: &[Host<'a>], name: &str) -> Option<Host<'a>>
    ensures { result ≡ find (λ host. has_name name.now (host_view host)) hosts.now }
{
    for host in hosts {
        if host.has_name(name) {
            return Some(*host);
        }
    }
    None
}

/// Whether one of these hosts has this Chaosnet address.
pub(crate) fn has_address(hosts: &[Host], address: u16) -> bool
    ensures { result ≡ list_any (λ host. has_address address (host_view host)) hosts.now }
{
    hosts.iter().any(|host| host.address == address)
}

/// The Chaosnet addresses of the hosts that have no UDP address.
pub(crate) fn followed_among(hosts: &[Host]) -> ArrayVec<u16, MAX_PEERS>
    requires { length hosts.now ≤ MAX_PEERS }
    ensures { result.items ≡ filter_map followed_address (map host_view hosts.now) }
{
    let mut followed = ArrayVec::new();
    for host in hosts {
        if host.udp.is_none() {
            followed.push(host.address);
        }
    }
    followed
}

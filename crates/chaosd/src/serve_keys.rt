//! The keys of `serve`.
ghost use Rattle.std.specs.Prelude.{◌≡◌, ◌++◌, IfOk, is_some, map, option_map};
ghost use Rattle.std.specs.List.{filter_map};
ghost use Rattle.chaosd_hosts.specs.Table.{host_view};
ghost use Rattle.chaosd.specs.ServeKeys.{hosts_of, is_sealed_by, keyed_address, keyed_hosts, sealed_peers};

use chaos_link::Peer;
use chaosd_call::{ExitStatus, HostKey, Key, TableFile, key_of_host, key_of_line, report_unopened};
use chaosd_hosts::{Host, HostsTable};
use chaosd_line::{Framing, ServeEnds};
use std::alloc::AllocError;
use std::fs::{File, Files};
use std::io;

/// Reports that there is no memory for keys. The result is the status.
fn report_full<R: Eprint>(rt: &R, error: AllocError) -> ExitStatus {
    report_unopened(rt, &"the keys", &io::Error::from(error))
}

/// This key as that of each of these peers, and of each of these hosts that are followed.
fn keys_for<R: AllocGlobal>(
    rt: &R,
    key: Key,
    peers: &[Peer],
    followed: &[u16],
) -> Result<Vec<HostKey>, AllocError>
    ensures { IfOk result (λ keys. hosts_of keys.items
        ≡ map (λ peer. peer.address) peers.now ++ followed.now) }
{
    let mut keys = Vec::new(rt.alloc());
    for peer in peers {
        let address = peer.address;
        keys.push(HostKey { address, key })?;
    }
    for address in followed {
        let address = *address;
        keys.push(HostKey { address, key })?;
    }
    Ok(keys)
}

/// The hosts that have these keys. That there is no memory is reported, and the error is the status.
pub(crate) fn keyed_of<R: AllocGlobal + Eprint>(
    rt: &R,
    keys: &[HostKey],
) -> Result<Vec<u16>, ExitStatus>
    // The hosts are those of the keys, in the order of the keys.
    ensures { IfOk result (λ hosts. hosts.items ≡ hosts_of keys.now) }
{
    let mut hosts = Vec::new(rt.alloc());
    for key in keys {
        if let Err(error) = hosts.push(key.address) {
            return Err(report_full(rt, AllocError::from(error)));
        }
    }
    Ok(hosts)
}

/// The keys of a server with these ends, of whose line this is the file of the key. A file that
/// gives no key is reported, and the error is the status.
pub(crate) fn keys_of_line<R>(
    rt: &R,
    file: Option<&str>,
    ends: &ServeEnds,
) -> Result<Vec<HostKey>, ExitStatus>
where
    R: AllocGlobal + Eprint + Files<File = File>,
    // With a file each peer and each host that is followed has a key, and without a file nobody.
    ensures { IfOk result (λ keys. hosts_of keys.items
        ≡ sealed_peers (option_map (λ t. t.now) file.entry) ends.now.peers ends.now.followed.items) }
{
    let Some(key) = key_of_line(rt, file)? else {
        return Ok(Vec::new(rt.alloc()));
    };
    match keys_for(rt, key, ends.peers.hosts(), ends.followed.as_slice()) {
        Ok(keys) => Ok(keys),
        Err(error) => Err(report_full(rt, error)),
    }
}

/// Whether all that a server with these ends is to hear is sealed, by the file of the key that its
/// line names: each of its hosts has that key, and there is no bridge to others.
pub(crate) fn is_sealed_line(file: Option<&str>, ends: &ServeEnds) -> bool
    // The result is true exactly where the line names a key, and no bridge.
    ensures { result ≡ is_sealed_by (is_some file.entry) (is_some ends.now.peers.bridge) }
{
    file.is_some() && ends.peers.bridge().is_none()
}

/// The keys of these hosts of the table that this file has.
fn keys_among<R>(
    rt: &R,
    file: &TableFile,
    hosts: &[Host<'_>],
    framing: Framing,
) -> Result<Vec<HostKey>, ExitStatus>
where
    R: AllocGlobal + Eprint + Files<File = File>,
    ensures { IfOk result (λ keys. hosts_of keys.items
        ≡ filter_map keyed_address (map host_view hosts.now)) }
{
    let mut keys = Vec::new(rt.alloc());
    for host in hosts {
        let address = host.address;
        let Some(key) = key_of_host(rt, file, host, framing)? else {
            continue;
        };
        if let Err(error) = keys.push(HostKey { address, key }) {
            return Err(report_full(rt, AllocError::from(error)));
        }
    }
    Ok(keys)
}

/// The keys of a server whose hosts are in this table, which this file has. A file of a key that
/// gives none is reported, and the error is the status.
pub(crate) fn keys_of_table<R>(
    rt: &R,
    file: &TableFile,
    table: &HostsTable<'_>,
    framing: Framing,
) -> Result<Vec<HostKey>, ExitStatus>
where
    R: AllocGlobal + Eprint + Files<File = File>,
    // Of the other hosts exactly those have a key that have one in the table, in the order of the
    // lines.
    ensures { IfOk result (λ keys. hosts_of keys.items ≡ keyed_hosts table.now) }
{
    keys_among(rt, file, table.hosts(), framing)
}

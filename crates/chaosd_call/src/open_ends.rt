//! The ends of a call: the socket at this host's own end, and the server.
ghost use Rattle.std.specs.Prelude.{◌≡◌, IfErr, IfOk, Ok, string_bytes};
ghost use Rattle.chaosd_hosts.specs.Table.{table_of};
ghost use Rattle.chaosd_call.specs.Called.{IsNamed, IsServerIn, LeadsTo};
ghost use Rattle.chaosd_call.specs.Exit.{IsFailure};

use crate::exit_status::ExitStatus;
use crate::keys::{Key, key_in, key_of_host, key_of_line};
use crate::run_ends::report_unopened;
use crate::table_file::{TableFile, find_table};
use chaos_file::PrintedName;
use chaos_link::Peer;
use chaosd_hosts::{Host, HostsTable};
use chaosd_line::{Calling, Ends, Framing, Target};
use std::fmt::Display;
use std::fs::{File, Files};
use std::io;
use std::io::ErrorKind;
use std::net::{Ipv4Addr, Net, SocketAddr, SocketAddrV4, UdpSocket};
use std::rt::Env;

/// What a line that calls a host says of its datagrams, and where to look for the host.
#[derive(Clone, Copy)]
pub struct CallWords<'a> {
    /// How packets stand in datagrams.
    pub framing: Framing,
    /// The file of the key that this host and the other one have, where it is given. It stands for
    /// the file that the hosts table names.
    pub key: Option<&'a str>,
    /// The hosts table, where it is given.
    pub hosts: Option<&'a str>,
}

/// The ends of a call, the key of the two hosts, and the socket at this host's own end.
#[derive(Drop)]
pub struct OpenEnds {
    /// The ends.
    pub ends: Ends,
    /// The key that this host and the server have, if they have one.
    pub key: Option<Key>,
    /// The socket, which is bound to the UDP address of this host's end.
    pub socket: UdpSocket,
}

/// Reports a mistake in the hosts table, or in what a line needs of the table. The result is the
/// status.
pub fn report_table<R: Eprint, D: Display>(rt: &R, file: &str, mistake: &D) -> ExitStatus
    // The status is that of a bad line.
    ensures { result ≡ ExitStatus.BadLine }
{
    let _ = eprintln!(rt; "chaosd: {}: {mistake}", PrintedName(file));
    ExitStatus::BadLine
}

/// The file of the hosts table of a line. That there is none is reported, and the error is the
/// status.
pub fn table_of_line<R>(rt: &R, hosts: Option<&str>) -> Result<TableFile, ExitStatus>
where
    R: AllocGlobal + Env + Eprint + Files<File = File>,
    // The error is never the status Done.
    ensures { IfErr result IsFailure }
{
    match find_table(rt, hosts) {
        Ok(file) => Ok(file),
        Err(why) => {
            let _ = eprintln!(rt; "chaosd: {why}");
            Err(why.status())
        }
    }
}

/// The hosts table that a file has. A mistake in the table is reported, and the error is the status.
pub fn hosts_in<'t, R: Eprint>(rt: &R, file: &'t TableFile) -> Result<HostsTable<'t>, ExitStatus>
    // The table is the one that the text of the file writes.
    ensures table { IfOk result (λ table. table_of (string_bytes file.entry.now.text) ≡ Ok table) }
    // The error is never the status Done.
    ensures failed { IfErr result IsFailure }
{
    match HostsTable::read(file.text.as_str()) {
        Ok(table) => Ok(table),
        Err(fault) => Err(report_table(rt, file.name.as_str(), &fault)),
    }
}

/// A socket at this UDP address, whose port the system chooses where it is 0, and where the socket
/// is.
fn bind_at<R: Net>(rt: &R, asked: SocketAddrV4) -> io::Result<(UdpSocket, SocketAddrV4)> {
    let socket = UdpSocket::bind(rt, SocketAddr::V4(asked))?;
    match socket.local_addr()? {
        SocketAddr::V4(at) => Ok((socket, at)),
        SocketAddr::V6(_) => Err(io::Error::from(ErrorKind::AddrNotAvailable)),
    }
}

/// The server of this name: its UDP address is its own, or the bridge's where the table has none.
fn server_in<R: Eprint>(
    rt: &R,
    file: &str,
    table: &HostsTable<'_>,
    name: &str,
) -> Result<Peer, ExitStatus>
    ensures server { IfOk result (IsServerIn table.now name.now) }
    ensures failed { IfErr result IsFailure }
{
    let Some(host) = table.find(name) else {
        return Err(report_table(rt, file, &format_args!("there is no host {name}")));
    };
    match host.udp.or(table.bridge()) {
        Some(socket) => Ok(Peer {
            address: host.address,
            socket,
        }),
        None => Err(report_table(
            rt,
            file,
            &format_args!("{name} has no UDP address, and there is no bridge"),
        )),
    }
}

/// Reports that none of this host's own entries can be used. The result is the status.
fn report_no_self<R: Eprint>(rt: &R, file: &str, taken: Option<io::Error>) -> ExitStatus
    ensures { IsFailure result }
{
    let Some(error) = taken else {
        return report_table(
            rt,
            file,
            &"there is no entry self of another address than the server's",
        );
    };
    let _ = eprintln!(rt;
        "chaosd: {}: each entry self is in use: {error}",
        PrintedName(file)
    );
    ExitStatus::Fault
}

/// The first of this host's own entries whose UDP address is free, and a socket there.
fn open_own<R: Eprint + Net>(
    rt: &R,
    file: &str,
    selves: &[Host<'_>],
    server: Peer,
) -> Result<(Ends, UdpSocket), ExitStatus>
    ensures server { IfOk result (λ opened. opened.0.server ≡ server) }
    ensures failed { IfErr result IsFailure }
{
    let mut taken = None;
    for own in selves {
        let asked = own
            .udp
            .unwrap_or(SocketAddrV4::new(Ipv4Addr::UNSPECIFIED, 0));
        match bind_at(rt, asked) {
            Ok((socket, at)) => {
                if let Some(ends) = Ends::new(own.address, at, server) {
                    return Ok((ends, socket));
                }
            }
            Err(error) if error.kind() == ErrorKind::AddrInUse => taken = Some(error),
            Err(error) => return Err(report_unopened(rt, &asked, &error)),
        }
    }
    Err(report_no_self(rt, file, taken))
}

/// Opens this host's end of a call of the server with this name in the hosts table. What is missing
/// is reported, and the error is the status.
pub fn open_named<R>(rt: &R, name: &str, words: CallWords<'_>) -> Result<OpenEnds, ExitStatus>
where
    R: AllocGlobal + Env + Eprint + Files<File = File> + Net,
    // The server of the call is the host with this name in a table that some text writes: at the
    // host's UDP address, or at the bridge's where the table has none for the host.
    ensures server { IfOk result (λ opened. IsNamed name.now opened.ends.server) }
    // The error is never the status Done.
    ensures failed { IfErr result IsFailure }
{
    let file = table_of_line(rt, words.hosts)?;
    let table = hosts_in(rt, &file)?;
    let server = server_in(rt, file.name.as_str(), &table, name)?;
    let key = match (words.key, table.find(name)) {
        (Some(given), _) => Some(key_in(rt, given)?),
        (None, Some(host)) => key_of_host(rt, &file, &host, words.framing)?,
        (None, None) => None,
    };
    let (ends, socket) = open_own(rt, file.name.as_str(), table.selves(), server)?;
    Ok(OpenEnds { ends, key, socket })
}

/// Opens this host's end of a call. What is missing is reported, and the error is the status.
pub fn open_ends<R>(rt: &R, calling: &Calling<'_>) -> Result<OpenEnds, ExitStatus>
where
    R: AllocGlobal + Env + Eprint + Files<File = File> + Net,
    // The call has the ends that the line has, or its server is the host with the line's name.
    ensures leads { IfOk result (λ opened. LeadsTo calling.now.target opened.ends) }
    // The error is never the status Done.
    ensures failed { IfErr result IsFailure }
{
    let words = CallWords {
        framing: calling.framing,
        key: calling.key,
        hosts: calling.hosts,
    };
    let ends = match calling.target {
        Target::Name(name) => return open_named(rt, name, words),
        Target::Addresses(ends) => ends,
    };
    let key = key_of_line(rt, words.key)?;
    match UdpSocket::bind(rt, SocketAddr::V4(ends.socket)) {
        Ok(socket) => Ok(OpenEnds { ends, key, socket }),
        Err(error) => Err(report_unopened(rt, &ends.socket, &error)),
    }
}

//! The run of `loop`.
use crate::script_ends::end_script;
use chaos_link::{Carriage, Peer, UdpLink};
use chaosd_ask::{LOOP_CLIENT, LOOP_SERVER, Notes, run_loop};
use chaosd_call::{ExitStatus, has_input, link_to, report_unopened};
use chaosd_io::RunFault;
use std::io;
use std::net::{Ipv4Addr, Net, SocketAddr, SocketAddrV4, UdpSocket};

/// A socket of this machine alone, at a port that the system chooses, and its UDP address.
fn own_socket<R: Net>(rt: &R) -> io::Result<(UdpSocket, SocketAddrV4)> {
    let any_port = SocketAddrV4::new(Ipv4Addr::LOCALHOST, 0);
    let socket = UdpSocket::bind(rt, SocketAddr::V4(any_port))?;
    match socket.local_addr()? {
        SocketAddr::V4(at) => Ok((socket, at)),
        SocketAddr::V6(_) => Err(io::Error::from(io::ErrorKind::AddrNotAvailable)),
    }
}

/// The links of the client and of the server in `loop`, each with the other as its one peer.
fn own_links<R: Net>(rt: &R) -> io::Result<(UdpLink, UdpLink)> {
    let (near, near_at) = own_socket(rt)?;
    let (far, far_at) = own_socket(rt)?;
    let to_server = Peer {
        address: LOOP_SERVER,
        socket: far_at,
    };
    let to_client = Peer {
        address: LOOP_CLIENT,
        socket: near_at,
    };
    Ok((link_to(near, to_server), link_to(far, to_client)))
}

/// Runs `loop` from standard input to standard output.
#[inline(never)]
pub(crate) fn run_loop_line<R: AllocGlobal + Eprint + Input + Net + Print>(
    rt: &R,
    carriage: Carriage,
) -> ExitStatus {
    if !has_input(rt) {
        return end_script(rt, &Err(RunFault::ReadFault), &Notes::new());
    }
    let (mut near, mut far) = match own_links(rt) {
        Ok(links) => links,
        Err(error) => return report_unopened(rt, &"a socket of this machine", &error),
    };
    let mut notes = Notes::new();
    let end = run_loop(
        rt.alloc(),
        &mut rt.reader(),
        &mut io::writer(rt),
        &mut near,
        &mut far,
        &mut notes,
        carriage,
    );
    end_script(rt, &end, &notes)
}

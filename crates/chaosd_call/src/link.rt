//! The link of a client to its server, over a socket.
ghost use Rattle.std.specs.Prelude.{◌≡◌, IfErr, IfOk, is_some, option_map};
ghost use Rattle.chaosd_call.specs.Exit.{IsFailure};
ghost use Rattle.chaosd_call.specs.Hearing.{alone_heard};
ghost use Rattle.chaosd_call.specs.Key.{SealsWith, keys_with};

use crate::exit_status::ExitStatus;
use crate::keys::{HostKey, Key};
use crate::open_ends::OpenEnds;
use crate::peer_socket::PeerSocket;
use crate::seal_words::SealWords;
use crate::seals::seals_of;
use crate::waiting::Waiting;
use chaos_link::{Peer, Peers, UdpLink};
use chaos_node::ReadableClock;
use chaos_sealed_socket::SealedSocket;
use std::net::SocketAddrV4;

/// A client's socket, which seals over the socket within what goes to its server.
pub type ClientSocket<'a, R, S> = SealedSocket<S, SealWords<'a, R>>;

/// The link of a client to its server, over which packets go in the program's own datagrams.
pub type OwnLink<'a, R> = UdpLink<ClientSocket<'a, R, PeerSocket<'a, R>>>;

/// A link over the socket of a call, to its server. The client's wait notes how each send went. That
/// the clock can't be read is reported, and the error is the status.
pub fn link_to_server<'a, R: AllocGlobal + ReadableClock + Eprint>(
    rt: &'a R,
    waiting: &'a Waiting<'a, R>,
    opened: OpenEnds,
    hears_anybody: bool,
) -> Result<OwnLink<'a, R>, ExitStatus>
    // The error is never the status Done.
    ensures { IfErr result IsFailure }
{
    let OpenEnds { ends, key, socket } = opened;
    let heard = heard_alone(ends.server, hears_anybody);
    let socket = PeerSocket::new(rt, waiting, socket, heard);
    let sealed = sealed_to(rt, socket, ends.address, ends.server.address, key)?;
    Ok(link_to(sealed, ends.server))
}

/// A client's socket that seals, over this socket, what goes to its server, if the two have a key.
/// That the clock can't be read is reported, and the error is the status.
pub fn sealed_to<R: AllocGlobal + ReadableClock + Eprint, S: Drop>(
    rt: &R,
    socket: S,
    me: u16,
    server: u16,
    key: Option<Key>,
) -> Result<ClientSocket<'_, R, S>, ExitStatus>
    // The socket is over the given socket.
    ensures socket { IfOk result (λ sealed. sealed.socket ≡ socket) }
    // It seals with the key, if there is one, what goes to the server, and nothing else. With a key
    // it hears nobody in clear.
    ensures seals { IfOk result (λ sealed.
        SealsWith (R.dates rt.now) me (keys_with server key) (is_some key) sealed.sealing.seals) }
    // The error is never the status Done.
    ensures failed { IfErr result IsFailure }
{
    let seals = match key {
        Some(key) => seals_of(
            rt,
            me,
            &[HostKey {
                address: server,
                key,
            }],
            true,
        )?,
        None => seals_of(rt, me, &[], false)?,
    };
    Ok(SealedSocket::new(socket, seals, SealWords::new(rt, me)))
}

/// The UDP address that a client hears alone.
pub fn heard_alone(server: Peer, hears_anybody: bool) -> Option<SocketAddrV4>
    // The address is the server's. There is none where anybody is to be heard.
    ensures { result ≡ alone_heard server hears_anybody }
{
    if hears_anybody {
        None
    } else {
        Some(server.socket)
    }
}

/// A link over this socket, to one peer.
pub fn link_to<S>(socket: S, peer: Peer) -> UdpLink<S> {
    let mut peers = Peers::new();
    let _ = peers.add(peer);
    UdpLink::new(socket, peers)
}

//! Addresses as texts write them: those of Chaosnet in octal, those of UDP as `a.b.c.d:port`, and
//! both joined by `=`.
ghost use Rattle.std.specs.Prelude.{◌≡◌, ◌<◌, IfSome, option_map};
ghost use Rattle.chaosd_hosts.specs.Addresses.{address_of, bridge_of, peer_of, port_of, sides_of, socket_of, socket_read};
ghost use Rattle.chaosd_hosts.specs.Numbers.{is_padded};

use crate::numbers::{is_padded, number_of};
use chaos_link::Peer;
use std::net::SocketAddrV4;

/// What a message says that it expected of a Chaosnet address.
pub const ADDRESS_FORM: &str = "1 to 6 octal digits, from 1 to 177777";

/// What a message says that it expected of a UDP address.
pub const SOCKET_FORM: &str =
    "a.b.c.d:port in decimal, without leading zeros, with a port from 1 to 65535";

/// The most digits of a Chaosnet address.
const ADDRESS_DIGITS: usize = 6;

/// The Chaosnet address that one to six octal digits write, from 1 to 177777.
#[tactic(auto, unfolding(crate::specs::Addresses::address_of))]
pub fn address_of(text: &str) -> Option<u16>
    // The text is one to six octal digits of a number from 1 to 65535; every other text is refused.
    ensures value { result ≡ address_of text.now }
    // No host has the address 0.
    ensures fits { IfSome result (λ address. 0 < address) }
{
    if text.len() > ADDRESS_DIGITS {
        return None;
    }
    Some(number_of(text, 8, 1, u64::from(u16::MAX))? as u16)
}

/// Whether the port behind the first colon is written with a leading zero too many.
fn has_padded_port(text: &str) -> bool
    ensures { result ≡ is_padded (port_of text.now) }
{
    match text.split_once(':') {
        Some((_, port)) => is_padded(port),
        None => false,
    }
}

/// The UDP address that std reads.
fn read_socket(text: &str) -> Option<SocketAddrV4>
    ensures { result ≡ socket_read text.now }
{
    text.parse::<SocketAddrV4>().ok()
}

/// The UDP address that `a.b.c.d:port` writes.
#[tactic(auto, unfolding(crate::specs::Addresses::socket_of))]
pub fn socket_of(text: &str) -> Option<SocketAddrV4>
    // The text is a UDP address in decimal without leading zeros, with a port from 1 on; every
    // other text is refused.
    ensures { result ≡ socket_of text.now }
{
    if has_padded_port(text) {
        return None;
    }
    let socket = read_socket(text)?;
    if socket.port() > 0 {
        Some(socket)
    } else {
        None
    }
}

/// What stands before the first `=`, and what stands behind it.
#[tactic(auto, unfolding(crate::specs::Addresses::sides_of))]
pub fn sides_of(text: &str) -> Option<(&str, &str)>
    // The text is parted at its first `=`; a text without one is refused.
    ensures { option_map (λ sides. (sides.0.now, sides.1.now)) result ≡ sides_of text.now }
{
    text.split_once('=')
}

/// Another host, which a Chaosnet address, `=` and a UDP address write.
#[tactic(auto, unfolding(crate::specs::Addresses::peer_of))]
pub fn peer_of(text: &str) -> Option<Peer>
    // The text is a Chaosnet address, `=` and a UDP address; every other text is refused.
    ensures { result ≡ peer_of text.now }
{
    let (left, right) = sides_of(text)?;
    let address = address_of(left)?;
    let socket = socket_of(right)?;
    Some(Peer { address, socket })
}

/// The UDP address of a bridge, which a star, `=` and a UDP address write.
#[tactic(auto, unfolding(crate::specs::Addresses::bridge_of))]
pub fn bridge_of(text: &str) -> Option<SocketAddrV4>
    // The text is a star, `=` and a UDP address; every other text is refused.
    ensures { result ≡ bridge_of text.now }
{
    let (left, right) = sides_of(text)?;
    if left != "*" {
        return None;
    }
    socket_of(right)
}

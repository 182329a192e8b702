//! The datagram that is sent again.
ghost use Rattle.std.specs.Prelude.{◌≡◌, ◌≤◌, IfSome, None, Some, length};
ghost use Rattle.chaos_sealed_socket.specs.Socket.{recent_to};

use crate::header::destination;
use chaos_seal::MAX_PAYLOAD;
use std::marker::Model;
use std::net::SocketAddrV4;

/// The datagram that was sealed last, in clear, and the UDP address that it went to, where there is
/// one. Its bytes have room of their own.
#[derive(Drop)]
pub(crate) struct Recent {
    bytes: [u8; MAX_PAYLOAD],
    count: usize,
    to: Option<SocketAddrV4>,
}

impl Model for Recent {
    ghost use Rattle.std.specs.Prelude.{◌≤◌, Option, option_map, take};
    ghost use Rattle.chaos_link.specs.Udp.{Outgoing};
    ghost use Rattle.chaos_seal.specs.declared.limits.TheConstants.{MAX_PAYLOAD};

    ghost Value = { Option Outgoing };

    ghost view = { λ recent.
        option_map (λ to. record { to = to; bytes = take recent.count recent.bytes }) recent.to };

    ghost invariant = { λ recent. recent.count ≤ MAX_PAYLOAD };
}

impl Recent {
    /// No datagram.
    pub(crate) fn new() -> Self
        ensures { result ≡ None }
    {
        Recent {
            bytes: [0; MAX_PAYLOAD],
            count: 0,
            to: None,
        }
    }

    /// Keeps this datagram in place of the last, by a copy.
    pub(crate) fn keep(&mut self, bytes: &[u8], to: SocketAddrV4)
        requires { length bytes.now ≤ MAX_PAYLOAD }
        ensures { self.new ≡ Some (record { to = to; bytes = bytes.now }) }
    {
        self.bytes[..bytes.len()].copy_from_slice(bytes);
        self.count = bytes.len();
        self.to = Some(to);
    }

    /// The UDP address that it went to, if it is for this host.
    pub(crate) fn to_host(&self, host: u16) -> Option<SocketAddrV4>
        ensures { result ≡ recent_to host self.now }
    {
        let to = self.to?;
        if destination(&self.bytes[..self.count]) == Some(host) {
            Some(to)
        } else {
            None
        }
    }

    /// Its bytes, and none where there is no datagram.
    pub(crate) fn bytes(&self) -> &[u8]
        ensures long { length result.now ≤ MAX_PAYLOAD }
        ensures bytes { IfSome self.now (λ datagram. result.now ≡ datagram.bytes) }
    {
        &self.bytes[..self.count]
    }
}

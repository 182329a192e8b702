//! The stream of one of a host's connections.
ghost use Rattle.std.specs.Prelude.{◌≡◌};

use chaos_host::ConnId;
use chaos_packet::MAX_DATA;
use std::marker::Model;

/// The byte stream of one of a host's connections: the connection's own index, and a place in the
/// item that it has in front. A contract sees both.
///
/// The host is lent to each call. [`HostStream::put_bytes`] and [`HostStream::put_eof`] write.
/// [`HostStream::peek`] lends what comes next, and [`HostStream::consume`] passes over it. Each
/// call changes this connection alone. If the host has no connection of this index, the answer is
/// `NoSuchConnection`, and nothing changes.
///
/// Read a connection through one value alone, made when the connection begins. A place past the end
/// of the item in front counts as its end.
#[derive(Debug, Drop)]
pub struct HostStream {
    pub(crate) id: ConnId,
    /// How many bytes of the item in front are consumed.
    pub(crate) place: usize,
}

impl Model for HostStream {
    ghost use Rattle.std.specs.Prelude.{◌≤◌};
    ghost use Rattle.chaos_packet.specs.declared.limits.TheConstants.{MAX_DATA};
    ghost use Rattle.chaos_stream.specs.HostStream.{StreamView};

    ghost Value = { StreamView };

    ghost view = { λ s. record { id = s.id; place = s.place } };

    ghost invariant = { λ s. s.place ≤ MAX_DATA };
}

impl HostStream {
    /// The stream of a connection that begins.
    pub fn new(id: ConnId) -> Self
        // A stream begins at the front of an item of the connection with the given index.
        ensures { result ≡ record { id = id; place = 0 } }
    {
        HostStream { id, place: 0 }
    }

    /// The connection's own index.
    pub fn id(&self) -> ConnId
        // This is the index that the stream was made with.
        ensures { result ≡ self.now.id }
    {
        self.id
    }
}

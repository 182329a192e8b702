//! Where a datagram goes.
ghost use Rattle.std.specs.Prelude.{◌≡◌};
ghost use Rattle.chaos_sealed_socket.specs.Socket.{destination_of};

/// The destination of the first packet of a datagram of version 1 or 2: its bytes 8 and 9.
#[inline(always)]
pub(crate) fn destination(bytes: &[u8]) -> Option<u16>
    ensures { result ≡ destination_of bytes.now }
{
    if bytes.len() < 10 {
        return None;
    }
    Some(256 * u16::from(bytes[8]) + u16::from(bytes[9]))
}

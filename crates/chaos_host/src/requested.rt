//! What a user sees of a request that waits for an answer.
ghost use Rattle.std.specs.Prelude.{◌≡◌};
ghost use Rattle.std.specs.Result.{result_map_both};
ghost use Rattle.chaos_host.specs.View.{host_look};
ghost use Rattle.chaos_packet.specs.Request.{contact_in, arguments_in};
ghost use Rattle.chaos_host.specs.Requested.{host_asked, asked_of, part_of};

use crate::fault::CallFault;
use crate::host::Host;
use crate::index::ConnId;
use crate::slots::named;
use chaos_conn::{Conn, ConnFault, State};
use chaos_packet::{arguments_in, contact_in};

impl Host {
    /// The contact that a connection was asked for, while its request waits for the user.
    ///
    /// `contact` and `arguments` are refused, in this order: `NoSuchConnection` where no connection
    /// has this index; `Refused(WrongState)` where it holds no request, as [`Host::accept`] refuses
    /// it.
    pub fn contact(&self, id: ConnId) -> Result<&[u8], CallFault>
        // The contact of the request that waits there is lent, as `contact_in` reads it. If no
        // request waits, the answer is WrongState.
        ensures { result_map_both (λ bytes. bytes.now) (λ fault. fault) result
            ≡ part_of contact_in (host_asked self.now id) }
    {
        Ok(contact_in(asked(&named(&self.slots, id)?.conn)?))
    }

    /// The arguments that follow the contact in the request that waits, lent.
    pub fn arguments(&self, id: ConnId) -> Result<&[u8], CallFault>
        // The arguments of the request that waits there are lent, as `arguments_in` reads them. If
        // no request waits, the answer is WrongState.
        ensures { result_map_both (λ bytes. bytes.now) (λ fault. fault) result
            ≡ part_of arguments_in (host_asked self.now id) }
    {
        Ok(arguments_in(asked(&named(&self.slots, id)?.conn)?))
    }

    /// A moment in milliseconds. A peer that waits for a reply to its request asks again and again,
    /// and is heard each time. So a request whose peer wasn't heard for long can be rejected or
    /// closed, which frees its slot.
    pub fn heard(&self, id: ConnId) -> Result<u64, CallFault>
        // The peer there was last heard at this moment.
        ensures { result ≡ host_look self.now id (λ conn. conn.heard) }
    {
        Ok(named(&self.slots, id)?.conn.heard())
    }
}

/// What an end was asked, where its request waits.
fn asked(conn: &Conn) -> Result<&[u8], CallFault>
    ensures { result_map_both (λ bytes. bytes.now) (λ fault. fault) result ≡ asked_of conn.now }
{
    if !matches!(conn.state(), State::RfcReceived) {
        return Err(CallFault::Refused(ConnFault::WrongState));
    }
    match conn.front() {
        Some(item) => Ok(item.bytes()),
        None => Ok(&[]),
    }
}

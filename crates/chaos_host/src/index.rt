//! The own indices of connections.
ghost use Rattle.std.specs.Prelude.{◌≡◌, ◌<◌};
ghost use Rattle.chaos_host.specs.Slot.{place_of};

use chaos_conn::End;
use std::marker::Model;

/// The own index of one of a host's connections. Its low 8 bits are the number of the connection's
/// slot plus 1, and its high 8 bits the slot's generation. So a packet for an older connection of
/// the slot finds no connection. A contract sees the number.
#[derive(Clone, Copy, Debug, PartialEq, Eq)]
pub struct ConnId(pub u16);

impl Model for ConnId {
    ghost use Rattle.std.specs.Prelude.{ℕ};

    ghost Value = { ℕ };

    ghost view = { λ id. id.0 };

    ghost inverse = { λ n. record { 0 = n } };
}

impl ConnId {
    /// The place of the slot that the index names.
    pub(crate) fn place(self) -> usize
        ensures value { result ≡ place_of self }
        ensures within { result < 256 }
    {
        usize::from(self.0 % 256).saturating_sub(1)
    }

    /// The own end of the connection with this index, at a host with this address.
    pub(crate) fn end_at(self, address: u16) -> End
        ensures { result ≡ record { address = address; index = self } }
    {
        End {
            address,
            index: self.0,
        }
    }
}

//! The list of all copies.
ghost use Rattle.std.specs.Prelude.{◌≡◌, ◌≤◌, ◌<◌, ◌+◌, [], ◌∷◌, ◌++◌, OnOk, IfOk, vec_len, vec_capacity};
ghost use Rattle.chaos_lab.specs.Laboratory.{stamp};
ghost use Rattle.chaos_lab.specs.Inside.{HasSpace};

use crate::data::set_aside;
use crate::kept_packet::KeptPacket;
use crate::side::Side;
use crate::stamped::Stamped;
use chaos_packet::{Item, Packet};
use chaos_window::MAX_WINDOW;
use std::alloc::{AllocError, Global};

/// Every packet that was sent, and what the next ones may need.
#[derive(Drop)]
pub(crate) struct CopyList {
    /// The oldest first.
    pub(crate) list: Vec<Stamped>,
    /// Room for the data of a packet each, set aside before a call: how much data it will put out
    /// isn't known then.
    pub(crate) spares: Vec<Box<Item, Global>>,
    alloc: Global,
}

impl CopyList {
    /// No copies, with space for those of one call.
    pub(crate) fn new(alloc: Global) -> Result<Self, AllocError>
        ensures { IfOk result (λ copies. (copies.list.items ≡ []) × HasSpace copies) }
    {
        let mut copies = CopyList {
            list: Vec::new(alloc),
            spares: Vec::new(alloc),
            alloc,
        };
        copies.grow()?;
        Ok(copies)
    }

    /// Makes space for all that one call may put out.
    pub(crate) fn grow(&mut self) -> Result<(), AllocError>
        ensures same { self.new.list.items ≡ self.old.list.items }
        ensures space { OnOk result (HasSpace self.new) }
    {
        self.list.reserve(MAX_WINDOW as usize)?;
        set_aside(self.alloc, &mut self.spares, MAX_WINDOW as usize)
    }

    /// Adds a copy of a packet that was sent, with its stamp.
    pub(crate) fn push(&mut self, side: Side, packet: &Packet, len_a: usize, len_b: usize)
        requires place { vec_len self.old.list < vec_capacity self.old.list }
        requires spare { 0 < vec_len self.old.spares }
        ensures items { self.new.list.items
            ≡ self.old.list.items ++ stamp side len_a len_b packet.now ∷ [] }
        ensures len { vec_len self.new.list ≡ vec_len self.old.list + 1 }
        ensures capacity { vec_capacity self.new.list ≡ vec_capacity self.old.list }
        ensures spares { vec_len self.old.spares ≤ vec_len self.new.spares + 1 }
    {
        let packet = KeptPacket::new(self.alloc, packet, &mut self.spares);
        self.list.push_reserved(Stamped {
            side,
            packet,
            len_a,
            len_b,
        });
    }
}

//! All that an end wrote, or that its user read.
ghost use Rattle.std.specs.Prelude.{◌≡◌, ◌≤◌, ◌<◌, [], ◌∷◌, ◌++◌, length, OnOk, vec_len, vec_capacity};
ghost use Rattle.chaos_packet.specs.Item.{ItemView};
ghost use Rattle.chaos_lab.specs.History.{HasPlace, item};

use crate::data::set_aside;
use crate::kept_item::KeptItem;
use chaos_packet::{Item, MAX_DATA, Opcode};
use std::alloc::{AllocError, Global};

/// A list of items that only grows, and what the next one may need.
#[derive(Drop)]
pub(crate) struct History {
    /// The oldest first.
    pub(crate) list: Vec<KeptItem>,
    /// Room for the data of an item, set aside before a call.
    pub(crate) spares: Vec<Box<Item, Global>>,
    alloc: Global,
}

impl History {
    /// No items.
    pub(crate) fn new(alloc: Global) -> Self
        ensures { result.list.items ≡ [] }
    {
        History {
            list: Vec::new(alloc),
            spares: Vec::new(alloc),
            alloc,
        }
    }

    /// Makes room for one more item.
    pub(crate) fn grow(&mut self) -> Result<(), AllocError>
        ensures same { self.new.list.items ≡ self.old.list.items }
        ensures place { OnOk result (HasPlace self.new) }
    {
        self.list.reserve(1)?;
        set_aside(self.alloc, &mut self.spares, 1)
    }

    /// Keeps a copy of an item behind the others.
    pub(crate) fn keep(&mut self, op: Opcode, bytes: &[u8])
        requires place { HasPlace self.old }
        requires fits { length bytes.now ≤ MAX_DATA }
        ensures { self.new.list.items ≡ self.old.list.items ++ item op bytes.now ∷ [] }
    {
        let kept = KeptItem::new(self.alloc, op, bytes, &mut self.spares);
        self.list.push_reserved(kept);
    }
}

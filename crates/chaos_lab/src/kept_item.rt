//! An item as the laboratory keeps it.
ghost use Rattle.std.specs.Prelude.{◌≡◌, ◌≤◌, ◌<◌, ◌+◌, length, vec_len};

use crate::data::Data;
use chaos_packet::{Item, MAX_DATA, Opcode};
use std::alloc::Global;
use std::marker::Model;

/// An item that was written or read. A contract sees it as any item.
///
/// It takes the memory of its data, where an [`Item`] has room for the most of them.
#[derive(Drop)]
pub struct KeptItem {
    op: Opcode,
    bytes: Data,
}

impl Model for KeptItem {
    ghost use Rattle.std.specs.Prelude.{◌≤◌, length};
    ghost use Rattle.chaos_packet.specs.declared.limits.TheConstants.{MAX_DATA};
    ghost use Rattle.chaos_packet.specs.Item.{ItemView};
    ghost use Rattle.chaos_lab.specs.Data.{data_of};

    ghost Value = { ItemView };

    ghost view = { λ item. record { op = item.op; body = data_of item.bytes } };

    ghost invariant = { λ item. length (data_of item.bytes) ≤ MAX_DATA };
}

impl KeptItem {
    /// A copy of an item with these data. Where there is no memory for them, they take a spare
    /// room.
    pub(crate) fn new(
        alloc: Global,
        op: Opcode,
        bytes: &[u8],
        spares: &mut Vec<Box<Item, Global>>,
    ) -> Self
        requires fits { length bytes.now ≤ MAX_DATA }
        requires spare { 0 < vec_len spares.old }
        ensures value { result ≡ record { op = op; body = bytes.now } }
        ensures spares { vec_len spares.old ≤ vec_len spares.new + 1 }
    {
        KeptItem {
            op,
            bytes: Data::new(alloc, bytes, spares),
        }
    }

    /// The opcode that the item was written with.
    pub fn op(&self) -> Opcode
        // The opcode is the kept item's.
        ensures { result ≡ self.now.op }
    {
        self.op
    }

    /// The data bytes, lent from where they are kept.
    pub fn bytes(&self) -> &[u8]
        // The data are the kept item's, at most 488 bytes.
        ensures value { result.now ≡ self.now.body }
        ensures fits { length result.now ≤ MAX_DATA }
    {
        self.bytes.bytes()
    }

    /// The whole item, made again. The call takes no memory, and copies the data.
    pub fn item(&self) -> Item
        // The item is the kept item.
        ensures { result ≡ self.now }
    {
        Item::new(self.op, self.bytes())
    }
}

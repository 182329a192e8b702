//! One slot of a receive window.
ghost use Rattle.std.specs.Prelude.{◌≡◌, ◌≤◌, length, is_some, Some, None, IfOk};
ghost use Rattle.std.specs.Option.{option_copied};

use chaos_packet::{Item, MAX_DATA, Opcode};
use std::alloc::{AllocError, Global};
use std::marker::Model;

/// A slot: an item that arrived, or none. A contract sees the item, where there is one.
///
/// The place for an item is taken when the slot is made. A dropped item is left lying there until
/// the next item is written over it, so neither an empty item nor a second copy is ever written.
#[derive(Drop)]
pub struct Slot {
    /// Whether an item is held. If not, what lies in the place means nothing.
    held: bool,
    place: Box<Item, Global>,
}

impl Model for Slot {
    ghost use Rattle.std.specs.Prelude.{Option, Some, None, if◌then◌else◌};
    ghost use Rattle.chaos_packet.specs.Item.{ItemView};

    ghost Value = { Option ItemView };

    ghost view = { λ s. if s.held then Some s.place.value else None };
}

impl Slot {
    /// An empty slot, with the memory for an item.
    pub fn new(alloc: Global) -> Result<Self, AllocError>
        ensures { IfOk result (λ slot. slot ≡ None) }
    {
        let place = Box::new(alloc, Item::default())?;
        Ok(Slot { held: false, place })
    }

    /// Whether it holds an item.
    pub fn is_held(&self) -> bool
        ensures { result ≡ is_some self.now }
    {
        self.held
    }

    /// Lends the item that it holds.
    pub fn get(&self) -> Option<&Item>
        ensures { option_copied result ≡ self.now }
    {
        if self.held { Some(&*self.place) } else { None }
    }

    /// Holds this item, in place of what it held.
    pub fn put(&mut self, item: Item)
        ensures { self.new ≡ Some item }
    {
        *self.place = item;
        self.held = true;
    }

    /// Holds an item with a copy of these bytes, which are written where it lies.
    pub fn fill(&mut self, op: Opcode, bytes: &[u8])
        requires { length bytes.now ≤ MAX_DATA }
        ensures { self.new ≡ Some (record { op = op; body = bytes.now }) }
    {
        self.place.overwrite(op, bytes);
        self.held = true;
    }

    /// Hands the item out that it holds, and holds none.
    pub fn take(&mut self) -> Option<Item>
        ensures item { result ≡ self.old }
        ensures empty { self.new ≡ None }
    {
        if !self.held {
            return None;
        }
        self.held = false;
        Some(Item::new(self.place.op, self.place.bytes()))
    }

    /// Holds no item any more.
    pub fn empty(&mut self)
        ensures { self.new ≡ None }
    {
        self.held = false;
    }
}

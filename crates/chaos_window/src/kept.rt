//! The items that a send window keeps.
ghost use Rattle.std.specs.Prelude.{◌≡◌, ◌<◌, ◌≤◌, [], ◌∷◌, ◌++◌, length, drop, slice_get, IfOk};
ghost use Rattle.std.specs.Option.{option_copied};

use chaos_packet::{Item, MAX_DATA, Opcode, Ring};
use std::alloc::{AllocError, Global};
use std::marker::Model;

/// A queue of items, with room for a fixed number of items. A contract sees the items, the oldest
/// first, and that number.
///
/// `new` takes the memory for all of them, and no later call takes any. Each item lies in a place
/// of its own, which stays when the item goes. No call moves an item.
#[derive(Drop)]
pub struct Kept {
    held: Ring<Item>,
}

impl Model for Kept {
    ghost use Rattle.std.specs.Prelude.{◌≡◌};
    ghost use Rattle.chaos_window.specs.Kept.{KeptView};

    ghost Value = { KeptView };

    ghost view = { λ k. record { items = k.held.items; cap = k.held.cap } };

    ghost invariant = { λ k. k.held.taken ≡ 0 };
}

impl Kept {
    /// An empty queue, with room for `cap` items.
    pub fn new(alloc: Global, cap: usize) -> Result<Self, AllocError>
        ensures { IfOk result (λ kept. kept ≡ record { items = []; cap = cap }) }
    {
        let held = Ring::new(alloc, cap)?;
        Ok(Kept { held })
    }

    /// Adds an item with a copy of these bytes at the back, which is made where it is to lie.
    pub fn add(&mut self, op: Opcode, bytes: &[u8])
        requires room { length self.old.items < self.old.cap }
        requires fits { length bytes.now ≤ MAX_DATA }
        ensures { self.new ≡ record self.old {
          items = self.old.items ++ (record { op = op; body = bytes.now }) ∷ [];
        } }
    {
        if let Some(mut place) = self.held.take_spare() {
            place.value.overwrite(op, bytes);
            self.held.push(place);
        }
    }

    /// Lends the item at an index, the oldest at 0.
    pub fn get(&self, index: usize) -> Option<&Item>
        ensures { option_copied result ≡ slice_get self.now.items index }
    {
        self.held.get(index)
    }

    /// Drops the first items where they lie.
    pub fn drop_front(&mut self, count: usize)
        ensures { self.new ≡ record self.old { items = drop count self.old.items } }
    {
        for i in 0..count {
            self.drop_oldest();
        }
    }

    /// Drops the first item, where there is one.
    fn drop_oldest(&mut self)
        ensures { self.new ≡ record self.old { items = drop 1 self.old.items } }
    {
        self.held.drop_front();
    }

    /// Drops every item.
    pub fn clear(&mut self)
        ensures { self.new ≡ record self.old { items = [] } }
    {
        let count = self.held.len();
        self.drop_front(count);
    }
}

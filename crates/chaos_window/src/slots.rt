//! The slots of a receive window.
ghost use Rattle.std.specs.Prelude.{◌≡◌, ◌≤◌, ◌<◌, [], length, replicate, slice_set, count_by, is_some, is_none, if◌then◌else◌, Some, None, IfOk, OnOk, IfNone, OnSome};
ghost use Rattle.std.specs.List.{prefix_len};
ghost use Rattle.std.specs.Option.{option_copied};
ghost use Rattle.chaos_window.specs.Slots.{slot_at, with_item_at, lowered_slots};

use crate::limits::MAX_WINDOW;
use crate::slot::Slot;
use chaos_packet::{Item, MAX_DATA, Opcode};
use circular_buffer::HeapCircularBuffer;
use std::alloc::{AllocError, Global};
use std::marker::Model;

/// A number of slots, each with an item or none. A contract sees the slots, the first one at offset
/// 1.
///
/// A ring that is always full: `new` takes the memory for an item in each slot, and no later call
/// takes any. A slot that is read goes behind the others with its memory, so no item moves.
#[derive(Drop)]
pub struct Slots {
    /// Whether there is an item at offset 1. A caller that asks this of many windows need not look
    /// at their rings.
    has_first: bool,
    ring: HeapCircularBuffer<Slot>,
}

impl Model for Slots {
    ghost use Rattle.std.specs.Prelude.{◌≤◌, ◌≡◌, length, List, Option, is_some};
    ghost use Rattle.chaos_packet.specs.Item.{ItemView};
    ghost use Rattle.chaos_window.specs.Slots.{slot_at};
    ghost use Rattle.chaos_window.specs.declared.limits.TheConstants.{MAX_WINDOW};

    ghost Value = { List (Option ItemView) };

    ghost view = { λ s. s.ring.items };

    ghost invariant = { λ s. (1 ≤ s.ring.capacity) × (s.ring.capacity ≤ MAX_WINDOW)
        × (length s.ring.items ≡ s.ring.capacity)
        × (s.has_first ≡ is_some (slot_at s.ring.items 1)) };
}

impl Slots {
    /// That many empty slots.
    pub fn new(alloc: Global, cap: u16) -> Result<Self, AllocError>
        requires { (1 ≤ cap) × (cap ≤ MAX_WINDOW) }
        ensures { IfOk result (λ slots. slots ≡ replicate cap None) }
    {
        let mut ring = HeapCircularBuffer::with_capacity(alloc, cap as usize)?;
        add_empty(alloc, &mut ring, cap as usize)?;
        Ok(Slots {
            has_first: false,
            ring,
        })
    }

    /// How many slots there are.
    pub fn cap(&self) -> u16
        ensures value { result ≡ length self.now }
        ensures fits { (1 ≤ result) × (result ≤ MAX_WINDOW) }
    {
        self.ring.capacity() as u16
    }

    /// Lends the item at an offset.
    pub fn get(&self, offset: u16) -> Option<&Item>
        ensures { option_copied result ≡ slot_at self.now offset }
    {
        if offset == 0 {
            return None;
        }
        self.ring.get(offset as usize - 1)?.get()
    }

    /// Lends the item at offset 1.
    pub fn first(&self) -> Option<&Item>
        ensures { option_copied result ≡ slot_at self.now 1 }
    {
        if self.has_first { self.get(1) } else { None }
    }

    /// Puts an item at an offset.
    pub fn put(&mut self, offset: u16, item: Item)
        requires { (1 ≤ offset) × (offset ≤ length self.old) }
        ensures { self.new ≡ with_item_at self.old offset item }
    {
        set_slot(&mut self.ring, offset as usize - 1, item);
        self.has_first = has_first(&self.ring);
    }

    /// Puts an item with a copy of these bytes at an offset.
    pub fn put_lent(&mut self, offset: u16, op: Opcode, bytes: &[u8])
        requires within { (1 ≤ offset) × (offset ≤ length self.old) }
        requires fits { length bytes.now ≤ MAX_DATA }
        ensures { self.new ≡ with_item_at self.old offset (record { op = op; body = bytes.now }) }
    {
        fill_slot(&mut self.ring, offset as usize - 1, op, bytes);
        self.has_first = has_first(&self.ring);
    }

    /// Takes the item at offset 1 out, where there is one, and lowers the offsets of the others by
    /// one.
    pub fn take_first(&mut self) -> Option<Item>
        ensures item { result ≡ slot_at self.old 1 }
        ensures none { IfNone result (self.new ≡ self.old) }
        ensures lowered { OnSome result (self.new ≡ lowered_slots self.old) }
    {
        if !self.has_first {
            return None;
        }
        let mut slot = self.ring.pop_front()?;
        let item = slot.take();
        let _ = self.ring.push_back(slot);
        self.has_first = has_first(&self.ring);
        item
    }

    /// Drops the item at offset 1 where it lies, where there is one, and lowers the offsets of the
    /// others by one. The answer is whether there was one.
    pub fn drop_first(&mut self) -> bool
        ensures held { result ≡ is_some (slot_at self.old 1) }
        ensures slots { self.new ≡ (if result then lowered_slots self.old else self.old) }
    {
        if !self.has_first {
            return false;
        }
        lower(&mut self.ring);
        self.has_first = has_first(&self.ring);
        true
    }

    /// How many slots from the first on have an item.
    ///
    /// A walk over them.
    pub fn unbroken(&self) -> u16
        ensures { result ≡ prefix_len is_some self.now }
    {
        front_len(&self.ring) as u16
    }

    /// How many items are held.
    ///
    /// A walk over the slots.
    pub fn count(&self) -> usize
        ensures count { result ≡ count_by is_some self.now }
        ensures fits { result ≤ length self.now }
    {
        self.ring.iter().filter(|slot| slot.is_held()).count()
    }

    /// Drops every item.
    pub fn clear(&mut self)
        ensures { self.new ≡ replicate (length self.old) None }
    {
        empty_all(&mut self.ring);
        self.has_first = false;
    }
}

/// Fills an empty ring with empty slots.
fn add_empty(
    alloc: Global,
    slots: &mut HeapCircularBuffer<Slot>,
    count: usize,
) -> Result<(), AllocError>
    requires room { slots.old.capacity ≡ count }
    requires empty { slots.old.items ≡ [] }
    ensures items { OnOk result (slots.new.items ≡ replicate count None) }
    ensures capacity { slots.new.capacity ≡ count }
{
    for i in 0..count {
        let _ = slots.push_back(Slot::new(alloc)?);
    }
    Ok(())
}

/// Whether there is an item in the first slot.
fn has_first(slots: &HeapCircularBuffer<Slot>) -> bool
    ensures { result ≡ is_some (slot_at slots.now.items 1) }
{
    match slots.front() {
        Some(slot) => slot.is_held(),
        None => false,
    }
}

/// Holds an item with a copy of these bytes in a slot.
fn fill_slot(slots: &mut HeapCircularBuffer<Slot>, index: usize, op: Opcode, bytes: &[u8])
    requires within { index < length slots.old.items }
    requires fits { length bytes.now ≤ MAX_DATA }
    ensures items { slots.new.items
        ≡ slice_set slots.old.items index (Some (record { op = op; body = bytes.now })) }
    ensures capacity { slots.new.capacity ≡ slots.old.capacity }
{
    if let Some(slot) = slots.get_mut(index) {
        slot.fill(op, bytes);
    }
}

/// Holds an item in a slot.
fn set_slot(slots: &mut HeapCircularBuffer<Slot>, index: usize, item: Item)
    requires { index < length slots.old.items }
    ensures items { slots.new.items ≡ slice_set slots.old.items index (Some item) }
    ensures capacity { slots.new.capacity ≡ slots.old.capacity }
{
    if let Some(slot) = slots.get_mut(index) {
        slot.put(item);
    }
}

/// Empties the first slot of a full ring, which goes behind the others.
fn lower(slots: &mut HeapCircularBuffer<Slot>)
    requires full { length slots.old.items ≡ slots.old.capacity }
    requires some { 0 < slots.old.capacity }
    ensures items { slots.new.items ≡ lowered_slots slots.old.items }
    ensures capacity { slots.new.capacity ≡ slots.old.capacity }
{
    if let Some(mut slot) = slots.pop_front() {
        slot.empty();
        let _ = slots.push_back(slot);
    }
}

/// Empties every slot of a full ring.
#[tactic(auto, using(crate::proofs::Lowered::lowered))]
fn empty_all(slots: &mut HeapCircularBuffer<Slot>)
    requires { length slots.old.items ≡ slots.old.capacity }
    ensures items { slots.new.items ≡ replicate (length slots.old.items) None }
    ensures capacity { slots.new.capacity ≡ slots.old.capacity }
{
    for i in 0..slots.len() {
        lower(slots);
    }
}

/// How many slots from the front on are not empty.
fn front_len(slots: &HeapCircularBuffer<Slot>) -> usize
    ensures count { result ≡ prefix_len is_some slots.now.items }
    ensures fits { result ≤ length slots.now.items }
{
    slots.iter().take_while(|slot| slot.is_held()).count()
}

//! What an end holds.
ghost use Rattle.std.specs.Prelude.{◌≡◌, ◌≤◌, length, is_some, IfOk};
ghost use Rattle.std.specs.Option.{option_copied};
ghost use Rattle.chaos_window.specs.Receive.{IsReceiveWindow, item_at, clear_receive, started_receive, arrival_of, after_arrival, after_advance, after_announcement, receipt_of, held_count, receive_view};

use crate::arrival::Arrived;
use crate::limits::MAX_WINDOW;
use crate::slots::Slots;
use chaos_packet::{Item, MAX_DATA, Opcode, PktNum};
use std::alloc::{AllocError, Global};
use std::marker::Model;

/// The receive window of a connection (AI Memo 628, on connections): the items that arrived and
/// were not read, each at its offset past the number last read.
///
/// ```text
///    number last read
///          |
///  .. read | 1 | 2 | 3 | .. | window | outside ..
///            |
///       next number
/// ```
///
/// The window is the cap until its end announces another window, which is at most the cap. Items
/// that are held past a window that was made smaller stay held.
///
/// A contract sees the number and a slot for each offset. `new` takes the memory for an item in
/// each slot, and no later call takes any.
#[derive(Drop)]
pub struct RecvWindow {
    /// The number last read.
    read: PktNum,
    /// The window that its end announces.
    window: u16,
    /// The next numbers, as many as the cap.
    slots: Slots,
}

impl Model for RecvWindow {
    ghost use Rattle.chaos_window.specs.Receive.{ReceiveView, IsReceiveWindow, receive_view};

    ghost Value = { ReceiveView };

    ghost view = { λ w. receive_view w.read w.window w.slots };

    ghost invariant = { λ w. IsReceiveWindow (receive_view w.read w.window w.slots) };
}

impl RecvWindow {
    /// A clear window, with room for `cap` items.
    pub fn new(alloc: Global, cap: u16) -> Result<Self, AllocError>
        requires { (1 ≤ cap) × (cap ≤ MAX_WINDOW) }
        // A new receive window has last read 0, holds nothing, and announces its cap.
        ensures { IfOk result (λ window. window ≡ clear_receive cap) }
    {
        let slots = Slots::new(alloc, cap)?;
        Ok(RecvWindow {
            read: PktNum(0),
            window: cap,
            slots,
        })
    }

    /// Starts a clear window: the next item is the one after `num`.
    pub fn start(&mut self, num: PktNum)
        requires { self.old ≡ clear_receive self.old.cap }
        // The given number counts as the last that was read.
        ensures { self.new ≡ started_receive self.old.cap num }
    {
        self.read = num;
    }

    /// Takes an item that came with a number, and returns what became of it. One slot is written.
    pub fn arrive(&mut self, num: PktNum, item: Item) -> Arrived
        // An item that is held already is `Duplicate`, also past a window that was made smaller.
        // Otherwise it is `Took`, `Outside` or `Duplicate` exactly by its distance and the
        // announced window.
        ensures answer { result ≡ arrival_of self.old num }
        // An item that is taken is held at its offset. Nothing else changes.
        ensures held { self.new ≡ after_arrival self.old num item }
    {
        let arrived = arrival(self.read, self.window, &self.slots, num);
        if arrived == Arrived::Took {
            self.slots.put(num.off(self.read), item);
        }
        arrived
    }

    /// Takes a copy of a lent item that came with a number: its opcode, and at most [`MAX_DATA`]
    /// bytes. The bytes are copied only where the item is taken.
    pub fn arrive_lent(&mut self, num: PktNum, op: Opcode, bytes: &[u8]) -> Arrived
        requires { length bytes.now ≤ MAX_DATA }
        // The answer is that of `arrive` for an item with these bytes.
        ensures answer { result ≡ arrival_of self.old num }
        // An item that is taken is held at its offset, with exactly these bytes. Nothing else
        // changes.
        ensures held { self.new
            ≡ after_arrival self.old num (record { op = op; body = bytes.now }) }
    {
        let arrived = arrival(self.read, self.window, &self.slots, num);
        if arrived == Arrived::Took {
            self.slots.put_lent(num.off(self.read), op, bytes);
        }
        arrived
    }

    /// Makes this the window that its end announces.
    pub fn set_window(&mut self, window: u16)
        requires { window ≤ self.old.cap }
        // The end announces another window, at most the cap. Nothing else changes, so what is held
        // past the window stays.
        ensures { self.new ≡ after_announcement self.old window }
    {
        self.window = window;
    }

    /// How far past the number last read an item is taken.
    pub fn window(&self) -> u16
        // The end announces this window, at most the cap.
        ensures value { result ≡ self.now.window }
        ensures fits { result ≤ self.now.cap }
    {
        self.window
    }

    /// Lends the next item without reading it.
    pub fn front(&self) -> Option<&Item>
        // The next item is lent exactly where it is held.
        ensures { option_copied result ≡ item_at self.now 1 }
    {
        self.slots.first()
    }

    /// Reads the next item.
    pub fn advance(&mut self) -> Option<Item>
        // The next item is handed out exactly where it is held.
        ensures item { result ≡ item_at self.old 1 }
        // If it was held, the number last read moves on by one, and every offset is one lower.
        ensures rest { self.new ≡ after_advance self.old }
    {
        let item = self.slots.take_first()?;
        self.read = self.read.next();
        Some(item)
    }

    /// Reads the next item, and drops it where it lies.
    pub fn discard(&mut self) -> bool
        // The answer is whether the next item was held.
        ensures was_held { result ≡ is_some (item_at self.old 1) }
        // If it was held, the number last read moves on by one, and every offset is one lower.
        ensures rest { self.new ≡ after_advance self.old }
    {
        let was_held = self.slots.drop_first();
        if was_held {
            self.read = self.read.next();
        }
        was_held
    }

    /// The receipt to send: all items up to this number arrived. The cost is at most a walk over
    /// the items before the first gap.
    pub fn receipt(&self) -> PktNum
        // The receipt is the end of the unbroken front, which begins after the number last read.
        ensures { result ≡ receipt_of self.now }
    {
        self.read.plus(self.slots.unbroken())
    }

    /// How far the user has read.
    pub fn read_num(&self) -> PktNum
        // This is the number last read.
        ensures { result ≡ self.now.read }
    {
        self.read
    }

    /// The greatest window that the end may announce.
    pub fn cap(&self) -> u16
        // This is the greatest window.
        ensures value { result ≡ self.now.cap }
        // In every receive window the cap is from 1 to 64, there are as many places for items, and
        // the end announces no more.
        ensures sound { IsReceiveWindow self.now }
    {
        self.slots.cap()
    }

    /// How many items are held. The cost is a walk over the window.
    pub fn held(&self) -> usize
        // The answer is how many items are held, at most the cap and at most 64.
        ensures count { result ≡ held_count self.now }
        ensures fits { (result ≤ self.now.cap) × (result ≤ MAX_WINDOW) }
    {
        self.slots.count()
    }

    /// Lends a held item by its offset past the number last read. The next item has offset 1.
    pub fn held_at(&self, offset: u16) -> Option<&Item>
        // The item at the offset is lent exactly where one is held there.
        ensures { option_copied result ≡ item_at self.now offset }
    {
        self.slots.get(offset)
    }

    /// Drops every item, so that the window can be started again.
    pub fn clear(&mut self)
        // A cleared window is as new: it holds nothing, and announces its cap.
        ensures { self.new ≡ clear_receive self.old.cap }
    {
        self.slots.clear();
        self.window = self.slots.cap();
        self.read = PktNum(0);
    }
}

/// What becomes of an item that arrives with a number, where `read` is the number last read.
fn arrival(read: PktNum, window: u16, slots: &Slots, num: PktNum) -> Arrived
    ensures { result ≡ arrival_of (receive_view read window slots.now) num }
{
    let offset = num.off(read);
    if slots.get(offset).is_some() {
        Arrived::Duplicate
    } else if 1 <= offset && offset <= window {
        Arrived::Took
    } else if num.after(read) {
        Arrived::Outside
    } else {
        Arrived::Duplicate
    }
}

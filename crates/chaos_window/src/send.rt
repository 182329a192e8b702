//! What an end has sent.
ghost use Rattle.std.specs.Prelude.{◌≡◌, ◌<◌, ◌≤◌, [], ◌∷◌, ◌++◌, length, drop, slice_get, IfOk, IsErr};
ghost use Rattle.std.specs.Option.{option_copied};
ghost use Rattle.chaos_window.specs.Send.{IsSendWindow, outstanding_of, next_of, clear_send, started_send, after_push, after_receipt, after_acknowledgement, after_window};

use crate::kept::Kept;
use crate::limits::MAX_WINDOW;
use chaos_packet::{Item, MAX_DATA, Opcode, PktNum};
use std::alloc::{AllocError, Global};
use std::marker::Model;
use thiserror::Error;

/// The window has no room: as many items are outstanding as it allows.
#[derive(Clone, Copy, Debug, PartialEq, Eq, Error)]
#[error("the window is full")]
pub struct Full;

/// The send window of a connection (AI Memo 628, on connections): the items that may have to be
/// sent again, the oldest first, and how far the other end has receipted and acknowledged them.
///
/// ```text
///      acknowledged        receipted              sent
///           |                  |                   |
///   .. read | arrived, but not | kept: not known   | next ..
///           | known to be read | to have arrived   |
///           +------------- outstanding ------------+
/// ```
///
/// A contract sees the numbers, the window and the list of the items kept. `new` takes the memory
/// for as many items as the cap, and no later call takes any.
#[derive(Drop)]
pub struct SendWindow {
    /// The greatest window.
    cap: u16,
    /// The number last sent.
    sent: PktNum,
    /// The number up to which all arrived, as far as is known.
    receipted: PktNum,
    /// The number up to which all were read, as far as is known.
    acknowledged: PktNum,
    /// The window that the other end announced, and the cap before it did.
    window: u16,
    /// The items past `receipted`, the oldest first, with room for as many as the cap.
    kept: Kept,
}

impl Model for SendWindow {
    ghost use Rattle.std.specs.Prelude.{◌≡◌};
    ghost use Rattle.chaos_window.specs.Send.{SendView, IsSendWindow, send_view};

    ghost Value = { SendView };

    ghost view = { λ w. send_view w.cap w.sent w.receipted w.acknowledged w.window w.kept.items };

    ghost invariant = { λ w.
        IsSendWindow (send_view w.cap w.sent w.receipted w.acknowledged w.window w.kept.items)
        × (w.kept.cap ≡ w.cap) };
}

impl SendWindow {
    /// A clear window, which keeps at most `cap` items.
    pub fn new(alloc: Global, cap: u16) -> Result<Self, AllocError>
        requires { (1 ≤ cap) × (cap ≤ MAX_WINDOW) }
        // A new send window keeps nothing, has last sent 0, and allows its cap.
        ensures { IfOk result (λ window. window ≡ clear_send cap) }
    {
        let kept = Kept::new(alloc, cap as usize)?;
        Ok(SendWindow {
            cap,
            sent: PktNum(0),
            receipted: PktNum(0),
            acknowledged: PktNum(0),
            window: cap,
            kept,
        })
    }

    /// Starts a clear window.
    pub fn start(&mut self, num: PktNum)
        requires { self.old ≡ clear_send self.old.cap }
        // The next item gets the given number.
        ensures started { self.new ≡ started_send self.old.cap num }
        // There is room for this item.
        ensures room { outstanding_of self.new < self.new.window }
    {
        let before = PktNum(num.0.wrapping_sub(1));
        self.sent = before;
        self.receipted = before;
        self.acknowledged = before;
    }

    /// Sends an item of at most [`MAX_DATA`] bytes, and returns its number. The bytes are copied
    /// only where the item is taken.
    pub fn push(&mut self, op: Opcode, body: &[u8]) -> Result<PktNum, Full>
        requires { length body.now ≤ MAX_DATA }
        // If fewer items are outstanding than the window allows, the item is kept and gets the next
        // number.
        ensures sent { outstanding_of self.old < self.old.window
            → (result ≡ Ok (next_of self.old)) × (self.new ≡ after_push self.old op body.now) }
        // If as many items are outstanding as the window allows, the push is `Full`, and changes
        // nothing.
        ensures full { self.old.window ≤ outstanding_of self.old →
            IsErr result × (self.new ≡ self.old) }
    {
        if self.outstanding() >= self.window {
            return Err(Full);
        }
        self.kept.add(op, body);
        self.sent = self.sent.next();
        Ok(self.sent)
    }

    /// The number of the newest item.
    pub fn last(&self) -> PktNum
        // This is the number last sent.
        ensures { result ≡ self.now.sent }
    {
        self.sent
    }

    /// How far the other end has receipted. The item kept at index i has the number that is i + 1
    /// further on.
    pub fn receipted(&self) -> PktNum
        // This is the number last receipted.
        ensures { result ≡ self.now.receipted }
    {
        self.receipted
    }

    /// The window that the other end announced, cut to the cap.
    pub fn window(&self) -> u16
        // The window is how many items may be outstanding.
        ensures { result ≡ self.now.window }
    {
        self.window
    }

    /// How many items may be outstanding at most.
    pub fn cap(&self) -> u16
        // This is the greatest window.
        ensures value { result ≡ self.now.cap }
        // In every send window no more is kept than is outstanding, and no more is outstanding than
        // the cap, which is from 1 to 64.
        ensures sound { IsSendWindow self.now }
    {
        self.cap
    }

    /// Takes a receipt, which says that all items up to `num` arrived. They are dropped where they
    /// lie, and no other item is moved.
    pub fn receipt(&mut self, num: PktNum)
        // A receipt counts exactly if it lies between the present receipt and the number last sent,
        // both included. It drops just the items up to it.
        ensures { self.new ≡ after_receipt self.old num }
    {
        let arrived = num.off(self.receipted);
        if arrived <= self.unreceipted() {
            self.kept.drop_front(arrived as usize);
            self.receipted = num;
        }
    }

    /// Takes an acknowledgement, which says that the other end's user read all items up to `num`,
    /// so that they arrived too. They are dropped where they lie, and no other item is moved.
    pub fn acknowledge(&mut self, num: PktNum)
        // An acknowledgement counts exactly if it lies between the present acknowledgement and the
        // number last sent, both included. Then it is taken as a receipt too.
        ensures { self.new ≡ after_acknowledgement self.old num }
    {
        if num.off(self.acknowledged) <= self.outstanding() {
            // The receipt comes first, since no more may be kept than is outstanding.
            self.receipt(num);
            self.acknowledged = num;
        }
    }

    /// Takes the window that the other end announced, which may be 0.
    pub fn set_window(&mut self, window: u16)
        // The announced window is cut to the cap. Nothing else changes.
        ensures { self.new ≡ after_window self.old window }
    {
        self.window = window.min(self.cap);
    }

    /// Lends a kept item by its index.
    pub fn kept(&self, index: usize) -> Option<&Item>
        // The item at the index is lent, the oldest at 0, where there is one.
        ensures { option_copied result ≡ slice_get self.now.kept index }
    {
        self.kept.get(index)
    }

    /// How many items are sent and not acknowledged.
    pub fn outstanding(&self) -> u16
        // The answer is how many items are outstanding, at most the cap.
        ensures count { result ≡ outstanding_of self.now }
        ensures fits { result ≤ self.now.cap }
    {
        self.sent.off(self.acknowledged)
    }

    /// How many items are sent and not receipted.
    pub fn unreceipted(&self) -> u16
        // The answer is how many items are kept, at most the cap and at most 64.
        ensures count { result ≡ length self.now.kept }
        ensures fits { (result ≤ self.now.cap) × (result ≤ MAX_WINDOW) }
    {
        self.sent.off(self.receipted)
    }

    /// Drops every item, so that the window can be started again.
    pub fn clear(&mut self)
        // A cleared send window is as a new one of its cap.
        ensures { self.new ≡ clear_send self.old.cap }
    {
        self.kept.clear();
        self.sent = PktNum(0);
        self.receipted = PktNum(0);
        self.acknowledged = PktNum(0);
        self.window = self.cap;
    }
}

//! Which counters were heard.
ghost use Rattle.std.specs.Prelude.{◌≡◌, ◌↔◌, IsTrue};
ghost use Rattle.chaos_seal.specs.Window.{IsExact, IsFresh, hear, nothing_heard};

use crate::limits::SEAL_WINDOW;

/// The counters that were heard: the greatest, and of each residue by the window's width the
/// greatest.
#[derive(Drop)]
pub struct ReplayWindow {
    pub greatest: u64,
    pub slots: [u64; 256],
}

impl ReplayWindow {
    /// Nothing was heard but 0, which nobody sends.
    pub fn new() -> Self
        ensures { result ≡ nothing_heard }
    {
        ReplayWindow {
            greatest: 0,
            slots: [0; 256],
        }
    }

    /// Whether a counter is fresh.
    pub fn is_fresh(&self, counter: u64) -> bool
        ensures { IsTrue result ↔ IsFresh self.now counter }
    {
        let at = (counter % SEAL_WINDOW) as usize;
        self.slots[at] < counter && self.greatest.saturating_sub(counter) < SEAL_WINDOW
    }

    /// Hears a counter.
    pub fn hear(&mut self, counter: u64)
        ensures { self.new ≡ hear counter self.old }
    {
        let at = (counter % SEAL_WINDOW) as usize;
        self.slots[at] = counter;
        if self.greatest < counter {
            self.greatest = counter;
        }
    }
}

/// The law of the window, over the definitions alone.
pub fn law_window()
    // A counter is fresh exactly where it isn't 0, wasn't heard, and lies fewer than 256 below each
    // counter that was heard.
    ensures { IsExact }
{}

//! What is due in each slot.
ghost use Rattle.std.specs.Prelude.{◌≤◌, length};
ghost use Rattle.chaos_node.specs.InTurn.{TurnDoes};
ghost use Rattle.chaos_node.specs.Phase.{over_slots};
ghost use Rattle.chaos_node.specs.Slots.{tick_at};
ghost use Rattle.chaos_node.specs.Timer.{tick_by};

use crate::limits::TURN_ROOM;
use crate::sending::send_singly;
use crate::timer::{RetransmitTimer, holds_at};
use crate::turn::Turn;
use chaos_link::Link;

impl<L: Link> Turn<'_, L> {
    /// Ticks the connection in each slot whose timer doesn't hold the tick back, and answers whether
    /// packets went out. A slot without a timer is ticked.
    pub fn tick_slots(&mut self, timers: &[RetransmitTimer]) -> bool
        // Each slot whose timer doesn't hold its tick back is ticked, in rising order. After each
        // tick what it put out is sent, each packet in a datagram of its own. The answer is whether
        // any packet was sent.
        ensures { TurnDoes self.old self.new
            (over_slots (tick_by timers.now self.old.now) (length self.old.host.now.slots)
            self.old.host.now) result }
    {
        // A configuration has a send window of at most 64 packets, so that the outbox has room for
        // a tick.
        let _window = self.host.config().send_cap();
        let mut sent = false;
        let mut from = 0;
        'slots: while let Some((place, _, _)) = self.host.next_conn(from) {
            sent = self.tick_by(place, timers) || sent;
            from = place + 1;
        }
        sent
    }

    /// Ticks the connection in a slot, unless the slot's timer holds the tick back.
    fn tick_by(&mut self, place: usize, timers: &[RetransmitTimer]) -> bool
        requires window { self.old.host.now.config.send_cap ≤ TURN_ROOM }
        ensures { TurnDoes self.old self.new
            (tick_by timers.now self.old.now place self.old.host.now) result }
    {
        if holds_at(timers, place, self.host, self.now) {
            return false;
        }
        self.tick_slot(place)
    }

    /// Ticks the connection in a slot, sends each packet that the tick puts out in a datagram of
    /// its own, and answers whether packets went out.
    #[tactic(auto, using(crate::proofs::Phase::put_into_empty))]
    fn tick_slot(&mut self, place: usize) -> bool
        requires window { self.old.host.now.config.send_cap ≤ TURN_ROOM }
        ensures { TurnDoes self.old self.new (tick_at self.old.now place self.old.host.now) result }
    {
        let _ = self.host.tick(place, self.now, self.out);
        send_singly(self.link, self.out, self.carriage)
    }
}

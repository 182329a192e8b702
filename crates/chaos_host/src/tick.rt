//! What is due in one slot.
ghost use Rattle.std.specs.Prelude.{◌≡◌, ◌<◌, ◌≤◌, ◌&&◌, true, length, slice_get, IfSome, Some};
ghost use Rattle.chaos_packet.specs.Outbox.{room_of};
ghost use Rattle.chaos_host.specs.Acted.{HostDoes};
ghost use Rattle.chaos_host.specs.Slot.{is_used_at};
ghost use Rattle.chaos_host.specs.Tick.{host_tick};

use crate::host::Host;
use crate::slots::is_used_at;
use chaos_conn::Ticked;
use chaos_packet::Outbox;

impl Host {
    /// Does what is due for the connection in a slot. Slots are numbered from 0. The call needs
    /// room for as many packets as the send window of a connection.
    pub fn tick(&mut self, slot: usize, now: u64, out: &mut Outbox) -> Ticked
        requires { self.old.config.send_cap ≤ room_of out.old }
        // A tick does what is due in its slot, and changes no other. If no slot is in use there, it
        // is Quiet, and nothing changes.
        ensures { HostDoes self.old self.old.config.send_cap (host_tick self.old slot now)
            self.new out.old out.new result }
    {
        if !is_used_at(&self.slots, slot) {
            return Ticked::Quiet;
        }
        self.slots[slot].conn.tick(now, out)
    }
}

//! Calls that may end a connection, whose slot is free then.
ghost use Rattle.std.specs.Prelude.{◌≡◌, ◌≤◌, length, ◌&&◌, if◌then◌else◌, Some, is_none, is_some};
ghost use Rattle.chaos_window.specs.declared.limits.TheConstants.{MAX_WINDOW};
ghost use Rattle.chaos_host.specs.Slot.{named_slot, place_of};
ghost use Rattle.chaos_host.specs.View.{id_at};
ghost use Rattle.chaos_net.specs.Kept.{AreBelow};
ghost use Rattle.chaos_net.specs.Inside.{HasSpace, Settles};
ghost use Rattle.chaos_net.specs.declared.mark.Mark.TheVariants.{Frees, Stays};

use crate::desk::Desk;
use crate::mark::Mark;
use crate::station::{KeptStation, place_of};
use chaos_host::{ConnId, Host};

impl KeptStation {
    /// Settles a call that may have ended a connection, which was there before the call or not.
    pub(crate) fn settle_ended(&mut self, desk: &mut Desk, id: ConnId, named: bool)
        requires few { length desk.old.out.packets ≤ MAX_WINDOW }
        requires space { HasSpace self.old.sent desk.old }
        requires turns { AreBelow desk.old.events self.old.seats.items }
        ensures { Settles self.old self.new desk.old desk.new (Some (place_of id))
            (if named && is_none (id_at self.old.host (place_of id)) then Frees else Stays) }
    {
        let place = place_of(id);
        let mark = if named && self.host.id_of(place).is_none() {
            Mark::Frees
        } else {
            Mark::Stays
        };
        self.settle(desk, Some(place), mark);
    }
}

/// Whether a connection has this index.
pub(crate) fn is_named(host: &Host, id: ConnId) -> bool
    ensures { result ≡ is_some (named_slot host.now.slots id) }
{
    host.state(id).is_ok()
}

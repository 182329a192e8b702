//! The next moment at which something is due in one of the slots.
ghost use Rattle.std.specs.Prelude.{◌≡◌, ℕ, ◌<◌, ◌^◌};
ghost use Rattle.std.specs.List.{list_all};
ghost use Rattle.chaos_conn.specs.NextDue.{is_quiet_at, is_before};
ghost use Rattle.chaos_host.specs.NextDue.{IsNextDue};

use crate::host::Host;
use crate::slot::Slot;
use chaos_conn::earlier;

impl Host {
    /// The next moment at which something is due for one of the connections, in milliseconds, as
    /// long as nothing else is done with the host. It is 0 if something is due already, and there
    /// is none if no tick finds anything due.
    ///
    /// The cost is a walk over the slots.
    pub fn next_due(&self) -> Option<u64>
        // At each moment of 64 bits before this one, and at each if there is none, a tick of any
        // slot would be `Quiet`. At each moment from this one on, a tick of some slot wouldn't be.
        ensures { IsNextDue self.now result }
    {
        next_of(&self.slots)
    }
}

/// The next moment at which something is due in one of these slots.
fn next_of(slots: &[Slot]) -> Option<u64>
    ensures { (now : ℕ) → now < 2 ^ 64 →
        list_all (λ slot. is_quiet_at slot.conn now) slots.now ≡ is_before now result }
{
    let mut next = None;
    for slot in slots {
        next = earlier(next, slot.conn.next_due());
    }
    next
}

//! Indices that an older process may have had.
ghost use Rattle.std.specs.Prelude.{◌≡◌, ◌<◌, [], length};
ghost use Rattle.chaos_node.specs.Passing.{after_passing, pass_slots};

use chaos_host::Host;
use chaos_packet::{Outbox, PktNum};

/// The contact of the connections that use up indices. Nobody hears of it.
const NOBODY: &[u8] = b"NONE";

/// Uses up so many indices of each slot of a host whose slots are free. So copies of an older
/// process's packets find no connection. For each index a connection with this other host is asked
/// for, and given up. The outbox lends its room for the requests, which aren't sent.
pub fn pass_indices(host: &mut Host, to: u16, count: u8, out: &mut Outbox)
    requires empty { out.old.packets ≡ [] }
    requires room { 0 < out.old.cap }
    // The outbox stays as it is.
    ensures out { out.new ≡ out.old }
    // Each slot used up so many indices.
    ensures host { host.new ≡ after_passing to count host.old }
    // The host has as many slots as before.
    ensures size { length host.new.slots ≡ length host.old.slots }
{
    let slots = host.conns();
    for passed in 0..count {
        pass_slots(host, to, slots, out);
    }
}

/// Uses up an index of each of so many slots, from the lowest free slot on. For each a connection
/// is asked for, and then all are given up. Nothing of it is sent.
fn pass_slots(host: &mut Host, to: u16, slots: usize, out: &mut Outbox)
    requires empty { out.old.packets ≡ [] }
    requires room { 0 < out.old.cap }
    ensures out { out.new ≡ out.old }
    ensures host { host.new ≡ pass_slots to slots host.old }
    ensures size { length host.new.slots ≡ length host.old.slots }
{
    if slots == 0 {
        return;
    }
    let called = host.connect(to, NOBODY, PktNum(0), 0, out);
    out.drop_front();
    pass_slots(host, to, slots - 1, out);
    if let Ok(id) = called {
        let _ = host.close(id, b"", out);
        out.drop_front();
    }
}

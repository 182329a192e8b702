//! Each slot in use is served, once or in a burst.
ghost use Rattle.std.specs.Prelude.{◌≡◌, ◌<◌, ◌≤◌, ◌⊎◌, false, length, true};
ghost use Rattle.chaos_file.specs.ServeCalls.{can_serve};
ghost use Rattle.chaos_file.specs.Store.{change};
ghost use Rattle.file_server.specs.InTurn.{ServerTurnDoes, SlotTurnDoes};
ghost use Rattle.file_server.specs.Logged.{logged_uses};
ghost use Rattle.file_server.specs.Serve.{ServesSlotBy, ServesSlotsBy};
ghost use Rattle.file_server.specs.declared.limits.TheConstants.{BURST};
ghost use Rattle.file_server.specs.declared.serve_mode.ServeMode.TheVariants.{Burst, Once};

use crate::limits::BURST;
use crate::log::Log;
use crate::serve_mode::ServeMode;
use crate::sessions::{Sessions, SlotSession};
use crate::turn_input::TurnInput;
use chaos_file::{ServeAt, Store, can_serve, can_serve_conn};
use chaos_host::{ConnId, Host};
use chaos_link::Link;
use chaos_node::{Turn, send_all};

/// Serves each slot, in rising order, and logs what each command changed. Says whether packets went
/// out.
pub fn serve_slots<S: Store, L: Link, G: Log>(
    turn: &mut Turn<'_, L>,
    sessions: &mut Sessions,
    store: &mut S,
    input: &TurnInput<'_>,
    log: &mut G,
) -> bool
    requires alike { length sessions.old ≡ length turn.old.host.now.slots }
    ensures { ServerTurnDoes turn.old turn.new
        (ServesSlotsBy (logged_uses (change S.contents S.may_give S.count)) input.now.mode turn.old.now
        (length turn.old.host.now.slots)) sessions.old sessions.new (store.old, G.logged log.old)
        (store.new, G.logged log.new) result }
{
    let mut sent = false;
    let mut from = 0;
    'slots: while let Some(at) = turn.host.next_conn(from) {
        let (place, id) = (at.0, at.1);
        from = place + 1;
        let can_serve = can_serve_conn(at.2);
        // Most slots of most turns: one look is all that they cost. Serving would change nothing.
        if !can_serve && sessions.kept[place].id == Some(id) {
            continue 'slots;
        }
        sent = serve_slot(turn, &mut sessions.kept[place], id, store, input, log) || sent;
        if sessions.kept[place].may_hold_files() {
            sessions.files_below = sessions.files_below.max(place + 1);
        }
    }
    sent
}

/// Serves the connection with this index by its slot's session, and logs what its commands changed.
/// Says whether packets went out.
fn serve_slot<S: Store, L: Link, G: Log>(
    turn: &mut Turn<'_, L>,
    slot_session: &mut SlotSession,
    id: ConnId,
    store: &mut S,
    input: &TurnInput<'_>,
    log: &mut G,
) -> bool
    ensures { SlotTurnDoes turn.old turn.new
        (ServesSlotBy (logged_uses (change S.contents S.may_give S.count)) input.now.mode turn.old.now) id slot_session.old
        slot_session.new (store.old, G.logged log.old) (store.new, G.logged log.new) result }
{
    let at = ServeAt {
        alloc: input.alloc,
        moment: turn.now,
    };
    let host = &mut *turn.host;
    let out = &mut *turn.out;
    let room = out.room();
    let mut times = 0;
    let mut more = true;
    'burst: while more {
        slot_session.serve(host, id, store, out, &at, log);
        times += 1;
        more = goes_on(input.mode, times, room - out.room(), host, id);
    }
    send_all(turn.link, out, turn.carriage)
}

/// Whether serving goes on after so many commands, which put out so many packets.
fn goes_on(mode: ServeMode, times: usize, packets: usize, host: &Host, id: ConnId) -> bool
    ensures on { result ≡ true → (mode ≡ Burst) × (times < BURST) × (packets ≤ BURST) }
    ensures over { result ≡ false
        → (mode ≡ Once) ⊎ ((can_serve host.now id ≡ false) ⊎ ((BURST ≤ times) ⊎ (BURST < packets))) }
{
    mode == ServeMode::Burst && times < BURST && packets <= BURST && can_serve(host, id)
}

//! The ends of connections: those that were served to their EOF, and those whose peer acknowledges
//! nothing, are closed; those that ended are released. Each function of a turn answers whether
//! packets went out.
ghost use Rattle.std.specs.Prelude.{◌≡◌, ◌<◌, false, length};
ghost use Rattle.chaos_conn.specs.State.{is_ended};
ghost use Rattle.chaos_node.specs.InTurn.{TurnDoes};
ghost use Rattle.chaos_node.specs.Phase.{over_slots};
ghost use Rattle.file_server.specs.InTurn.{options_of};
ghost use Rattle.file_server.specs.Sessions.{serving_at};
ghost use Rattle.file_server.specs.Slots.{EndsNothing, close_at, end_phases, is_late, is_over, release_at};

use crate::sessions::Sessions;
use crate::turn_input::TurnInput;
use chaos_conn::Conn;
use chaos_host::Host;
use chaos_link::Link;
use chaos_node::{Turn, any_of, send_all};

/// The last phases of a turn: connections that are over are closed, those that ended are released,
/// and what is due is done in each slot whose timer doesn't hold that back.
pub(crate) fn end_slots<L: Link>(
    turn: &mut Turn<'_, L>,
    sessions: &Sessions,
    input: &TurnInput<'_>,
) -> bool
    requires alike { length sessions.now ≡ length turn.old.host.now.slots }
    ensures { TurnDoes turn.old turn.new
        (end_phases (options_of input.now) sessions.now turn.old.now turn.old.host.now) result }
{
    // Most turns: one look at each slot shows that nothing ends.
    if !may_any_end(turn.host, sessions, input.silence, turn.now) {
        return turn.tick_slots(input.timers);
    }
    let closed = close_slots(turn, sessions, input.silence);
    let released = release_slots(turn);
    let ticked = turn.tick_slots(input.timers);
    any_of(ticked, released, closed)
}

/// Whether any connection may have to be closed or released.
fn may_any_end(host: &Host, sessions: &Sessions, silence: Option<u64>, now: u64) -> bool
    requires { length sessions.now ≡ length host.now.slots }
    ensures { result ≡ false
        → EndsNothing silence now sessions.now host.now (length host.now.slots) }
{
    let mut from = 0;
    'slots: while let Some((place, _, conn)) = host.next_conn(from) {
        if may_end(conn, sessions, place, silence, now) {
            return true;
        }
        from = place + 1;
    }
    false
}

/// Whether a connection may have to be closed or released, by what its slot's session holds: its EOF
/// was served, or it is late and its peer has acknowledged nothing, or it has ended.
fn may_end(conn: &Conn, sessions: &Sessions, place: usize, silence: Option<u64>, now: u64) -> bool
    requires { place < length sessions.now }
    ensures on { result ≡ false → is_over (serving_at sessions.now place).eof
        (is_late silence (serving_at sessions.now place).since now) conn.now ≡ false }
    ensures lives { result ≡ false → is_ended conn.now.state ≡ false }
{
    let is_late = is_late(silence, sessions.since(place), now) && conn.keeps_opn();
    sessions.eof(place) || is_late || conn.state().is_ended()
}

/// Closes each connection that is over, in the slots' rising order.
pub(crate) fn close_slots<L: Link>(
    turn: &mut Turn<'_, L>,
    sessions: &Sessions,
    silence: Option<u64>,
) -> bool
    requires alike { length sessions.now ≡ length turn.old.host.now.slots }
    ensures { TurnDoes turn.old turn.new
        (over_slots (close_at silence turn.old.now sessions.now) (length turn.old.host.now.slots)
        turn.old.host.now) result }
{
    let mut sent = false;
    let mut from = 0;
    'slots: while let Some((place, _, _)) = turn.host.next_conn(from) {
        sent = close_slot(turn, sessions, place, silence) || sent;
        from = place + 1;
    }
    sent
}

/// Closes the connection in a slot with an empty text, where it is over.
fn close_slot<L: Link>(
    turn: &mut Turn<'_, L>,
    sessions: &Sessions,
    place: usize,
    silence: Option<u64>,
) -> bool
    requires within { place < length sessions.now }
    ensures { TurnDoes turn.old turn.new
        (close_at silence turn.old.now sessions.now place turn.old.host.now) result }
{
    let Some((id, conn)) = turn.host.conn_at(place) else {
        return false;
    };
    let late = is_late(silence, sessions.since(place), turn.now);
    if !is_over(sessions.eof(place), late, conn) {
        return false;
    }
    let _ = turn.host.close(id, b"", turn.out);
    send_all(turn.link, turn.out, turn.carriage)
}

/// Whether the time of a peer that stays silent since a moment is over.
fn is_late(silence: Option<u64>, since: u64, now: u64) -> bool
    ensures { result ≡ is_late silence since now }
{
    match silence {
        Some(millis) => now.saturating_sub(since) >= millis,
        None => false,
    }
}

/// Whether a connection is to be closed: its EOF was served and its peer read all, or it is late,
/// and its peer has acknowledged nothing that was sent to it.
fn is_over(eof: bool, late: bool, conn: &Conn) -> bool
    ensures { result ≡ is_over eof late conn.now }
{
    eof && conn.drained() || late && conn.keeps_opn()
}

/// Releases each connection that has ended, in the slots' rising order.
pub fn release_slots<L: Link>(turn: &mut Turn<'_, L>) -> bool
    ensures { TurnDoes turn.old turn.new
        (over_slots release_at (length turn.old.host.now.slots) turn.old.host.now) result }
{
    let mut sent = false;
    let mut from = 0;
    'slots: while let Some((place, _, _)) = turn.host.next_conn(from) {
        sent = release_slot(turn, place) || sent;
        from = place + 1;
    }
    sent
}

/// Releases the connection in a slot, where it has ended.
#[tactic(auto, using(chaos_node::proofs::Phase::put_into_empty))]
fn release_slot<L: Link>(turn: &mut Turn<'_, L>, place: usize) -> bool
    ensures { TurnDoes turn.old turn.new (release_at place turn.old.host.now) result }
{
    let Some((id, conn)) = turn.host.conn_at(place) else {
        return false;
    };
    if !conn.state().is_ended() {
        return false;
    }
    let _ = turn.host.release(id, turn.out);
    send_all(turn.link, turn.out, turn.carriage)
}

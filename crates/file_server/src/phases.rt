//! A server's turn, phase by phase.
ghost use Rattle.std.specs.Prelude.{◌≡◌, length};
ghost use Rattle.chaos_file.specs.Store.{change};
ghost use Rattle.file_server.specs.InTurn.{ServerTurnDoes, options_of};
ghost use Rattle.file_server.specs.Logged.{logged_uses};
ghost use Rattle.file_server.specs.Turn.{IsTurnBy};

use crate::arriving::arrive_at_server;
use crate::ending::end_slots;
use crate::log::Log;
use crate::serving::serve_slots;
use crate::sessions::Sessions;
use crate::turn_input::TurnInput;
use chaos_file::Store;
use chaos_link::{Link, LinkFault, Packets};
use chaos_node::{Turn, any_of};

/// Makes a turn of what came. Says whether packets went out.
pub(crate) fn take_turn<S: Store, L: Link, G: Log>(
    turn: &mut Turn<'_, L>,
    sessions: &mut Sessions,
    store: &mut S,
    came: Option<Result<Packets<'_>, LinkFault>>,
    input: &TurnInput<'_>,
    log: &mut G,
) -> bool
    requires alike { length sessions.old ≡ length turn.old.host.now.slots }
    ensures { ServerTurnDoes turn.old turn.new
        (IsTurnBy (logged_uses (change S.contents S.may_give S.count)) input.now.mode
        (options_of input.now) came.entry input.now.start turn.old.now) sessions.old sessions.new
        (store.old, G.logged log.old) (store.new, G.logged log.new) result }
{
    let arrived = arrive_at_server(turn, came, input.start);
    let served = serve_slots(turn, sessions, store, input, log);
    let ended = end_slots(turn, sessions, input);
    sessions.give_back(turn.host);
    any_of(arrived, served, ended)
}

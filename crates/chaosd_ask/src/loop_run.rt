//! The engine `loop`.
ghost use Rattle.std.specs.Prelude.{◌≡◌, ◌<◌, ◌≤◌, ◌+◌, ◌↔◌, Err, OnOk};
ghost use Rattle.chaos_packet.specs.Count.{Rose};
ghost use Rattle.chaos_node.specs.declared.end.TurnEnd.{TurnEnd};
ghost use Rattle.chaosd_ask.specs.Conversation.{Converses, IfAsked, loop_pace};
ghost use Rattle.chaosd_ask.specs.Notes.{NotesRun};
ghost use Rattle.chaosd_ask.specs.Script.{Runs};
ghost use Rattle.chaosd_ask.specs.declared.limits.TheConstants.{LOOP_CLIENT, LOOP_SERVER};
ghost use Rattle.chaos_conn.specs.Config.{usual_config};
ghost use Rattle.file_client.specs.Caller.{new_caller};
ghost use Rattle.file_client.specs.Talk.{talker};

use crate::end::ScriptEnd;
use crate::input_ready::AlwaysReady;
use crate::limits::{LOOP_CLIENT, LOOP_CLIENT_START, LOOP_SERVER, LOOP_SERVER_START, LOOP_TURN};
use crate::notes::Notes;
use crate::script::ask_script;
use chaos_conn::ConnConfig;
use chaos_file::MemStore;
use chaos_host::Host;
use chaos_link::{Carriage, LINK_ROOM, Link};
use chaos_node::{Interval, LastPacket, NodeFault, TURN_ROOM, TurnEnd, client_turn};
use chaos_packet::{Outbox, PktNum};
use chaosd_io::RunFault;
use file_client::{Client, ClientHost, Contact, Driver, Patience, Route};
use file_server::{Server, Silent};
use std::alloc::Global;
use std::io::{Read, Write};

/// The server at the other end, and its files.
#[derive(Drop)]
struct FarEnd {
    server: Server,
    store: MemStore,
}

impl FarEnd {
    /// A turn of the server, which doesn't wait.
    fn turn<B: Link>(&mut self, link: &mut B, now: u64) -> TurnEnd
        ensures fault { (result ≡ TurnEnd.LinkFault) ↔ Rose (B.count link.old) (B.count link.new) }
    {
        self.server.turn(
            &mut self.store,
            link,
            LOOP_SERVER_START,
            now,
            false,
            &mut Silent,
        )
    }
}

/// The driver of a client beside a server in the same process, which keeps its files in memory. The moments
/// are the turns times 10.
#[derive(Drop)]
struct LoopDriver<'a, 'b, 'c, A: Link, B: Link> {
    near: &'a mut A,
    far: &'b mut B,
    far_end: &'c mut FarEnd,
    turns: u64,
    /// Where the client receives datagrams.
    buffer: [u8; LINK_ROOM],
    /// Whether the last turn of both brought nothing.
    is_idle: bool,
}

impl<A: Link, B: Link> LoopDriver<'_, '_, '_, A, B> {
    ghost use Rattle.std.specs.Prelude.{◌&&◌, nat_le, true};
    ghost use Rattle.chaos_packet.specs.Outbox.{room_of};
    ghost use Rattle.chaos_node.specs.declared.limits.TheConstants.{TURN_ROOM};

    /// Whether the client's turn waits for what is still on its way: where that is allowed, the
    /// turn before brought nothing, and nothing is to be sent.
    fn waits(&self, out: &Outbox, may_wait: bool) -> bool
        ensures exact { result
            ≡ (may_wait && self.now.is_idle && nat_le TURN_ROOM (room_of out.now)) }
        ensures allowed { result ≡ true → may_wait ≡ true }
    {
        may_wait && self.is_idle && out.room() >= TURN_ROOM
    }
}

impl<A: Link, B: Link> Driver for LoopDriver<'_, '_, '_, A, B> {
    ghost use Rattle.std.specs.Prelude.{◌∷◌, ◌+◌, ◌*◌, ◌⊎◌, [], None, Some, min};
    ghost use Rattle.chaos_packet.specs.Count.{Rose, max_count};
    ghost use Rattle.chaosd_ask.specs.declared.limits.TheConstants.{LOOP_TURN};
    ghost use Rattle.chaosd_ask.specs.Conversation.{loop_pace};

    ghost Time = { Unit {0} };

    ghost time = { λ _. tt };

    ghost pace = { λ _. loop_pace };

    ghost stands = { λ driver. Some (min (driver.turns * LOOP_TURN) max_count) };

    ghost timed = { λ _. None };

    ghost later = { λ moment. min (moment + LOOP_TURN) max_count };

    ghost stops = { λ _. ⊥ };

    ghost failures = { λ driver. A.count driver.near.now + B.count driver.far.now };

    ghost failed = { λ before after. Rose (A.count before.near.now) (A.count after.near.now)
        ⊎ Rose (B.count before.far.now) (B.count after.far.now) };

    ghost links = { λ driver. driver.near.ghost_name ∷ driver.far.ghost_name ∷ [] };

    ghost queue = { λ driver. A.queue driver.near.now };

    ghost asked = { λ now start. A.asked now.near.now start.near.now };

    ghost began = { λ driver. A.began driver.near.now };

    fn now(&self) -> Result<u64, NodeFault> {
        Ok(self.turns.saturating_mul(LOOP_TURN))
    }

    fn start(&self, _now: u64) -> PktNum {
        LOOP_CLIENT_START
    }

    fn wait(&self) -> u64 {
        u64::MAX
    }

    fn resent(&self) -> u64 {
        0
    }

    fn is_crowded(&self) -> bool {
        true
    }

    fn patience(&self) -> Patience {
        Patience::usual()
    }

    /// A turn of the client, and then one of the server. While one acts, the other can't: so both
    /// poll, but the client waits for what is still on its way where the turn before brought
    /// nothing and nothing is to be sent.
    fn turn(
        &mut self,
        host: &mut Host,
        now: u64,
        out: &mut Outbox,
        last_arrival: &mut LastPacket,
        carriage: Carriage,
        may_wait: bool,
    ) -> Result<(), NodeFault> {
        self.turns = self.turns.saturating_add(1);
        let may_wait = self.waits(out, may_wait);
        let asked = client_turn(
            host,
            self.near,
            now,
            out,
            last_arrival,
            carriage,
            &mut self.buffer,
            may_wait,
        );
        let served = self.far_end.turn(self.far, now);
        self.is_idle = asked == TurnEnd::Idle && served == TurnEnd::Idle;
        if asked == TurnEnd::LinkFault || served == TurnEnd::LinkFault {
            Err(NodeFault::Link)
        } else {
            Ok(())
        }
    }
}

/// Runs a FILE script between two hosts of this process: a client at 000401 over `link_a`, and a
/// server at 000402 over `link_b`, which keeps its files in memory. What is sent over one link is
/// to be received from the other.
///
/// Each line of the script is a command. A command is sent when the one before it got its reply.
/// The reply is printed and handed on to the writer before more of the script is read, so somebody
/// who types commands sees each reply at once. A command waits 1,000 turns at most: for the
/// connection to open and to have room, and for its reply. A turn is one of the client and then one
/// of the server, and moments are turns times 10 milliseconds. If a command gets no reply, `no
/// reply` is printed and the run ends.
///
/// Behind the last command an EOF is sent, which waits 100 turns at most to be acknowledged. The
/// connection is then closed, also after a fault of the script, the reader or the writer. A script
/// without lines asks for no connection. What both ends send goes out by the carriage; datagrams of
/// both versions are read.
///
/// The run ends by its first fault. The cost is a look at each byte and the turns, of which a
/// command mostly takes two. The hosts take their memory first, and later only the server's files
/// take some.
///
/// `notes` gets what the replies that were printed leave undone, and what is wrong with a bad line.
/// It also gets why a command got no reply, of which no clause of this call speaks.
///
/// # Errors
/// [`RunFault`], by its number:
/// - 1: the reader fails or is interrupted 2,000,000 times.
/// - 2: the writer fails.
/// - 3: more than 1,048,576 bytes come.
/// - 4: there is no memory for the hosts.
/// - 5: a line stands for no command.
/// - 6: a link failed; the run ends after that turn.
pub fn run_loop<R: Read, W: Write, A: Link, B: Link>(
    alloc: Global,
    reader: &mut R,
    writer: &mut W,
    link_a: &mut A,
    link_b: &mut B,
    notes: &mut Notes,
    carriage: Carriage,
) -> Result<ScriptEnd, RunFault>
    // If the run ends well, as many commands were tried as were replied to, or one more. That many
    // replies were printed, each on its line, and then `no reply` where the last command got none.
    // The commands are the first lines of the input, and of an input above 1,048,576 bytes the
    // first lines that end within these. If each command got a reply, the commands are all lines,
    // and the input has at most so many bytes and was read to its end.
    // `BadScript` has the first line that stands for no command, which ends within the limit, and
    // replies to the lines before it were printed.
    // `InputTooLong` comes only of an input that is too long. Then no line that ended within the
    // limit is bad, and replies to all of them were printed.
    // If the reader fails, no line that ended in what was consumed of it is bad, and replies to all
    // of them were printed.
    ensures runs { Runs (R.remaining reader.old) (R.remaining reader.new) (W.contents writer.old)
        (W.contents writer.new) result }
    // If the run ends well, the connection wrote the commands of these lines, in order, each once;
    // the last is written at most once where it got no reply. If each got one, the EOF follows, and
    // at most 100 turns went by until the server had read all. The EOF is left out where there was
    // no line, where it wasn't taken in 100 turns, or where the connection had ended or there was
    // none. Each turn was at a moment of so many turns times 10, and sent by the carriage.
    // The replies that were printed are the data that the connection read, in order. A command got
    // none only where 1,000 turns were made, or the connection had ended or there was none.
    // If a line is bad, the reader fails or the input is too long, the connection wrote the
    // commands of the lines before, in order and each once, and read the replies that were printed.
    // However the run ends, the connection was then closed, if there was one, and what waited was
    // sent, unless failures of a link were counted.
    ensures talk { IfAsked result
        (Converses loop_pace (0 < A.count link_a.new + B.count link_b.new)
        (talker (new_caller LOOP_CLIENT LOOP_SERVER usual_config carriage 0)
        (A.queue link_a.old))
        (A.queue link_a.new) (R.remaining reader.old) (R.remaining reader.new)
        (W.contents writer.old) (W.contents writer.new) result) }
    // The notes are those of the replies that were printed, one after another. Where a line that
    // stands for no command ended the run, it was noted what is wrong with that line.
    ensures noted { NotesRun (R.remaining reader.old) (W.contents writer.old) (W.contents writer.new)
        notes.new.bad_line notes.new.replies result }
    // The run ends well only if the links' counts of failures, together, didn't rise.
    ensures well { OnOk result
        (A.count link_a.new + B.count link_b.new ≤ A.count link_a.old + B.count link_b.old) }
    // The run ends by `LinkFault` only if failures of a link were counted.
    ensures failed { result ≡ Err RunFault.LinkFault → 0 < A.count link_a.new + B.count link_b.new }
{
    let config = ConnConfig::usual();
    let mut far_end = FarEnd {
        server: Server::new(alloc, LOOP_SERVER, config, carriage, Interval::Measured)?,
        store: MemStore::new(alloc),
    };
    let route = Route {
        me: LOOP_CLIENT,
        to: LOOP_SERVER,
        contact: Contact::file(),
        config,
        carriage,
    };
    let mut host = ClientHost::new(alloc, &route, 0)?;
    let driver = LoopDriver {
        near: link_a,
        far: link_b,
        far_end: &mut far_end,
        turns: 0,
        buffer: [0; LINK_ROOM],
        is_idle: false,
    };
    let mut client = Client {
        host: &mut host,
        driver,
    };
    ask_script::<AlwaysReady, LoopDriver<'_, '_, '_, A, B>, R, W>(
        &mut client,
        reader,
        writer,
        notes,
    )
}

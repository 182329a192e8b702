//! One turn of a server, as the specification of turns calls for it: over a host, its sessions, a
//! store, a link and an outbox that are kept apart. The turn itself is [`take_turn`] over a
//! [`Turn`], and this call only makes one of its arguments, which are more than any other call of
//! the crate has.
ghost use Rattle.std.specs.Prelude.{◌≡◌, ◌≤◌, ◌↔◌, [], length};
ghost use Rattle.chaos_packet.specs.Count.{Rose};
ghost use Rattle.chaos_file.specs.Store.{change};
ghost use Rattle.chaos_link.specs.Link.{Asks};
ghost use Rattle.chaos_node.specs.Station.{station};
ghost use Rattle.file_server.specs.Server.{server};
ghost use Rattle.file_server.specs.Slots.{no_options};
ghost use Rattle.file_server.specs.Turn.{RunsTurn};
ghost use Rattle.file_server.specs.declared.serve_mode.ServeMode.TheVariants.{Once};

use crate::log::Silent;
use crate::phases::take_turn;
use crate::serve_mode::ServeMode;
use crate::sessions::Sessions;
use crate::turn_input::TurnInput;
use chaos_file::Store;
use chaos_host::Host;
use chaos_link::{Carriage, LINK_ROOM, Link};
use chaos_node::{TURN_ROOM, Turn, TurnEnd, begin, end_of};
use chaos_packet::{Outbox, PktNum};
use std::alloc::Global;

/// One turn of a server of FILE: it sends what waits, receives at most one datagram, and does what
/// is due at the moment `now`. What the host puts out is sent after each of its calls. In this
/// order:
///
/// 1. Each packet of the datagram, which may be of either version, is delivered in order. A
///    datagram that carries none is dropped.
/// 2. Where one was a new request for contact FILE, the request is accepted before the next packet
///    is delivered; what its connection writes is numbered from `start` on.
/// 3. Each slot in use is served once, in rising order, by its own session. It is a new session
///    where another connection was in the slot before. ([`Server::turn`](crate::Server::turn) also
///    serves in bursts.)
/// 4. Each connection whose EOF was served and whose peer read all is closed with an empty text.
/// 5. Each ended connection is released.
/// 6. Each slot is ticked.
/// 7. The open files of each slot without a connection are given back.
///
/// By `carriage` packets that are sent at once go each in a datagram of version 1, or several to
/// one host in a datagram of version 2.
///
/// The datagram is received into `buffer`, whatever that holds: a caller keeps it from turn to
/// turn. Where none is there the turn waits for one as the link does, where `may_wait` allows it. A
/// caller that leaves items in front, see [`can_serve_any`](crate::can_serve_any), isn't to let the
/// next turn wait.
///
/// `LinkFault` exactly where the link's count of failures rose in the turn, or stands at its
/// greatest; a packet whose send failed is lost, and the turn goes on to its end. Otherwise
/// the turn ends by `Worked` where a datagram came or a packet was sent, and by `Idle` where not.
///
/// The sessions are as many as the host's slots, and the outbox has room for [`TURN_ROOM`] packets
/// at least. A turn walks over the slots in use three times, and twice more where a connection may
/// end. It looks for files to give back as far as the last slot whose session may have any open. An
/// RFC walks over all slots. No memory is taken but by [`chaos_file::Session::apply`].
pub fn run_turn<S: Store, L: Link>(
    alloc: Global,
    host: &mut Host,
    sessions: &mut Sessions,
    store: &mut S,
    link: &mut L,
    start: PktNum,
    now: u64,
    out: &mut Outbox,
    carriage: Carriage,
    buffer: &mut [u8; LINK_ROOM],
    may_wait: bool,
) -> TurnEnd
    requires alike { length sessions.old ≡ length host.old.slots }
    requires room { TURN_ROOM ≤ out.old.cap }
    // The turn ends by `LinkFault` exactly where the link's count of failures rose, over every
    // link.
    ensures fault { (result ≡ TurnEnd.LinkFault) ↔ Rose (L.count link.old) (L.count link.new) }
    // The turn is the definition, phase by phase, of what came or of nothing. Over a queue, what
    // came is its oldest datagram, once what waited in the outbox was sent. The packets of a
    // datagram of either version are delivered in order, and a request for FILE is accepted before
    // the next packet is delivered. Each slot in use is served once. At the end the open files of
    // each slot without a connection are given back, and the name of its user stays. `Worked` or
    // `Idle` says whether packets waited, a datagram came or a packet was sent.
    // Whatever the link is and answers, the turn asks of it exactly three things, in this order. It
    // asks to send what waited. It asks once to receive, waiting or not as `may_wait` says. It asks
    // to send the packets of the turn, lot by lot, each to its destination. By carriage 1 a packet
    // is sent as its canonical datagram. By carriage 2 the packets that are sent at once go as the
    // datagrams of their loads. Over a queue they go out so.
    ensures turn { RunsTurn (change S.contents S.may_give S.count) Once no_options
        (Asks (L.asked link.old) (L.asked link.new)) may_wait carriage start now
        (station (server host.old sessions.old store.old) (L.queue link.old) out.old)
        (station (server host.new sessions.new store.new) (L.queue link.new) out.new) result }
    // The outbox is empty afterwards.
    ensures outbox { out.new ≡ record { packets = []; cap = out.old.cap } }
    // There are as many sessions as slots, as the next turn needs them.
    ensures alike { length sessions.new ≡ length host.new.slots }
{
    let begun = begin(link, out, carriage, buffer, may_wait);
    let mut turn = Turn {
        host,
        link,
        out,
        carriage,
        now,
    };
    let input = TurnInput {
        alloc,
        start,
        mode: ServeMode::Once,
        silence: None,
        timers: &[],
    };
    let sent = take_turn(&mut turn, sessions, store, begun.came, &input, &mut Silent);
    end_of(begun.failures, turn.link.failures(), begun.worked, sent)
}

//! One turn of a client, over a host, a link and an outbox that are kept apart: [`client_turn`] as
//! the specification of turns calls for it, and [`timed_client_turn`] with timers. The turn itself
//! is a [`Turn`].
ghost use Rattle.std.specs.Prelude.{◌≡◌, ◌≤◌, ◌↔◌, []};
ghost use Rattle.chaos_packet.specs.Count.{Rose};
ghost use Rattle.chaos_link.specs.Link.{Asks};
ghost use Rattle.chaos_node.specs.Arrive.{answer_to, told_at_client};
ghost use Rattle.chaos_node.specs.InTurn.{TurnDoes};
ghost use Rattle.chaos_node.specs.Station.{station};
ghost use Rattle.chaos_node.specs.Turn.{RunsClientTurn, client_phases};

use crate::beginning::begin;
use crate::end::{TurnEnd, any_of, end_of};
use crate::last_packet::LastPacket;
use crate::limits::TURN_ROOM;
use crate::timer::RetransmitTimer;
use crate::turn::Turn;
use chaos_host::Host;
use chaos_link::{Carriage, LINK_ROOM, Link, LinkFault, Packets};
use chaos_packet::Outbox;

impl<L: Link> Turn<'_, L> {
    /// Makes a client's turn of what came, and answers whether packets went out. The last packet is
    /// left in `told`, with what became of it.
    fn make(
        &mut self,
        came: Option<Result<Packets<'_>, LinkFault>>,
        told: &mut LastPacket,
        timers: &[RetransmitTimer],
    ) -> bool
        ensures told { answer_to told.new
            ≡ told_at_client came.entry self.old.now self.old.host.now }
        ensures phases { TurnDoes self.old self.new
            (client_phases timers.now came.entry self.old.now self.old.host.now) result }
    {
        let arrived = self.arrive(came, told);
        let ticked = self.tick_slots(timers);
        any_of(ticked, arrived, false)
    }
}

/// How a client's turn is made.
#[derive(Clone, Copy)]
pub struct ClientTurn<'a> {
    /// The moment, in milliseconds.
    pub now: u64,
    /// In which version of datagrams packets go out.
    pub carriage: Carriage,
    /// Whether the turn may wait for a datagram, as the link waits.
    pub may_wait: bool,
    /// A timer for each slot. Without any, each slot is ticked.
    pub timers: &'a [RetransmitTimer],
}

/// One turn of a client, or of a host with services of its caller's. It sends what waits, receives
/// at most one datagram, delivers its packets in order, and ticks each slot. What the host puts out
/// is sent after each of its calls. The turn accepts no request and serves nothing.
///
/// A service takes the turn and then does its own work. It accepts, answers or rejects the requests
/// that wait, which [`Host::contact`] and [`Host::arguments`] give slot by slot. It reads what is
/// in front, writes, and releases what ended. Then it sends what these calls put out by
/// [`send_all`](crate::send_all).
///
/// The turn reads the packets of the datagram into `told`, one after another, and leaves there the
/// last, with what became of it. A client learns from that with which text its request was refused.
///
/// By `carriage` packets that are sent at once go each in a datagram of version 1, or several to
/// one host in a datagram of version 2. What a tick puts out goes one packet to a datagram by
/// either carriage. So what is sent again comes through where a datagram of several packets is too
/// long for the way. The datagram is received into `buffer`, whatever that holds: a caller keeps it
/// from turn to turn. Where no datagram is there, the turn waits for one as the link does, where
/// `may_wait` allows it.
///
/// A packet whose send failed is lost, and the turn goes on to its end.
///
/// The outbox has room for [`TURN_ROOM`] packets at least. The turn walks over the slots once, and
/// takes no memory.
pub fn client_turn<L: Link>(
    host: &mut Host,
    link: &mut L,
    now: u64,
    out: &mut Outbox,
    told: &mut LastPacket,
    carriage: Carriage,
    buffer: &mut [u8; LINK_ROOM],
    may_wait: bool,
) -> TurnEnd
    requires room { TURN_ROOM ≤ out.old.cap }
    // The answer is LinkFault exactly where the link's count of failures rose in the turn, or
    // stands at its greatest.
    ensures fault { (result ≡ TurnEnd.LinkFault) ↔ Rose (L.count link.old) (L.count link.new) }
    // The turn sends what waits, then receives, delivers the packets of what came in order, and
    // ticks each slot. It serves nothing. Over a queue its packets go out in order, each to its
    // destination. By carriage 1 each is its canonical datagram. By carriage 2 packets that are
    // sent at once go as the datagrams of their loads, and each packet of a tick as a load of its
    // own. Any link is asked to send the datagrams that a queue is given, each once, in this order
    // and to this address. Between them the link is asked once to receive, and may wait exactly
    // where `may_wait` says so. Unless the link failed, Worked or Idle says whether packets waited,
    // a datagram came or one was sent. What the host answered to the last packet that came is left
    // in `told`: what became of the packet, and the packet where the host hands it out. `became` is
    // `None` where no packet came.
    ensures turn { RunsClientTurn [] (Asks (L.asked link.old) (L.asked link.new)) may_wait carriage now
        (station host.old (L.queue link.old) out.old)
        (station host.new (L.queue link.new) out.new) result (answer_to told.new) }
    // The outbox is empty afterwards.
    ensures outbox { out.new ≡ record { packets = []; cap = out.old.cap } }
{
    let input = ClientTurn {
        now,
        carriage,
        may_wait,
        timers: &[],
    };
    timed_client_turn(host, link, out, told, buffer, input)
}

/// One turn of a client, as [`client_turn`] makes it, with a timer for each slot. A tick that the
/// slot's timer holds back is left out.
///
/// Let the timers look at the host's connections before each turn, by
/// [`look_at_conns`](crate::look_at_conns).
pub fn timed_client_turn<L: Link>(
    host: &mut Host,
    link: &mut L,
    out: &mut Outbox,
    told: &mut LastPacket,
    buffer: &mut [u8; LINK_ROOM],
    input: ClientTurn<'_>,
) -> TurnEnd
    requires room { TURN_ROOM ≤ out.old.cap }
    // The answer is LinkFault exactly where the link's count of failures rose in the turn, or
    // stands at its greatest.
    ensures fault { (result ≡ TurnEnd.LinkFault) ↔ Rose (L.count link.old) (L.count link.new) }
    // The turn is a client's turn with these timers: it differs from the turn of `client_turn` in
    // the ticks alone that a timer holds back.
    ensures turn { RunsClientTurn input.entry.timers.now
        (Asks (L.asked link.old) (L.asked link.new)) input.entry.may_wait input.entry.carriage
        input.entry.now
        (station host.old (L.queue link.old) out.old)
        (station host.new (L.queue link.new) out.new) result (answer_to told.new) }
    // The outbox is empty afterwards.
    ensures outbox { out.new ≡ record { packets = []; cap = out.old.cap } }
{
    let begun = begin(link, out, input.carriage, buffer, input.may_wait);
    let mut turn = Turn {
        host,
        link,
        out,
        carriage: input.carriage,
        now: input.now,
    };
    let sent = turn.make(begun.came, told, input.timers);
    end_of(begun.failures, turn.link.failures(), begun.worked, sent)
}

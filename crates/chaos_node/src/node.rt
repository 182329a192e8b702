//! A host that takes its turns over a link.
ghost use Rattle.std.specs.Prelude.{◌≤◌};
ghost use Rattle.chaos_node.specs.declared.limits.TheConstants.{TURN_ROOM};

use crate::beginning::begin;
use crate::client::client_turn;
use crate::end::{TurnEnd, any_of, end_of};
use crate::last_packet::LastPacket;
use crate::limits::TURN_ROOM;
use crate::sending::send_all;
use crate::turn::Turn;
use chaos_host::Host;
use chaos_link::{Carriage, LINK_ROOM, Link};
use chaos_packet::Outbox;
use std::alloc::{AllocError, Global};

/// A host with what it needs for its turns: the outbox of what it puts out, and the buffer of what
/// comes. The link is lent to each call.
///
/// Between turns the node's owner makes the host's own calls, with `out` as their outbox. What
/// these calls put out goes out at the begin of the next turn, or by [`Node::send`]. After either
/// of the two nothing waits.
#[derive(Drop)]
pub struct Node {
    /// The host, for its own calls between turns.
    pub host: Host,
    /// What waits to be sent.
    pub out: Outbox,
    /// In which version of datagrams packets go out.
    pub carriage: Carriage,
    /// The last packet that came in the last turn, where one came, and what became of it.
    pub told: LastPacket,
    /// The link's count of failures before the last turn by halves.
    pub failures: u64,
    /// Whether there was work since then: a packet waited, a datagram came, or a packet was sent.
    pub worked: bool,
    /// The buffer into which datagrams are received.
    pub buffer: [u8; LINK_ROOM],
    pub ghost room: { TURN_ROOM ≤ out.cap },
}

impl Node {
    ghost use Rattle.std.specs.Prelude.{◌≡◌, ◌↔◌, [], ◌∷◌, None, IfOk, true, false, if◌then◌else◌};
    ghost use Rattle.chaos_packet.specs.Count.{Rose};
    ghost use Rattle.chaos_link.specs.Link.{Asks};
    ghost use Rattle.chaos_node.specs.Arrive.{answer_to};
    ghost use Rattle.chaos_node.specs.Halves.{RunsArrival, RunsTicks};
    ghost use Rattle.chaos_node.specs.Link.{SendsLots, has_packets};
    ghost use Rattle.chaos_node.specs.Station.{station};
    ghost use Rattle.chaos_node.specs.Turn.{RunsClientTurn};

    /// A node of a host, whose packets go out by the carriage. Its outbox has room for
    /// [`TURN_ROOM`] packets.
    ///
    /// # Errors
    /// No memory for the outbox.
    pub fn new(alloc: Global, host: Host, carriage: Carriage) -> Result<Self, AllocError>
        // A node is made of this host and this carriage. Nothing waits, there is room for a turn,
        // and no answer to a packet is there. No turn was begun.
        ensures host { IfOk result (λ node. node.host ≡ host) }
        ensures out { IfOk result (λ node. node.out ≡ record { packets = []; cap = TURN_ROOM }) }
        ensures carriage { IfOk result (λ node. node.carriage ≡ carriage) }
        ensures told { IfOk result (λ node. answer_to node.told ≡ None) }
        ensures half { IfOk result (λ node. (node.failures ≡ 0) × (node.worked ≡ false)) }
    {
        Ok(Node {
            host,
            out: Outbox::new(alloc, TURN_ROOM)?,
            carriage,
            told: LastPacket::default(),
            failures: 0,
            worked: false,
            buffer: [0; LINK_ROOM],
        })
    }

    /// Sends all that waits, the oldest first, and answers whether anything waited. Between the
    /// halves of a turn, that is work of the turn.
    pub fn send<L: Link>(&mut self, link: &mut L) -> bool
        // All that waits goes out by the node's carriage, each packet to its destination. Any link
        // is asked just this, whatever the link answers.
        ensures sends { SendsLots (Asks (L.asked link.old) (L.asked link.new)) self.old.carriage
            (L.queue link.old) (self.old.out.packets ∷ []) (L.queue link.new) }
        // Nothing waits afterwards.
        ensures outbox { self.new.out ≡ record { packets = []; cap = self.old.out.cap } }
        // The answer is whether anything waited, and is noted as work.
        ensures told { result ≡ has_packets (self.old.out.packets ∷ []) }
        ensures worked { self.new.worked ≡ (if self.old.worked then true else result) }
        // The node's host, carriage and count of failures are as they were.
        ensures host { self.new.host ≡ self.old.host }
        ensures carriage { self.new.carriage ≡ self.old.carriage }
        ensures failures { self.new.failures ≡ self.old.failures }
    {
        let waited = send_all(link, &mut self.out, self.carriage);
        self.worked = self.worked || waited;
        waited
    }

    /// One turn of the host: [`client_turn`](crate::client_turn) over what the node has.
    pub fn turn<L: Link>(&mut self, link: &mut L, now: u64, may_wait: bool) -> TurnEnd
        // The answer is LinkFault exactly where the link's count of failures rose in the turn, or
        // stands at its greatest.
        ensures fault { (result ≡ TurnEnd.LinkFault) ↔ Rose (L.count link.old) (L.count link.new) }
        // A node's turn is a client's turn of its host by its carriage. What waited goes out before
        // anything is received, what came is delivered before the ticks, and what these put out
        // goes out. What became of the last packet that came in this turn is left in the node, and
        // none where none came. The link is asked as in a client's turn.
        ensures turn { RunsClientTurn [] (Asks (L.asked link.old) (L.asked link.new)) may_wait
            self.old.carriage now (station self.old.host (L.queue link.old) self.old.out)
            (station self.new.host (L.queue link.new) self.new.out) result
            (answer_to self.new.told) }
        // Nothing waits afterwards, and the node has the room and the carriage that it had.
        ensures outbox { self.new.out ≡ record { packets = []; cap = self.old.out.cap } }
        ensures carriage { self.new.carriage ≡ self.old.carriage }
    {
        client_turn(
            &mut self.host,
            link,
            now,
            &mut self.out,
            &mut self.told,
            self.carriage,
            &mut self.buffer,
            may_wait,
        )
    }

    /// The first half of a turn: sends what waits, receives at most one datagram, and delivers its
    /// packets in order.
    ///
    /// Then the node's owner serves: it makes the host's own calls, sends what these put out by
    /// [`Node::send`], and ends the turn by [`Node::tick`].
    pub fn receive<L: Link>(&mut self, link: &mut L, now: u64, may_wait: bool)
        // The link's count of failures before the turn is noted.
        ensures failures { self.new.failures ≡ L.count link.old }
        // What waits is sent, then the link is asked once to receive, for which it may wait exactly
        // where `may_wait` says so, and what came is delivered. Any link is asked just this, and to
        // send what the delivery puts out. Whether there was work is noted. What became of the last
        // packet is left in the node, and none where none came. The host has as many slots as
        // before.
        ensures arrival { RunsArrival (Asks (L.asked link.old) (L.asked link.new)) may_wait
            self.old.carriage now (station self.old.host (L.queue link.old) self.old.out)
            (station self.new.host (L.queue link.new) self.new.out) self.new.worked
            (answer_to self.new.told) }
        // Nothing waits afterwards, and the node has the room and the carriage that it had.
        ensures outbox { self.new.out ≡ record { packets = []; cap = self.old.out.cap } }
        ensures carriage { self.new.carriage ≡ self.old.carriage }
    {
        let carriage = self.carriage;
        let begun = begin(link, &mut self.out, carriage, &mut self.buffer, may_wait);
        let mut turn = Turn {
            host: &mut self.host,
            link,
            out: &mut self.out,
            carriage,
            now,
        };
        let sent = turn.arrive(begun.came, &mut self.told);
        self.failures = begun.failures;
        self.worked = begun.worked || sent;
    }

    /// The second half of a turn: sends what waits, ticks each slot, and answers how the turn
    /// ended.
    pub fn tick<L: Link>(&mut self, link: &mut L, now: u64) -> TurnEnd
        // The answer is LinkFault exactly where the link's count of failures rose since the count
        // that the first half noted, or stands at its greatest.
        ensures fault { (result ≡ TurnEnd.LinkFault)
            ↔ Rose self.old.failures (L.count link.new) }
        // What waits is sent, then each slot is ticked, and the link is asked for nothing else.
        // Unless the link failed, Worked or Idle says whether there was work in either half or
        // between them. The host has as many slots as before.
        ensures ticks { RunsTicks (Asks (L.asked link.old) (L.asked link.new)) self.old.carriage now
            (station self.old.host (L.queue link.old) self.old.out)
            (station self.new.host (L.queue link.new) self.new.out) self.old.worked result }
        // The answer to the last packet that came stays.
        ensures told { self.new.told ≡ self.old.told }
        // Nothing waits afterwards, and the node has the room and the carriage that it had.
        ensures outbox { self.new.out ≡ record { packets = []; cap = self.old.out.cap } }
        ensures carriage { self.new.carriage ≡ self.old.carriage }
    {
        let carriage = self.carriage;
        let waited = send_all(link, &mut self.out, carriage);
        let mut turn = Turn {
            host: &mut self.host,
            link,
            out: &mut self.out,
            carriage,
            now,
        };
        let ticked = turn.tick_slots(&[]);
        let sent = any_of(waited, ticked, false);
        end_of(self.failures, turn.link.failures(), self.worked, sent)
    }
}

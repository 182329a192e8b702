//! The laws of turns and of two programs. A law is a function that does nothing. Its contract
//! states the law, and a caller learns the law by the call.
ghost use Rattle.chaos_host.specs.View.{HostView};
ghost use Rattle.chaos_link.specs.Link.{Asks};
ghost use Rattle.chaos_net.specs.TurnHalves.{ArrivalsAreSteps, NodeTurnsAreRuns, TicksAreSteps, node_turns};
ghost use Rattle.chaos_net.specs.SystemHello.{SomethingIsRead};
ghost use Rattle.chaos_net.specs.Queue.{QueuesCarry, SocketsPost, SocketsPostToFixedPeers, TurnsAreSteps};
ghost use Rattle.chaos_net.specs.System.{NewSystemsStand, SystemsHold, SystemsStay};
ghost use Rattle.chaos_net.specs.Turns.{ClientTurnsAreRuns, RunsAreRuns, client_host, client_turns, client_upon};

use crate::{law_network, law_short};
use chaos_link::{DatagramSocket, Link, PeerKeeper};

/// The law of the turns of a client, or of a node whose owner serves between turns.
pub fn law_client_turns<L: Link>()
    // A turn of a client is a run of the network's events, from any net that has the client's host
    // at a side. Let the other host have sent the packets that came, and let each packet be fresh.
    // Then the run leads to a net that has the host after the turn. This side has sent exactly the
    // packets of the turn's lots in addition, in order, and the other station is unchanged. The
    // turn may have any timers: no event happens in a slot whose timer holds the tick back.
    ensures turns { ClientTurnsAreRuns }
    // The same holds for each turn over a link, as the contracts of `client_turn`,
    // `timed_client_turn` and `Node::turn` describe a turn.
    ensures runs { (old new : L) → RunsAreRuns (Asks (L.asked old) (L.asked new)) }
{}

/// The law of two nodes and the datagrams between them. A datagram may be lost, late, repeated or
/// out of order.
pub fn law_nodes()
    // There is a net behind two new nodes.
    ensures begin { NewSystemsStand client_host }
    // There is a net behind the nodes after any number of steps, and a run of events leads from net
    // to net. A step is a turn with any timers, in which any datagram of the other node comes or
    // none, or a call of an owner. Each packet that comes must be fresh.
    ensures stay { SystemsStay client_host client_upon client_turns }
    // The law of the network holds for each such net: what a connection of either node, past or
    // present, has read is a prefix of what its peer has written.
    ensures law { SystemsHold client_host }
{
    law_network();
}

/// The law of a turn over a link, of two such nodes. A datagram of the other node comes, or a
/// datagram without a packet, or nothing.
pub fn law_queues<L: Link>()
    // A turn that a client runs over any link, with any timers, is a step of the system, if the
    // turn leaves an empty outbox. The link was asked to send exactly what the step posts, each
    // datagram once and in order. Between the datagrams the link was asked once to receive, and may
    // wait exactly if the turn may.
    ensures steps { (old new : L) → TurnsAreSteps (Asks (L.asked old) (L.asked new)) }
    // Take a queue with room, at whose front the network put a datagram of the other node. That
    // datagram came. The queue has what it held behind that datagram, and then exactly what the
    // turn posted.
    ensures carry { (old new : L) → QueuesCarry (Asks (L.asked old) (L.asked new)) HostView }
{}

/// The laws of a turn over UDP.
pub fn law_sockets<S: DatagramSocket, K: PeerKeeper>()
    // If a link over UDP was asked to send what a turn posts, then its socket was asked to send
    // exactly these datagrams, in order. Each goes to the UDP address of its peer, otherwise to the
    // bridge. Nothing is sent for an address with neither. The datagrams before the turn's receive
    // go to the peers of before, and those after it to what the keeper made of the peers.
    ensures kept { SocketsPost S.asked K.becomes }
    // If the peers are fixed, all datagrams go to these peers.
    ensures fixed { SocketsPostToFixedPeers S.asked }
{}

/// The law that the laws of systems aren't empty.
pub fn law_hello()
    // Eleven steps lead from two new nodes, over real bytes, to a system in which a node has read a
    // request and data. Each packet that came was fresh, and a net stands for the system.
    ensures { SomethingIsRead }
{
    law_short();
}

/// The law of nodes whose owners serve between the halves of a turn.
pub fn law_halves<L: Link>()
    // Each half of a node's turn is a run, as is a whole turn with any timers.
    ensures turns { NodeTurnsAreRuns }
    // There is a net behind two nodes after any number of whole turns, halves and owners' calls,
    // while each packet that comes is fresh.
    ensures stay { SystemsStay client_host client_upon node_turns }
    // A first half over any link, as the contract of `Node::receive` describes the half, is a step,
    // under the premises of a turn. The link was asked to send exactly what the step posts.
    ensures arrivals { (old new : L) → ArrivalsAreSteps (Asks (L.asked old) (L.asked new)) }
    // A second half, as the contract of `Node::tick` describes the half, is a step in which nothing
    // comes. The link was asked to send exactly what the step posts, and nothing else.
    ensures ticks { (old new : L) → TicksAreSteps (Asks (L.asked old) (L.asked new)) }
{}

//! What a host put out goes into a link.
ghost use Rattle.std.specs.Prelude.{◌≡◌, [], ◌∷◌};
ghost use Rattle.chaos_packet.specs.Outbox.{OutboxView};
ghost use Rattle.chaos_node.specs.Link.{IsReadBack, Sends, SendsLots, SendsOneByOne, datagram_for_all, datagrams_of, has_packets, read_all, sent_by, singly};
ghost use Rattle.chaos_link.specs.Link.{Asks, to_send};

use chaos_link::{Carriage, Link, Load, MAX_DATAGRAM, write_datagram};
use chaos_packet::Outbox;

/// Sends all that waits by the carriage, the oldest first, each datagram to where its packets go,
/// and answers whether anything waited. A packet whose send fails is lost, and with it those in its
/// datagram. The link's count of failures shows the failure, and the other packets are sent all the
/// same.
///
/// A turn does so after each call of its host but a tick, after which it calls [`send_singly`]. A
/// service of your own does so after its own calls, so that what they put out doesn't wait for the
/// next turn. The call takes no memory, and costs a look where nothing waits, as after most calls
/// of a turn.
#[inline(always)]
pub fn send_all<L: Link>(link: &mut L, out: &mut Outbox, carriage: Carriage) -> bool
    // Whatever a link is and answers, it is asked to send all that waits, once, in order, each
    // datagram to its address, and nothing else. Over a queue it goes in order, as the datagrams of
    // the carriage. Of what goes out the packets are read that waited.
    ensures sends { SendsLots (Asks (L.asked link.old) (L.asked link.new)) carriage
        (L.queue link.old) (out.old.packets ∷ []) (L.queue link.new) }
    // The outbox is empty afterwards.
    ensures empty { out.new ≡ record { packets = []; cap = out.old.cap } }
    // The answer is whether anything waited.
    ensures told { result ≡ has_packets (out.old.packets ∷ []) }
{
    if out.front().is_none() {
        return false;
    }
    match carriage {
        Carriage::One => send_each(link, out, Carriage::One),
        Carriage::Two => send_loads(link, out),
    }
    true
}

/// Sends all that waits by the carriage, the oldest first, each packet in a datagram of its own,
/// and answers whether anything waited. A packet whose send fails is lost, and the others are sent
/// all the same, as by [`send_all`].
///
/// A turn does so after it ticked a connection. A datagram of one packet has at most 508 bytes, and
/// so comes through where a datagram of several packets is too long for the way.
#[inline(always)]
pub fn send_singly<L: Link>(link: &mut L, out: &mut Outbox, carriage: Carriage) -> bool
    // Whatever the link answers, it is asked to send each packet in a datagram of its own, once and
    // in order, and nothing else. By carriage 1 that is the packet's canonical datagram, by
    // carriage 2 the datagram of a load of this one packet. Of what goes out the packets are read
    // that waited.
    ensures sends { SendsLots (Asks (L.asked link.old) (L.asked link.new)) carriage
        (L.queue link.old) (singly out.old.packets) (L.queue link.new) }
    // The outbox is empty afterwards.
    ensures empty { out.new ≡ record { packets = []; cap = out.old.cap } }
    // The answer is whether anything waited.
    ensures told { result ≡ has_packets (singly out.old.packets) }
{
    if out.front().is_none() {
        return false;
    }
    send_each(link, out, carriage);
    true
}

/// Sends all that waits, each packet alone by the carriage: as its canonical datagram, or as a load
/// of one packet.
fn send_each<L: Link>(link: &mut L, out: &mut Outbox, carriage: Carriage)
    ensures sends { Sends (L.queue link.old) (sent_by carriage (singly out.old.packets))
        (L.queue link.new) }
    ensures asks { Asks (L.asked link.old) (L.asked link.new)
        (to_send (sent_by carriage (singly out.old.packets))) }
    ensures read { read_all (sent_by carriage (singly out.old.packets)) ≡ out.old.packets }
    ensures empty { out.new ≡ record { packets = []; cap = out.old.cap } }
{
    // One buffer for all: it is filled once.
    let mut buffer = [0; MAX_DATAGRAM];
    'packets: while let Some(packet) = out.front() {
        match carriage {
            Carriage::One => {
                // The datagram is written from the packet where it lies.
                let end = write_datagram(packet, &mut buffer);
                let _ = link.send(packet.dst, &buffer[..end]);
            }
            Carriage::Two => send_load(link, &Load::of(packet)),
        }
        out.drop_front();
    }
}

/// Sends all that waits, load by load: a packet that doesn't join the load before it begins the
/// next.
fn send_loads<L: Link>(link: &mut L, out: &mut Outbox)
    ensures sends { Sends (L.queue link.old) (datagrams_of Carriage.Two out.old.packets)
        (L.queue link.new) }
    ensures asks { Asks (L.asked link.old) (L.asked link.new)
        (to_send (datagrams_of Carriage.Two out.old.packets)) }
    ensures read { read_all (datagrams_of Carriage.Two out.old.packets) ≡ out.old.packets }
    ensures empty { out.new ≡ record { packets = []; cap = out.old.cap } }
{
    let Some(first) = out.front() else {
        return;
    };
    let mut load = Load::of(first);
    out.drop_front();
    'packets: while let Some(packet) = out.front() {
        if !load.join(packet) {
            send_load(link, &load);
            load.begin(packet);
        }
        out.drop_front();
    }
    send_load(link, &load);
}

/// Sends a load as its datagram.
fn send_load<L: Link>(link: &mut L, load: &Load)
    ensures sends { Sends (L.queue link.old) (datagram_for_all load.now ∷ []) (L.queue link.new) }
    ensures asks { Asks (L.asked link.old) (L.asked link.new)
        (to_send (datagram_for_all load.now ∷ [])) }
    ensures read { read_all (datagram_for_all load.now ∷ []) ≡ load.now }
{
    let _ = link.send(load.destination(), load.datagram());
}

/// The law of packets that are sent singly, over the definitions alone.
#[tactic(auto, using(crate::proofs::Queue::sends_one_by_one))]
pub fn law_sends_one()
    // By carriage 1, packets that are sent in two lots are sent as one lot.
    ensures { SendsOneByOne }
{}

/// The law of reading what was sent, over the definitions alone.
#[tactic(auto, using(crate::proofs::Readback::read_back))]
pub fn law_read_back()
    // Of the datagrams that lots of packets go out in, by either carriage, those packets are read,
    // in their order, where words spell each.
    ensures { IsReadBack }
{}

//! A link that speaks CHUDP over another.
ghost use Rattle.std.specs.Prelude.{◌≡◌, ◌≢◌, ◌↔◌, ◌≤◌, ◌∷◌, [], None, IfSome, length, refl, take, true};
ghost use Rattle.chaos_packet.specs.Count.{Rose};
ghost use Rattle.chaos_link.specs.Datagram.{fault_of};
ghost use Rattle.chaos_link.specs.Link.{Asks, Send, Receive, SendsInto, IsWithin};
ghost use Rattle.chaos_chudp.specs.Link.{AsksBeneath, HandedUp, HandsUpSome, HearsFrom, IsHandedUpAsSent, SocketSendsForms, SocketSendsFormsToFixedPeers, form_to, handed_for};

use crate::hops::Hops;
use crate::limits::{HEAD_BYTES, MAX_CHUDP, TRAILER_BYTES};
use crate::read::{MARK, checked, words_checked};
use crate::write::close;
use chaos_link::{
    DatagramSocket, LINK_ROOM, Link, LinkReport, PeerKeeper, Peers, Received, Reports, Sent,
};
use std::marker::Model;

/// A link over another link, which carries packets in CHUDP. What is sent to it as a datagram of
/// version 1 goes out in CHUDP, and what comes in CHUDP is handed up as a datagram of version 1.
///
/// Anything else that is sent is lost, such as a datagram of version 2, and the answer is still
/// Sent. Anything else that comes is handed up as a datagram of no bytes, which carries no packet.
/// The trailer names the next hop to the address that the datagram is sent to. The link takes no
/// memory.
#[derive(Drop)]
pub struct ChudpLink<L> {
    inner: L,
    /// The own address, which the trailer names.
    me: u16,
    hops: Hops,
}

impl<L> Model for ChudpLink<L> {
    ghost use Rattle.chaos_chudp.specs.Link.{ChudpView};

    ghost Value = { ChudpView L };

    ghost view = { λ link. record { inner = link.inner; me = link.me; hops = link.hops } };
}

impl<L> ChudpLink<L> {
    /// A link over this link, for the host with this address, whose packets take these hops.
    pub fn new(inner: L, me: u16, hops: Hops) -> Self
        // A new link has the link beneath, the own address and the hops that it was given.
        ensures { result ≡ record { inner = inner; me = me; hops = hops } }
    {
        ChudpLink { inner, me, hops }
    }
}

impl<L: Link> Link for ChudpLink<L> {
    ghost count = { λ link. L.count link.inner };

    // What is sent isn't what the link beneath takes, so that this is no queue.
    ghost queue = { λ _. None };

    ghost asked = { AsksBeneath L.asked };

    ghost began = { λ link. record { me = refl; hops = refl; beneath = L.began link.inner } };

    /// Sends a datagram of version 1 in its CHUDP form to the same address.
    fn send(&mut self, to_address: u16, bytes: &[u8]) -> Sent
        requires { length bytes.now ≤ LINK_ROOM }
        // A send is answered Failed only where the count of the link beneath rose; otherwise that
        // count stays. The link is no queue.
        ensures failed { result ≡ Sent.Failed →
            Rose (L.count self.old.inner) (L.count self.new.inner) }
        ensures uncounted { result ≢ Sent.Failed → L.count self.new.inner ≡ L.count self.old.inner }
        ensures queued { Unit {0} }
        // The link is asked to send this datagram once. So the link beneath was asked exactly what
        // `asks_over` makes of all that the link was asked.
        ensures asked { Asks (AsksBeneath L.asked self.old) (AsksBeneath L.asked self.new)
            (Send (record { to = to_address; bytes = bytes.now }) ∷ []) }
        // Of a datagram of version 1 without a fault, the link beneath is asked once, and nothing
        // else, to send the CHUDP form to the same address. The trailer has the next hop there, and
        // the own address. Where the link beneath is a queue, the queue takes exactly that.
        ensures over { fault_of bytes.now ≡ None →
            Asks (L.asked self.old.inner) (L.asked self.new.inner) (Send (record {
              to = to_address;
              bytes = form_to self.old.hops self.old.me to_address bytes.now;
            }) ∷ []) }
        ensures into { fault_of bytes.now ≡ None → IfSome (L.queue self.old.inner)
            (SendsInto to_address (form_to self.old.hops self.old.me to_address bytes.now) result
            (L.queue self.new.inner)) }
        // Of any other datagram the link beneath is asked nothing, the answer is Sent, and the link
        // stays as it was.
        ensures lost { fault_of bytes.now ≢ None → (result ≡ Sent.Sent) × (self.new ≡ self.old) }
        // The own address and the hops stay.
        ensures me { self.new.me ≡ self.old.me }
        ensures hops { self.new.hops ≡ self.old.hops }
    {
        if !is_plain(bytes) {
            return Sent::Sent;
        }
        let hop = self.hops.next(to_address);
        let mut datagram = [0; MAX_CHUDP];
        datagram[..bytes.len()].copy_from_slice(bytes);
        let end = close(&mut datagram, bytes.len(), hop, self.me);
        self.inner.send(to_address, &datagram[..end])
    }

    /// Receives a datagram from the link beneath, and hands it up as a datagram of version 1, or of
    /// no bytes where it has a fault.
    fn receive(&mut self, buffer: &mut [u8; LINK_ROOM], may_wait: bool) -> Received
        // A receive is answered Failed only where the count of the link beneath rose; otherwise
        // that count stays. No more bytes come than the buffer has, and the link is no queue.
        ensures failed { result ≡ Received.Failed →
            Rose (L.count self.old.inner) (L.count self.new.inner) }
        ensures uncounted { result ≢ Received.Failed →
            L.count self.new.inner ≡ L.count self.old.inner }
        ensures within { IsWithin LINK_ROOM result }
        ensures queued { Unit {0} }
        // The link is asked once to receive, and to send nothing.
        ensures asked { Asks (AsksBeneath L.asked self.old) (AsksBeneath L.asked self.new)
            (Receive may_wait ∷ []) }
        // What is handed up is the datagram of version 1 with the words of bytes without a fault,
        // or has no bytes.
        ensures some { HandsUpSome buffer.new result }
        // Where the link beneath is a queue, its oldest datagram is taken out, and what is handed
        // up is handed up for that datagram. Of an empty queue nothing comes.
        ensures heard { IfSome (L.queue self.old.inner)
            (HearsFrom buffer.new result (L.queue self.new.inner)) }
        // The link beneath is asked once to receive, and may wait exactly where the caller lets the
        // link wait.
        ensures over { Asks (L.asked self.old.inner) (L.asked self.new.inner)
            (Receive may_wait ∷ []) }
        // The own address and the hops stay.
        ensures me { self.new.me ≡ self.old.me }
        ensures hops { self.new.hops ≡ self.old.hops }
    {
        let received = self.inner.receive(buffer, may_wait);
        hand_up(buffer, received)
    }

    /// The failures of the link are those of the link beneath.
    fn failures(&self) -> u64 {
        self.inner.failures()
    }
}

/// The report and the peers of the link are those of the link beneath.
impl<L: Reports> Reports for ChudpLink<L> {
    ghost reported = { λ link. L.reported link.inner };

    ghost peers_of = { λ link. L.peers_of link.inner };

    fn report(&self) -> LinkReport {
        self.inner.report()
    }

    fn peers(&self) -> &Peers {
        self.inner.peers()
    }
}

/// Whether the bytes are a datagram of version 1 without a fault.
#[inline(always)]
fn is_plain(bytes: &[u8]) -> bool
    ensures plain { (result ≡ true) ↔ (fault_of bytes.now ≡ None) }
    ensures few { result ≡ true → length bytes.now ≤ 508 }
    ensures long { result ≡ true → 4 ≤ length bytes.now }
{
    bytes.len() >= HEAD_BYTES
        && bytes[0] == MARK[0]
        && bytes[1] == MARK[1]
        && bytes[2] == MARK[2]
        && bytes[3] == MARK[3]
        && words_checked(&bytes[HEAD_BYTES..]).is_ok()
}

/// Hands up what the link beneath received.
#[inline(always)]
fn hand_up(buffer: &mut [u8; LINK_ROOM], received: Received) -> Received
    requires { IsWithin LINK_ROOM received }
    ensures handed { HandedUp buffer.old received buffer.new result }
    ensures within { IsWithin LINK_ROOM result }
{
    match received {
        Received::Got(count) => Received::Got(open(buffer, count)),
        other => other,
    }
}

/// Makes the CHUDP datagram of so many bytes at the front of the buffer into what is handed up, and
/// says where that ends.
#[inline(always)]
fn open(buffer: &mut [u8; LINK_ROOM], count: usize) -> usize
    requires { count ≤ LINK_ROOM }
    ensures end { result ≡ length (handed_for (take count buffer.old)) }
    ensures within { result ≤ LINK_ROOM }
    ensures bytes { take result buffer.new ≡ handed_for (take count buffer.old) }
{
    match checked(&buffer[..count]) {
        Ok(()) => {
            buffer[..HEAD_BYTES].copy_from_slice(&MARK);
            count - TRAILER_BYTES
        }
        Err(_) => 0,
    }
}

/// The law of two such links, over the definitions alone. It holds whatever the next hop and the
/// own address are.
pub fn law_same_datagram()
    // What one such link sends, another hands up: the CHUDP form of a datagram of version 1 without
    // a fault is handed up as that datagram.
    ensures { IsHandedUpAsSent }
{}

/// The laws of such a link over UDP.
pub fn law_sockets<S: DatagramSocket, K: PeerKeeper>()
    // The socket is asked to send exactly the CHUDP forms of the datagrams that the link is asked
    // to send, in their order. Each form goes to the UDP address that the link's peers have for its
    // address when it is sent, and nowhere where they have none. The peers change at a receive
    // alone, as their keeper may change them.
    ensures kept { SocketSendsForms S.asked K.becomes }
    // Where the peers are fixed, each form goes to the UDP address that these peers have for its
    // address, and nowhere where they have none.
    ensures fixed { SocketSendsFormsToFixedPeers S.asked }
{}

//! What carries datagrams between hosts.
ghost use Rattle.std.specs.Prelude.{◌≡◌, ◌≢◌, ◌≤◌, ◌∷◌, [], ℕ, List, Option, IfSome, length};
ghost use Rattle.chaos_packet.specs.Count.{Rose};
ghost use Rattle.chaos_link.specs.Link.{Addressed, Ask, Asks, Send, Receive, QueueView, SendsInto, ReceivesFrom, IsWithin};

use crate::limits::LINK_ROOM;

/// What became of a datagram that was handed to a link.
#[derive(Clone, Copy, Debug, PartialEq, Eq)]
pub enum Sent {
    /// It is on its way, where it may still be lost.
    Sent,
    /// The link knows nobody with that address, and did nothing.
    Unknown,
    /// The link failed, and counted it.
    Failed,
}

/// What a link had for its caller.
#[derive(Clone, Copy, Debug, PartialEq, Eq)]
pub enum Received {
    /// A datagram of so many bytes, in the front of the buffer.
    Got(usize),
    /// No datagram came.
    Nothing,
    /// The link failed, and counted it.
    Failed,
}

/// A way to other hosts. A link carries whole datagrams, and may lose, repeat or reorder them.
pub trait Link {
    /// How many calls failed so far, as [`Link::failures`] answers.
    ghost count: { Self → ℕ };

    /// The queue that the link is, with the address that each of its datagrams was sent to. A link
    /// that is no queue has `None`, and claims nothing.
    ghost queue: { Self → Option QueueView };

    /// What the link may have been asked between an earlier state and this state, in order,
    /// whatever the link answered. The later state stands first. A link that claims nothing allows
    /// any list.
    ghost asked: { Self → Self → List Ask → Type 0 };

    /// Nothing was asked since the present state.
    ghost began: { (link : Self) → asked link link [] };

    /// Sends a datagram of at most [`LINK_ROOM`] bytes to the host with this Chaosnet address.
    fn send(&mut self, to_address: u16, bytes: &[u8]) -> Sent
        requires { length bytes.now ≤ LINK_ROOM }
        // A send is answered Failed only where the link's count of failures rose, and no other send
        // is counted.
        ensures failed { result ≡ Sent.Failed → Rose (count self.old) (count self.new) }
        ensures uncounted { result ≢ Sent.Failed → count self.new ≡ count self.old }
        // Over a queue, a send is the queue's: the datagram goes behind the others, with the
        // address that it was sent to.
        ensures queued { IfSome (queue self.old)
            (SendsInto to_address bytes.now result (queue self.new)) }
        // The link is asked to send this datagram to this address, once, and nothing else, whatever
        // the link answers.
        ensures asked { Asks (asked self.old) (asked self.new)
            (Send (record { to = to_address; bytes = bytes.now }) ∷ []) };

    /// Receives at most one datagram into the front of the buffer. Where no datagram is there, the
    /// link may wait for one where `may_wait` allows it, as long as the link says. Otherwise the
    /// link answers Nothing at once.
    fn receive(&mut self, buffer: &mut [u8; LINK_ROOM], may_wait: bool) -> Received
        // A receive is answered Failed only where the link's count of failures rose, and no other
        // receive is counted.
        ensures failed { result ≡ Received.Failed → Rose (count self.old) (count self.new) }
        ensures uncounted { result ≢ Received.Failed → count self.new ≡ count self.old }
        // No more bytes come than the buffer has.
        ensures within { IsWithin LINK_ROOM result }
        // Over a queue, a receive is the queue's: it takes the oldest datagram, whatever address
        // that was sent to, and leaves the others with their addresses.
        ensures queued { IfSome (queue self.old)
            (ReceivesFrom buffer.old buffer.new result (queue self.new)) }
        // The link is asked once to receive, and to send nothing. It may wait exactly where the
        // caller lets it.
        ensures asked { Asks (asked self.old) (asked self.new) (Receive may_wait ∷ []) };

    /// How many calls failed so far. The greatest `u64` stands for that many and more.
    fn failures(&self) -> u64
        // The answer is the link's count of failures.
        ensures { result ≡ count self.now };
}

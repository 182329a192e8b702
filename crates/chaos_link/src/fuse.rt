//! A link that fails once.
ghost use Rattle.std.specs.Prelude.{◌≡◌, ◌≢◌, ◌==◌, ◌≤◌, ◌∷◌, [], IfSome, length, if◌then◌else◌, refl};
ghost use Rattle.chaos_packet.specs.Count.{Rose};
ghost use Rattle.chaos_link.specs.Link.{Asks, Send, Receive, SendsInto, ReceivesFrom, IsWithin};
ghost use Rattle.chaos_link.specs.Fuse.{new_fuse, asked_behind, count_with, queue_with, after_blow, after_pass};

use crate::limits::LINK_ROOM;
use crate::link::{Link, Received, Sent};
use std::marker::Model;

/// A link behind a fuse. The call with a given number answers Failed, is counted as a failure and
/// doesn't reach the link; every other call is the link's. A test uses it to see what a caller does
/// where its link fails at one place.
///
/// Sends and receives are counted, from 1 up to the one that fails. A contract sees the link, how
/// many calls are left up to that one, and how many failed by the fuse. The fuse takes no memory.
#[derive(Drop)]
pub struct FuseLink<L> {
    inner: L,
    /// The calls up to and with the one that fails; 0 where none does any more.
    calls_left: u64,
    /// The calls that failed by the fuse.
    own_failures: u64,
}

impl<L> Model for FuseLink<L> {
    ghost use Rattle.chaos_link.specs.Fuse.{FuseView};

    ghost Value = { FuseView L };

    ghost view = { λ fuse. record {
      inner = fuse.inner;
      calls_left = fuse.calls_left;
      own_failures = fuse.own_failures;
    } };
}

impl<L> FuseLink<L> {
    /// A fuse over this link, whose call number `k` fails. No call fails where `k` is 0.
    pub fn new(inner: L, k: u64) -> Self
        // A new fuse fails at the call that it was given, and none has failed.
        ensures { result ≡ new_fuse inner k }
    {
        FuseLink {
            inner,
            calls_left: k,
            own_failures: 0,
        }
    }

    /// Counts a call, and says whether it is the one that fails.
    fn blows(&mut self) -> bool
        ensures told { result ≡ (self.old.calls_left == 1) }
        ensures fuse { self.new
            ≡ (if result then after_blow self.old else after_pass self.old.inner self.old) }
    {
        let blows = self.calls_left == 1;
        self.calls_left = self.calls_left.saturating_sub(1);
        if blows {
            self.own_failures = self.own_failures.saturating_add(1);
        }
        blows
    }
}

impl<L: Link> Link for FuseLink<L> {
    ghost count = { count_with L.count };

    ghost queue = { queue_with L.queue };

    ghost asked = { asked_behind L.asked };

    ghost began = { λ fuse. (L.began fuse.inner, refl) };

    fn send(&mut self, to_address: u16, bytes: &[u8]) -> Sent
        requires { length bytes.now ≤ LINK_ROOM }
        // Over the fuse too, a send is answered Failed only where the count of failures rose, and
        // nothing else is counted.
        ensures failed { result ≡ Sent.Failed →
            Rose (count_with L.count self.old) (count_with L.count self.new) }
        ensures uncounted { result ≢ Sent.Failed →
            count_with L.count self.new ≡ count_with L.count self.old }
        // Once no call fails any more, a fuse over a queue is that queue, addresses and all.
        ensures queued { IfSome (queue_with L.queue self.old)
            (SendsInto to_address bytes.now result (queue_with L.queue self.new)) }
        // The fuse is asked to send this datagram once, and nothing else.
        ensures asked { Asks (asked_behind L.asked self.old) (asked_behind L.asked self.new)
            (Send (record { to = to_address; bytes = bytes.now }) ∷ []) }
        // The call that the fuse is at answers Failed, is counted and doesn't reach the link. So
        // the link was asked what the fuse was asked, without that call.
        ensures blown { self.old.calls_left ≡ 1 →
            (result ≡ Sent.Failed) × (self.new ≡ after_blow self.old) }
        // Every other call is the link's. It fails only where the link's own count rose, and over a
        // queue it is the queue's, with the same address. It is asked of the link once, and the
        // calls are counted up to the one that fails.
        ensures passed { self.old.calls_left ≢ 1 → self.new ≡ after_pass self.new.inner self.old }
        ensures passed_failed { self.old.calls_left ≢ 1 → result ≡ Sent.Failed →
            Rose (L.count self.old.inner) (L.count self.new.inner) }
        ensures passed_queued { self.old.calls_left ≢ 1 → IfSome (L.queue self.old.inner)
            (SendsInto to_address bytes.now result (L.queue self.new.inner)) }
        ensures passed_asked { self.old.calls_left ≢ 1 → Asks (L.asked self.old.inner)
            (L.asked self.new.inner) (Send (record { to = to_address; bytes = bytes.now }) ∷ []) }
    {
        if self.blows() {
            return Sent::Failed;
        }
        self.inner.send(to_address, bytes)
    }

    fn receive(&mut self, buffer: &mut [u8; LINK_ROOM], may_wait: bool) -> Received
        // A receive is answered Failed only where the count of failures rose, and nothing else is
        // counted. No more bytes come than the buffer has.
        ensures failed { result ≡ Received.Failed →
            Rose (count_with L.count self.old) (count_with L.count self.new) }
        ensures within { IsWithin LINK_ROOM result }
        ensures uncounted { result ≢ Received.Failed →
            count_with L.count self.new ≡ count_with L.count self.old }
        // Once no call fails any more, a fuse over a queue is received from as that queue.
        ensures queued { IfSome (queue_with L.queue self.old)
            (ReceivesFrom buffer.old buffer.new result (queue_with L.queue self.new)) }
        // The fuse is asked to receive once, and nothing else.
        ensures asked { Asks (asked_behind L.asked self.old) (asked_behind L.asked self.new)
            (Receive may_wait ∷ []) }
        // The call that the fuse is at answers Failed, is counted, doesn't reach the link, and
        // leaves the buffer as it was.
        ensures blown { self.old.calls_left ≡ 1 → (result ≡ Received.Failed)
            × (self.new ≡ after_blow self.old) × (buffer.new ≡ buffer.old) }
        // Every other receive is the link's. It fails only where the link's own count rose, over a
        // queue it is the queue's, and it is asked of the link once.
        ensures passed { self.old.calls_left ≢ 1 → self.new ≡ after_pass self.new.inner self.old }
        ensures passed_failed { self.old.calls_left ≢ 1 → result ≡ Received.Failed →
            Rose (L.count self.old.inner) (L.count self.new.inner) }
        ensures passed_queued { self.old.calls_left ≢ 1 → IfSome (L.queue self.old.inner)
            (ReceivesFrom buffer.old buffer.new result (L.queue self.new.inner)) }
        ensures passed_asked { self.old.calls_left ≢ 1 →
            Asks (L.asked self.old.inner) (L.asked self.new.inner) (Receive may_wait ∷ []) }
    {
        if self.blows() {
            return Received::Failed;
        }
        self.inner.receive(buffer, may_wait)
    }

    /// A fuse's failures are its link's and its own, up to the greatest count.
    fn failures(&self) -> u64 {
        self.inner.failures().saturating_add(self.own_failures)
    }
}

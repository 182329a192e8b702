//! Two links in memory that hear each other.
ghost use Rattle.std.specs.Prelude.{◌≡◌, ◌≤◌, length, None, IfOk, [], ◌∷◌};
ghost use Rattle.chaos_packet.specs.Count.{Rose};
ghost use Rattle.chaos_link.specs.Link.{AnyAsks, Asks, IsWithin, Receive, Send};
ghost use Rattle.chaos_link.specs.Pair.{SendsAcross, HearsOther};

use crate::limits::LINK_ROOM;
use crate::link::{Link, Received, Sent};
use crate::mem::MemLink;
use std::alloc::{AllocError, Global};
use std::marker::Model;

/// One of the two ends of a pair.
#[derive(Clone, Copy, Debug, PartialEq, Eq)]
pub enum Side {
    /// The end that is called near. The two ends are alike.
    Near,
    /// The other end.
    Far,
}

/// Two queues in memory between two ends. What one end sends, the other receives, in order; no end
/// hears itself. A contract sees the datagrams that wait for each end, each with the address that
/// it was sent to.
///
/// [`MemPair::end`] lends one end, a [`Link`], for as long as that end is used, such as for a turn
/// of its host. Then the other end may be lent. `new` takes the memory for all datagrams, and no
/// later call takes any.
#[derive(Drop)]
pub struct MemPair {
    /// What waits for the near end.
    near: MemLink,
    /// What waits for the far end.
    far: MemLink,
}

impl Model for MemPair {
    ghost use Rattle.chaos_link.specs.Pair.{PairView};

    ghost Value = { PairView };

    ghost view = { λ pair. record { near = pair.near; far = pair.far } };
}

impl MemPair {
    /// A pair that holds no datagram, with room for `cap` datagrams of 2,048 bytes each way.
    ///
    /// # Errors
    /// No memory for the datagrams.
    pub fn new(alloc: Global, cap: usize) -> Result<Self, AllocError>
        // Nothing waits for either end of a new pair, and each end has room for `cap` datagrams.
        ensures { IfOk result (λ pair. pair ≡ record {
          near = record { datagrams = []; cap = cap };
          far = record { datagrams = []; cap = cap };
        }) }
    {
        let near = MemLink::new(alloc, cap)?;
        let far = MemLink::new(alloc, cap)?;
        Ok(MemPair { near, far })
    }

    /// Lends an end of the pair, as a link.
    pub fn end(&mut self, side: Side) -> PairEnd<'_>
        // What is done at the end is done to the pair, which is lent as it is, and the end is the
        // one that was asked for.
        ensures lends { result.pair.ghost_name ≡ self.entry.ghost_name }
        ensures pair { result.pair.now ≡ self.old }
        ensures side { result.side ≡ side }
    {
        PairEnd { pair: self, side }
    }

    /// Sends from one end to the other, as the queue of the other end takes a datagram.
    fn send_from(&mut self, side: Side, to_address: u16, bytes: &[u8]) -> Sent
        requires { length bytes.now ≤ LINK_ROOM }
        ensures { SendsAcross side to_address bytes.now result self.old self.new }
    {
        match side {
            Side::Near => self.far.send(to_address, bytes),
            Side::Far => self.near.send(to_address, bytes),
        }
    }

    /// Receives at an end, as the queue of this end gives a datagram.
    fn receive_at(&mut self, side: Side, buffer: &mut [u8; LINK_ROOM], may_wait: bool) -> Received
        ensures within { IsWithin LINK_ROOM result }
        ensures heard { HearsOther side buffer.old buffer.new result self.old self.new }
    {
        match side {
            Side::Near => self.near.receive(buffer, may_wait),
            Side::Far => self.far.receive(buffer, may_wait),
        }
    }
}

/// An end of a pair, as a link. It sends what the other end receives, whatever the address is, and
/// never fails.
#[derive(Drop)]
pub struct PairEnd<'a> {
    /// The pair that this end belongs to.
    pub pair: &'a mut MemPair,
    /// Which end of the pair this is.
    pub side: Side,
}

impl Link for PairEnd<'_> {
    ghost count = { λ _. 0 };

    // What is sent isn't what is received, so that an end is no queue.
    ghost queue = { λ _. None };

    ghost asked = { AnyAsks };

    ghost began = { λ _. tt };

    /// Puts the datagram behind those that wait for the other end. A datagram that finds the queue
    /// full is lost, and the answer is still Sent.
    fn send(&mut self, to_address: u16, bytes: &[u8]) -> Sent
        requires { length bytes.now ≤ LINK_ROOM }
        // No send is answered Failed, and an end is no queue. A send asks the end to send this
        // datagram once, and nothing else.
        ensures failed { result ≡ Sent.Failed → Rose 0 0 }
        ensures queued { Unit {0} }
        ensures asked { Asks (AnyAsks self.old) (AnyAsks self.new)
            (Send (record { to = to_address; bytes = bytes.now }) ∷ []) }
        // The datagram goes behind what waits for the other end, with the address that it was sent
        // to. A datagram that finds the queue full is lost, and the answer is Sent too. What waits
        // for this end stays: no end hears itself.
        ensures across { SendsAcross self.old.side to_address bytes.now result self.old.pair.now
            self.new.pair.now }
        // The end is still the same end of the same pair.
        ensures pair { self.new.pair.ghost_name ≡ self.old.pair.ghost_name }
        ensures side { self.new.side ≡ self.old.side }
    {
        self.pair.send_from(self.side, to_address, bytes)
    }

    /// Takes the oldest datagram that waits for this end out, and never waits. The rest of the
    /// buffer stays as it was.
    fn receive(&mut self, buffer: &mut [u8; LINK_ROOM], may_wait: bool) -> Received
        // No receive is answered Failed, no more bytes come than the buffer has, and an end is no
        // queue. A receive asks the end to receive once, and nothing else.
        ensures failed { result ≡ Received.Failed → Rose 0 0 }
        ensures within { IsWithin LINK_ROOM result }
        ensures queued { Unit {0} }
        ensures asked { Asks (AnyAsks self.old) (AnyAsks self.new) (Receive may_wait ∷ []) }
        // The oldest datagram that waits for this end is received, or nothing where none waits.
        // What waits for the other end stays.
        ensures heard { HearsOther self.old.side buffer.old buffer.new result self.old.pair.now
            self.new.pair.now }
        // The end is still the same end of the same pair.
        ensures pair { self.new.pair.ghost_name ≡ self.old.pair.ghost_name }
        ensures side { self.new.side ≡ self.old.side }
    {
        self.pair.receive_at(self.side, buffer, may_wait)
    }

    /// A pair in memory never fails.
    fn failures(&self) -> u64 {
        0
    }
}

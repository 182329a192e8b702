//! A link in memory.
ghost use Rattle.std.specs.Prelude.{◌≡◌, ◌≤◌, length, Some, IfOk, []};
ghost use Rattle.chaos_link.specs.Link.{AnyAsks};

use crate::limits::LINK_ROOM;
use crate::link::{Link, Received, Sent};
use arrayvec::ArrayVec;
use circular_buffer::HeapCircularBuffer;
use std::alloc::{AllocError, Global};
use std::marker::Model;

/// One queue of datagrams, whatever address they are sent to: what is sent into it is received from
/// it, in order. A contract sees the datagrams, the oldest first, each with its address, and how
/// many there may be.
///
/// `new` takes the memory for all datagrams, and no later call takes any.
#[derive(Drop)]
pub struct MemLink {
    ring: HeapCircularBuffer<Datagram>,
}

impl Model for MemLink {
    ghost use Rattle.chaos_link.specs.Link.{QueueView};

    ghost Value = { QueueView };

    ghost view = { λ link. record { datagrams = link.ring.items; cap = link.ring.capacity } };
}

/// A datagram that waits.
#[derive(Drop)]
struct Datagram {
    /// The Chaosnet address that it was sent to, of which contracts speak alone.
    to: u16,
    bytes: ArrayVec<u8, LINK_ROOM>,
}

impl Model for Datagram {
    ghost use Rattle.chaos_link.specs.Link.{Addressed};

    ghost Value = { Addressed };

    ghost view = { λ datagram. record { to = datagram.to; bytes = datagram.bytes.items } };
}

impl MemLink {
    /// An empty queue, with room for `cap` datagrams of 2,048 bytes.
    ///
    /// # Errors
    /// No memory for the datagrams.
    pub fn new(alloc: Global, cap: usize) -> Result<Self, AllocError>
        // A new link in memory is an empty queue of this cap.
        ensures { IfOk result (λ link. link ≡ record { datagrams = []; cap = cap }) }
    {
        let ring = HeapCircularBuffer::with_capacity(alloc, cap)?;
        Ok(MemLink { ring })
    }
}

/// A datagram to this address with a copy of these bytes. It takes no memory.
fn datagram_to(to: u16, bytes: &[u8]) -> Datagram
    requires { length bytes.now ≤ LINK_ROOM }
    ensures { result ≡ record { to = to; bytes = bytes.now } }
{
    let mut copy = ArrayVec::new();
    let _fits = copy.try_extend_from_slice(bytes);
    Datagram { to, bytes: copy }
}

impl Link for MemLink {
    ghost count = { λ _. 0 };

    ghost queue = { λ link. Some link };

    ghost asked = { AnyAsks };

    ghost began = { λ _. tt };

    /// Puts the datagram behind those that wait, with its address. A datagram that finds the queue
    /// full is lost, and the answer is still Sent.
    fn send(&mut self, to_address: u16, bytes: &[u8]) -> Sent {
        let _lost = self.ring.try_push_back(datagram_to(to_address, bytes));
        Sent::Sent
    }

    /// Takes the oldest datagram out, and never waits. The rest of the buffer stays as it was.
    fn receive(&mut self, buffer: &mut [u8; LINK_ROOM], _may_wait: bool) -> Received {
        match self.ring.pop_front() {
            Some(datagram) => {
                let count = datagram.bytes.len();
                buffer[..count].copy_from_slice(datagram.bytes.as_slice());
                Received::Got(count)
            }
            None => Received::Nothing,
        }
    }

    /// A queue in memory never fails.
    fn failures(&self) -> u64 {
        0
    }
}

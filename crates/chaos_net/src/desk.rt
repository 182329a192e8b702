//! What both stations of a running net share.
ghost use Rattle.std.specs.Prelude.{◌≡◌, ◌≤◌, ◌<◌, ◌+◌, [], ◌++◌, length, map, OnOk, IfOk, vec_len, vec_capacity};
ghost use Rattle.chaos_net.specs.Kept.{kept_by, by_of, meant_of};
ghost use Rattle.chaos_net.specs.Inside.{HasSpace, IsEmpty, IsReady};

use crate::fault::NetFault;
use crate::kept_sent::KeptSent;
use crate::seat::Seat;
use chaos_lab::{KeptPacket, set_aside};
use chaos_packet::{Item, Outbox, Packet};
use chaos_window::MAX_WINDOW;
use std::alloc::{AllocError, Global};

/// The outbox of whichever host does something, room for the data of what it sends, and the count
/// of events.
#[derive(Drop)]
pub(crate) struct Desk {
    /// Empty between two events.
    pub(crate) out: Outbox,
    /// Room for the data of a packet each, set aside before an event: how much data it puts out
    /// isn't known then.
    pub(crate) spares: Vec<Box<Item, Global>>,
    pub(crate) alloc: Global,
    /// How many events there were.
    pub(crate) events: u64,
}

impl Desk {
    /// An empty desk.
    pub(crate) fn new(alloc: Global) -> Result<Self, AllocError>
        ensures { IfOk result (λ desk. IsEmpty desk × (desk.events ≡ 0)) }
    {
        Ok(Desk {
            out: Outbox::new(alloc, MAX_WINDOW as usize)?,
            spares: Vec::new(alloc),
            alloc,
            events: 0,
        })
    }

    /// Makes room for all that one event may send, and counts it.
    pub(crate) fn ready(&mut self, sent: &mut Vec<KeptSent>) -> Result<(), NetFault>
        ensures { IsReady self.old self.new sent.old sent.new result }
    {
        if self.events == u64::MAX {
            return Err(NetFault::Worn);
        }
        if self.make_room(sent).is_err() {
            return Err(NetFault::NoMemory);
        }
        self.events += 1;
        Ok(())
    }

    /// Makes room for all that one event may send.
    fn make_room(&mut self, sent: &mut Vec<KeptSent>) -> Result<(), AllocError>
        ensures out { self.new.out ≡ self.old.out }
        ensures events { self.new.events ≡ self.old.events }
        ensures sent { sent.new.items ≡ sent.old.items }
        ensures space { OnOk result (HasSpace sent.new self.new) }
    {
        sent.reserve(MAX_WINDOW as usize)?;
        set_aside(self.alloc, &mut self.spares, MAX_WINDOW as usize)
    }

    /// Takes what was put out into what was sent, by the connection of a seat or by the host
    /// itself.
    pub(crate) fn post(&mut self, sent: &mut Vec<KeptSent>, seat: Option<Seat>)
        requires few { length self.old.out.packets ≤ MAX_WINDOW }
        requires space { HasSpace sent.old self.old }
        ensures sent { sent.new.items ≡ sent.old.items
            ++ map (kept_by seat self.old.events) self.old.out.packets }
        ensures out { self.new.out ≡ record self.old.out { packets = [] } }
        ensures events { self.new.events ≡ self.old.events }
    {
        let (by, meant) = told_by(seat);
        for _ in 0..MAX_WINDOW {
            let Some(packet) = self.out.front() else {
                break;
            };
            let kept = KeptSent {
                packet: KeptPacket::new(self.alloc, packet, &mut self.spares),
                by,
                meant,
                at: self.events,
            };
            sent.push_reserved(kept);
            self.out.drop_front();
        }
    }
}

/// What a seat tells of its connection and of its peer.
fn told_by(seat: Option<Seat>) -> (Option<u64>, Option<u64>)
    ensures by { result.0 ≡ by_of seat }
    ensures meant { result.1 ≡ meant_of seat }
{
    match seat {
        Some(seat) => (Some(seat.turn), seat.peer),
        None => (None, None),
    }
}

//! Packets that come.
ghost use Rattle.std.specs.Prelude.{◌≡◌, ◌⊎◌, IfOk, IfErr, OnOk, OnErr, Some, None, Err, slice_get};
ghost use Rattle.chaos_lab.specs.Machine.{other};
ghost use Rattle.chaos_conn.specs.Sending.{carries_ack};
ghost use Rattle.chaos_net.specs.Kept.{at, is_near, are_near, is_fresh_at, may_come, arrival_fault, Delivers, deliver_place, deliver_mark};
ghost use Rattle.chaos_net.specs.Inside.{IsWant};
ghost use Rattle.chaos_net.specs.Net.NetEvent.{Arrives};
ghost use Rattle.chaos_net.specs.declared.fault.NetFault.{NetFault};
ghost use Rattle.chaos_net.specs.Running.{Happens};

use crate::fault::NetFault;
use crate::kept_sent::KeptSent;
use crate::mark::Mark;
use crate::net::Net;
use crate::seat::Seat;
use crate::station::place_of;
use chaos_conn::Delivered;
use chaos_host::{ConnId, HostDelivered};
use chaos_lab::{FRESH_SPAN, Side};
use chaos_packet::Kind;

/// So many connections of one slot have different generations.
const NEAR_SPAN: u64 = 256;

impl Net {
    /// Lets the packet with this number that the other side sent come to this side.
    ///
    /// `NoSuchPacket` where none was sent. A packet that carries an acknowledgement is `Stale`
    /// where 32,640 events or more happened since the packet was sent. It is `Stale` too where 256
    /// connections or more were in the slot that it names since its sender's peer was there, or in
    /// its sender's slot since the peer of the connection that it comes to was there. Nothing
    /// changes then.
    pub fn deliver(
        &mut self,
        side: Side,
        number: usize,
        now: u64,
    ) -> Result<HostDelivered, NetFault>
        // The packet comes by that event of the definition, and the host does with the packet what
        // a host does.
        ensures happens { OnOk result (Happens self.old (Arrives side number now) self.new) }
        ensures answer { IfOk result (λ told. Delivers (at self.old side).host
            (slice_get (at self.old (other side)).sent number) now told) }
        // The packet comes only where its number was sent. A packet that carries an acknowledgement
        // comes only while it is fresh, and no index that it names was used again. Otherwise
        // `NoSuchPacket` or `Stale` is the answer, whatever else is wrong.
        ensures may { OnOk result (arrival_fault self.old.events (at self.old side).seats
            (slice_get (at self.old (other side)).sent number) ≡ None) }
        ensures may_not { (why : NetFault) → arrival_fault self.old.events (at self.old side).seats
            (slice_get (at self.old (other side)).sent number) ≡ Some why → result ≡ Err why }
        // Where the packet doesn't come nothing changes. The reason is one of those two, no memory,
        // or a full count of events.
        ensures same { OnErr result (self.new ≡ self.old) }
        ensures why { IfErr result (λ why. (arrival_fault self.old.events (at self.old side).seats
            (slice_get (at self.old (other side)).sent number) ≡ Some why)
            ⊎ IsWant self.old.events why) }
    {
        let kept = self.arrival(side, number)?;
        let (packet, by) = (kept.packet.packet(), kept.by);
        let station = self.stations.at_mut(side);
        self.desk.ready(&mut station.sent)?;
        let told = station.host.deliver(&packet, now, &mut self.desk.out);
        station.settle(
            &mut self.desk,
            deliver_place(&told),
            deliver_mark(&told, by),
        );
        Ok(told)
    }

    /// The packet with this number that the other side sent, where it may come to this one.
    fn arrival(&self, side: Side, number: usize) -> Result<&KeptSent, NetFault>
        ensures kept { IfOk result (λ kept. slice_get (at self.now (other side)).sent number
            ≡ Some kept.now) }
        ensures may { OnOk result (arrival_fault self.now.events (at self.now side).seats
            (slice_get (at self.now (other side)).sent number) ≡ None) }
        ensures fault { IfErr result (λ why. arrival_fault self.now.events (at self.now side).seats
            (slice_get (at self.now (other side)).sent number) ≡ Some why) }
    {
        let Some(kept) = self.stations.at(side.other()).sent.get(number) else {
            return Err(NetFault::NoSuchPacket);
        };
        if !may_come(self.desk.events, &self.stations.at(side).seats, kept) {
            return Err(NetFault::Stale);
        }
        Ok(kept)
    }
}

/// Whether a packet may come, after so many events, to the host with these seats.
fn may_come(events: u64, seats: &Vec<Seat>, kept: &KeptSent) -> bool
    ensures { result ≡ may_come events seats.now.items kept.now }
{
    if !carries_ack(kept.packet.op().kind()) {
        return true;
    }
    let place = place_of(ConnId(kept.packet.dst_index()));
    match seats.get(place) {
        Some(seat) => {
            let few = events.saturating_sub(kept.at) < FRESH_SPAN as u64;
            let is_meant = are_near(Some(seat.turn), kept.meant);
            let is_peer = are_near(kept.by, seat.peer);
            few && is_meant && is_peer
        }
        None => false,
    }
}

/// Whether fewer than 256 connections lie between both, where both are known.
fn are_near(a: Option<u64>, b: Option<u64>) -> bool
    ensures { result ≡ are_near a b }
{
    match (a, b) {
        (Some(a), Some(b)) => a.abs_diff(b) < NEAR_SPAN,
        _ => true,
    }
}

/// Whether packets of this kind carry an acknowledgement.
fn carries_ack(kind: Kind) -> bool
    ensures { result ≡ carries_ack kind }
{
    matches!(
        kind,
        Kind::Opn | Kind::Eof | Kind::Data | Kind::Sns | Kind::Sts
    )
}

/// Where a packet went.
fn deliver_place(told: &HostDelivered) -> Option<usize>
    ensures { result ≡ deliver_place told.now }
{
    match told {
        HostDelivered::Requested(id) => Some(place_of(*id)),
        HostDelivered::At(id, _) => Some(place_of(*id)),
        _ => None,
    }
}

/// What a packet makes of the seat that it went to.
fn deliver_mark(told: &HostDelivered, by: Option<u64>) -> Mark
    ensures { result ≡ deliver_mark told.now by }
{
    match told {
        HostDelivered::Requested(_) => Mark::Begins(by),
        HostDelivered::At(_, Delivered::Opened) => Mark::Joins(by),
        _ => Mark::Stays,
    }
}

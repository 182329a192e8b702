//! Where a packet goes: the checks of delivery, in their order.
ghost use Rattle.std.specs.Prelude.{◌≡◌, ◌==◌, true, false};
ghost use Rattle.chaos_packet.specs.Opcode.{kind_of, is_rfc};
ghost use Rattle.chaos_host.specs.Route.{route, route_rfc, route_new, route_other, route_no_conn, needs_conn, IsRouted};

use crate::host::Host;
use crate::index::ConnId;
use crate::listeners::has_listener;
use crate::slots::{free_place, named_place, taker};
use chaos_packet::{Kind, Packet};

/// Where a packet goes.
#[derive(Clone, Copy, Debug, PartialEq, Eq)]
pub enum Route {
    /// Nowhere: it is for another host.
    NotOurs,
    /// Nowhere: its source's address is 0.
    NoSource,
    /// To the connection in the slot at this place.
    Slot(usize),
    /// Nowhere: it is a request for a contact that nobody listens to.
    NoServer,
    /// Nowhere: it is a request, and no slot is free.
    TableFull,
    /// To the free slot at this place, as a new request.
    Request(usize),
    /// Nowhere: it needs a connection, and there is none. A LOS goes to its sender.
    SendLos,
    /// Nowhere: there is no connection for it, and nothing is sent.
    DropSilently,
}

impl Host {
    /// Where a packet goes. Only an RFC walks over the table.
    pub(crate) fn route(&self, packet: &Packet) -> Route
        ensures value { result ≡ route self.now packet.now }
        ensures sound { IsRouted self.now packet.now result }
    {
        if packet.dst != self.address {
            return Route::NotOurs;
        }
        if packet.src == 0 {
            return Route::NoSource;
        }
        if packet.op.kind().is_rfc() {
            self.route_rfc(packet)
        } else {
            self.route_other(packet)
        }
    }

    /// Where a request goes.
    fn route_rfc(&self, packet: &Packet) -> Route
        requires source { (packet.now.src == 0) ≡ false }
        requires rfc { is_rfc (kind_of packet.now.op) ≡ true }
        ensures value { result ≡ route_rfc self.now packet.now }
        ensures sound { IsRouted self.now packet.now result }
    {
        match taker(&self.slots, packet) {
            Some(place) => Route::Slot(place),
            None => self.route_new(packet),
        }
    }

    /// Where a request goes that no connection took before.
    fn route_new(&self, packet: &Packet) -> Route
        requires source { (packet.now.src == 0) ≡ false }
        requires rfc { is_rfc (kind_of packet.now.op) ≡ true }
        ensures value { result ≡ route_new self.now packet.now }
        ensures sound { IsRouted self.now packet.now result }
    {
        if !has_listener(&self.listeners, packet.contact()) {
            return Route::NoServer;
        }
        match free_place(&self.slots) {
            Some(place) => Route::Request(place),
            None => Route::TableFull,
        }
    }

    /// Where a packet goes that is no request.
    #[tactic(auto, using(std::proofs::lemmas::Option::gets))]
    fn route_other(&self, packet: &Packet) -> Route
        ensures value { result ≡ route_other self.now packet.now }
        ensures sound { IsRouted self.now packet.now result }
    {
        let Some(place) = named_place(&self.slots, ConnId(packet.dst_index)) else {
            return route_no_conn(packet);
        };
        if self.slots[place].comes_from(packet) {
            Route::Slot(place)
        } else {
            route_no_conn(packet)
        }
    }
}

/// Where a packet goes for which there is no connection.
fn route_no_conn(packet: &Packet) -> Route
    ensures { result ≡ route_no_conn packet.now }
{
    if needs_conn(packet.op.kind()) {
        Route::SendLos
    } else {
        Route::DropSilently
    }
}

/// Whether packets of this kind need a connection.
fn needs_conn(kind: Kind) -> bool
    ensures { result ≡ needs_conn kind }
{
    matches!(
        kind,
        Kind::Opn | Kind::Eof | Kind::Data | Kind::Sns | Kind::Sts
    )
}

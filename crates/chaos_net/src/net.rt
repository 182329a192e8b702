//! A network of two hosts, as it runs.
ghost use Rattle.std.specs.Prelude.{◌≡◌, ◌⊎◌, IfOk, IfErr, Some, None, replicate};
ghost use Rattle.chaos_host.specs.View.{make_fault};
ghost use Rattle.chaos_host.specs.declared.fault.MakeFault.{MakeFault};
ghost use Rattle.chaos_net.specs.Inside.{station_view};
ghost use Rattle.chaos_net.specs.Kept.{at};
ghost use Rattle.chaos_net.specs.New.{new_seat, station_of, new_view};
ghost use Rattle.chaos_net.specs.Running.{HasLaw};

use crate::desk::Desk;
use crate::kept_sent::KeptSent;
use crate::seat::Seat;
use crate::station::KeptStation;
use crate::stations::Stations;
use chaos_conn::ConnConfig;
use chaos_host::{Host, MakeFault};
use chaos_lab::Side;
use std::alloc::{AllocError, Global};
use std::marker::Model;

/// What a host of a net is made of: its address, how many connections it has, and their
/// configuration.
#[derive(Clone, Copy, Debug, PartialEq, Eq)]
pub struct HostKind {
    pub address: u16,
    pub conns: usize,
    pub config: ConnConfig,
}

/// Two hosts on one network, which keeps every packet that either ever sent. A contract sees both
/// hosts, what the net knows of their slots, the packets, and how many events there were.
///
/// Whatever is called, a net stands for one of the definition that was reached by the same events
/// (`Stands`), so that [`crate::law_network`] holds of all its connections: [`Net::law`]. There is
/// no way to change a host but by an event.
///
/// The outer error of a call says that the event didn't happen and nothing changed: there is no
/// memory, or events were counted to the greatest number. The inner error is the host's own answer,
/// and the event that the host refused has happened.
///
/// No sockets and no clock: moments are handed in.
#[derive(Drop)]
pub struct Net {
    pub(crate) stations: Stations,
    pub(crate) desk: Desk,
}

impl Model for Net {
    ghost use Rattle.chaos_net.specs.Kept.{NetView};
    ghost use Rattle.chaos_net.specs.Sound.{net_view, IsSound};

    ghost Value = { NetView };

    ghost view = { net_view };

    ghost invariant = { IsSound };
}

impl Net {
    /// Two new hosts, with no packets between them.
    pub fn new(alloc: Global, a: HostKind, b: HostKind) -> Result<Self, MakeFault>
        // A new net has two new hosts, of the kinds that are asked for, and nothing between them.
        ensures new { IfOk result (λ net. net ≡ new_view a b) }
        ensures right { IfOk result (λ net. (make_fault a.address a.conns ≡ None)
            × (make_fault b.address b.conns ≡ None)) }
        // The first fault of A is the answer, otherwise that of B, otherwise want of memory.
        ensures fault { IfErr result (λ why. (make_fault a.address a.conns ≡ Some why)
            ⊎ ((make_fault b.address b.conns ≡ Some why) ⊎ (why ≡ MakeFault.NoMemory))) }
    {
        let (_, _) = (a.config.send_cap(), b.config.send_cap());
        let a = new_station(alloc, a)?;
        let b = new_station(alloc, b)?;
        let stations = Stations { a, b };
        match Desk::new(alloc) {
            Ok(desk) => Ok(Net { stations, desk }),
            Err(_) => Err(MakeFault::NoMemory),
        }
    }

    /// Lends the host at a side, with all its looks.
    pub fn host(&self, side: Side) -> &Host
        // It is the host at that side.
        ensures { result.now ≡ (at self.now side).host }
    {
        &self.stations.at(side).host
    }

    /// Lends the packets of a side. The number of a packet is its place here.
    pub fn sent(&self, side: Side) -> &[KeptSent]
        // They are all packets that the host at that side ever sent, the oldest first.
        ensures { result.now ≡ (at self.now side).sent }
    {
        self.stations.at(side).sent.as_slice()
    }

    /// What is true of every net, whatever happened in it.
    pub fn law(&self)
        // The net stands for a net of the definition that was reached by the same events. What each
        // connection of either host, present or past, has read there is a prefix of what its peer
        // has written. The story of each connection that is there now says what its host shows.
        ensures { HasLaw self.now }
    {
        let _ = &self.desk;
    }
}

/// A new host that has sent nothing.
fn new_station(alloc: Global, kind: HostKind) -> Result<KeptStation, MakeFault>
    ensures made { IfOk result (λ st. station_view st ≡ station_of kind) }
    ensures right { IfOk result (λ st. make_fault kind.address kind.conns ≡ None) }
    ensures fault { IfErr result (λ why. (make_fault kind.address kind.conns ≡ Some why)
        ⊎ (why ≡ MakeFault.NoMemory)) }
{
    let host = Host::new(alloc, kind.address, kind.conns, kind.config)?;
    let seats = new_seats(alloc, kind.conns).map_err(|_| MakeFault::NoMemory)?;
    Ok(KeptStation {
        host,
        seats,
        sent: Vec::new(alloc),
    })
}

/// So many seats in which nobody sat yet.
fn new_seats(alloc: Global, count: usize) -> Result<Vec<Seat>, AllocError>
    ensures { IfOk result (λ seats. seats.items ≡ replicate count new_seat) }
{
    let mut seats = Vec::with_capacity(alloc, count)?;
    for _ in 0..count {
        seats.push(Seat {
            turn: 0,
            peer: None,
        })?;
    }
    Ok(seats)
}

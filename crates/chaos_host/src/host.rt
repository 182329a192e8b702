//! A host.
ghost use Rattle.std.specs.Prelude.{◌≡◌, ◌≤◌, length, replicate, IfOk};
ghost use Rattle.chaos_host.specs.View.{IsHost, new_slot, new_host, make_fault, Makes};

use crate::fault::MakeFault;
use crate::limits::{MAX_CONNS, MAX_LISTENERS};
use crate::listeners::Contact;
use crate::slot::Slot;
use crate::slot_set::SlotSet;
use arrayvec::ArrayVec;
use chaos_conn::{Conn, ConnConfig};
use std::alloc::{AllocError, Global};
use std::marker::Model;

/// A host: its address, the contacts that it listens to, and a table of slots, each with a
/// connection. A contract sees a plain record of these.
///
/// Each call makes of the host exactly what its definition says. Its contract is `HostDoes`: the
/// view after the call, the packets that it put out, its answer, at most one packet (at a tick as
/// many as the send window), and the configuration and the number of slots as they were.
///
/// The calls are of five kinds:
///
/// - The calls of the table. [`Host::new`] makes it, with all memory that it will ever have.
///   [`Host::listen`] adds a contact. [`Host::connect`] asks a peer for a contact, by the
///   connection of the lowest free slot. [`Host::release`] frees the slot of a connection that has
///   ended.
/// - The user's calls on one connection, which a [`ConnId`] names. [`Host::accept`],
///   [`Host::answer`] or [`Host::reject`] replies to a request that it holds. [`Host::write`] and
///   [`Host::unc`] send. [`Host::read`] hands the next item out; or [`Host::front`] lends it, and
///   [`Host::read_done`] passes over it. [`Host::announce`] changes the window that the peer may
///   fill. [`Host::close`] gives the connection up. `answer`, `reject` and `close` free its slot.
/// - Packets from the network: [`Host::deliver`], which finds the connection, or takes a new
///   request.
/// - The tick: [`Host::tick`], called now and then for each slot, sends what is due there.
///   [`Host::next_due`] says when something is due.
/// - Looks, which change nothing. [`Host::conn`] lends a connection with all its looks.
///   [`Host::state`], [`Host::announced`], [`Host::can_write`], [`Host::drained`], [`Host::heard`]
///   and [`Host::peer`] are looks at a connection, and [`Host::contact`] and [`Host::arguments`] at
///   a request that it holds. [`Host::id_of`], [`Host::stored`], [`Host::config`] and
///   [`Host::conns`] are looks at the table.
///
/// The order: `new`; then `listen` for each contact; then packets, ticks and the user's calls as
/// they come. An index comes from `connect`, and from `deliver` with a new request. It names its
/// connection until the slot is freed, and no call on it touches any other slot. After that the
/// call is refused with `NoSuchConnection`.
///
/// A turn, at a moment `now` and with an empty outbox `out` of room for one send window:
///
/// ```text
/// // What came.
/// match host.deliver(&packet, now, &mut out) {
///     HostDelivered::Requested(id) => host.accept(id, start, now, &mut out)?,
///     HostDelivered::At(id, Delivered::Took) => {
///         send_all(&mut out);
///         // The user: each item is taken where its reply can be written.
///         if host.can_write(id)? {
///             if let Some(item) = host.front(id)? {
///                 let reply = reply_to(item);
///                 host.write(id, Opcode::DATA, &reply, now, &mut out)?;
///                 send_all(&mut out);
///                 host.read_done(id, &mut out)?;
///             }
///         }
///     }
///     _ => {}
/// }
/// send_all(&mut out);
/// // What is due.
/// for slot in 0..host.conns() {
///     host.tick(slot, now, &mut out);
///     send_all(&mut out);
/// }
/// ```
///
/// Each call with an outbox needs room for one packet in it and puts at most one packet there. A
/// tick needs room for as many packets as the send window. `send_all` above hands each packet of
/// the outbox to the network. Moments are milliseconds. A moment that is earlier than the last of
/// its connection counts as the last. After `new` no call takes memory.
#[derive(Drop)]
pub struct Host {
    pub(crate) address: u16,
    /// The configuration of every connection.
    pub(crate) config: ConnConfig,
    pub(crate) listeners: ArrayVec<Contact, MAX_LISTENERS>,
    pub(crate) slots: Vec<Slot>,
    /// The slots in use.
    pub(crate) in_use: SlotSet,
}

impl Model for Host {
    ghost use Rattle.chaos_host.specs.View.{HostView};
    ghost use Rattle.chaos_host.specs.Inside.{IsSound, host_view};

    ghost Value = { HostView };

    ghost view = { host_view };

    ghost invariant = { λ h. IsSound h };
}

impl Host {
    /// A host with this address and so many connections, all of one configuration, which listens to
    /// nothing. It takes the memory for all packets that the connections will keep and hold, and no
    /// later call takes any.
    ///
    /// Refused, in this order: `BadAddress`; `BadCount`; `NoMemory`, and then what was taken before
    /// is given back.
    pub fn new(
        alloc: Global,
        address: u16,
        conns: usize,
        config: ConnConfig,
    ) -> Result<Self, MakeFault>
        // A host is made for an address other than 0 and from 1 to 255 connections, if there is
        // memory for all of it.
        ensures { Makes (make_fault address conns) (new_host address conns config) result }
    {
        if address == 0 {
            return Err(MakeFault::BadAddress);
        }
        if conns == 0 || conns > MAX_CONNS {
            return Err(MakeFault::BadCount);
        }
        let slots = new_slots(alloc, conns, config).map_err(|_| MakeFault::NoMemory)?;
        Ok(Host {
            address,
            config,
            listeners: ArrayVec::new(),
            slots,
            in_use: SlotSet::new(),
        })
    }

    /// What each connection is set to. A tick needs room for its send window.
    pub fn config(&self) -> ConnConfig
        // This is the configuration of all connections.
        ensures value { result ≡ self.now.config }
        // Every host is as `IsHost` says.
        ensures sound { IsHost self.now }
    {
        self.config
    }

    /// How many connections there may be at once, from 1 to 255.
    pub fn conns(&self) -> usize
        // This is the number of slots.
        ensures value { result ≡ length self.now.slots }
        // Every host is as `IsHost` says.
        ensures sound { IsHost self.now }
    {
        self.slots.len()
    }
}

/// So many free slots.
fn new_slots(alloc: Global, conns: usize, config: ConnConfig) -> Result<Vec<Slot>, AllocError>
    ensures { IfOk result (λ slots. slots.items ≡ replicate conns (new_slot config)) }
{
    let mut slots = Vec::with_capacity(alloc, conns)?;
    for i in 0..conns {
        let conn = Conn::new(alloc, config)?;
        slots.push(Slot {
            generation: 0,
            conn,
        })?;
    }
    Ok(slots)
}

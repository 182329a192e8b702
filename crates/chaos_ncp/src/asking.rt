//! Requests, as C sees them.
ghost use Rattle.std.specs.Prelude.{◌≡◌};
ghost use Rattle.chaos_conn.specs.Act.{Accept, Answer, Reject};
ghost use Rattle.chaos_host.specs.Calls.{host_call, host_end};
ghost use Rattle.chaos_host.specs.Connect.{host_connect};
ghost use Rattle.chaos_host.specs.Listening.{after_listen, listen_fault};
ghost use Rattle.chaos_ncp.specs.Export.{Becomes, CallsHost};
ghost use Rattle.chaos_ncp.specs.Handle.{Keeps};

use crate::calling::{done, number, on_node};
use crate::handle::Handle;
use chaos_host::ConnId;
use chaos_packet::PktNum;
use std::alloc::Global;

/// Listens to a contact.
#[unsafe(no_mangle)]
pub extern "C" fn chaos_ncp_listen(alloc: Global, handle: &mut Handle, contact: &[u8]) -> i32
    // The handle keeps its node. A handle without a node is refused.
    ensures keeps { Keeps handle.old.mark handle.new.mark result }
    // The node's host listens to a contact that it doesn't refuse. Nothing else changes of the node.
    ensures call { Becomes handle.old.mark handle.old.raw.node handle.new.raw.node
        (λ node. record node {
          host = after_listen (listen_fault node.host.listeners contact.now) node.host contact.now;
        }) }
{
    on_node!(alloc, handle, node => done(node.listen(contact)))
}

/// Asks a peer for a contact.
#[unsafe(no_mangle)]
pub extern "C" fn chaos_ncp_connect(
    alloc: Global,
    handle: &mut Handle,
    peer: u16,
    contact: &[u8],
    first: u16,
    now: u64,
) -> i32
    // The handle keeps its node. A handle without a node is refused.
    ensures keeps { Keeps handle.old.mark handle.new.mark result }
    // The node's host makes this call, if there is room for a packet.
    ensures call { CallsHost handle.old.mark handle.old.raw.node handle.new.raw.node
        (λ node. host_connect node.host peer contact.now first now) result }
{
    on_node!(alloc, handle, node => {
        let asked = node.connect(peer, contact, PktNum(first), now);
        number(asked.map(|id| id.0))
    })
}

/// Gives the connection in a slot, or 0.
#[unsafe(no_mangle)]
pub extern "C" fn chaos_ncp_connection(alloc: Global, handle: &mut Handle, slot: u16) -> i32
    // The handle keeps its node. A handle without a node is refused.
    ensures keeps { Keeps handle.old.mark handle.new.mark result }
    // Nothing changes of the node.
    ensures same { handle.new.raw.node ≡ handle.old.raw.node }
{
    on_node!(alloc, handle, node => match node.id_of(usize::from(slot)) {
        Some(id) => i32::from(id.0),
        None => 0,
    })
}

/// Copies the contact of a request that waits.
#[unsafe(no_mangle)]
pub extern "C" fn chaos_ncp_contact(
    alloc: Global,
    handle: &mut Handle,
    id: u16,
    buffer: &mut [u8],
) -> i32
    // The handle keeps its node. A handle without a node is refused.
    ensures keeps { Keeps handle.old.mark handle.new.mark result }
    // Nothing changes of the node.
    ensures same { handle.new.raw.node ≡ handle.old.raw.node }
{
    on_node!(alloc, handle, node => number(node.contact(ConnId(id), buffer)))
}

/// Copies the arguments of a request that waits.
#[unsafe(no_mangle)]
pub extern "C" fn chaos_ncp_arguments(
    alloc: Global,
    handle: &mut Handle,
    id: u16,
    buffer: &mut [u8],
) -> i32
    // The handle keeps its node. A handle without a node is refused.
    ensures keeps { Keeps handle.old.mark handle.new.mark result }
    // Nothing changes of the node.
    ensures same { handle.new.raw.node ≡ handle.old.raw.node }
{
    on_node!(alloc, handle, node => number(node.arguments(ConnId(id), buffer)))
}

/// Accepts a request.
#[unsafe(no_mangle)]
pub extern "C" fn chaos_ncp_accept(
    alloc: Global,
    handle: &mut Handle,
    id: u16,
    first: u16,
    now: u64,
) -> i32
    // The handle keeps its node. A handle without a node is refused.
    ensures keeps { Keeps handle.old.mark handle.new.mark result }
    // The node's host makes this call, if there is room for a packet.
    ensures call { CallsHost handle.old.mark handle.old.raw.node handle.new.raw.node
        (λ node. host_call node.host id (Accept first now)) result }
{
    on_node!(alloc, handle, node => done(node.accept(ConnId(id), PktNum(first), now)))
}

/// Answers a request by one ANS.
#[unsafe(no_mangle)]
pub extern "C" fn chaos_ncp_answer(alloc: Global, handle: &mut Handle, id: u16, bytes: &[u8]) -> i32
    // The handle keeps its node. A handle without a node is refused.
    ensures keeps { Keeps handle.old.mark handle.new.mark result }
    // The node's host makes this call, if there is room for a packet.
    ensures call { CallsHost handle.old.mark handle.old.raw.node handle.new.raw.node
        (λ node. host_end node.host id (Answer bytes.now)) result }
{
    on_node!(alloc, handle, node => done(node.answer(ConnId(id), bytes)))
}

/// Refuses a request.
#[unsafe(no_mangle)]
pub extern "C" fn chaos_ncp_reject(alloc: Global, handle: &mut Handle, id: u16, text: &[u8]) -> i32
    // The handle keeps its node. A handle without a node is refused.
    ensures keeps { Keeps handle.old.mark handle.new.mark result }
    // The node's host makes this call, if there is room for a packet.
    ensures call { CallsHost handle.old.mark handle.old.raw.node handle.new.raw.node
        (λ node. host_end node.host id (Reject text.now)) result }
{
    on_node!(alloc, handle, node => done(node.reject(ConnId(id), text)))
}

//! Connections, as C sees them.
ghost use Rattle.std.specs.Prelude.{◌≡◌};
ghost use Rattle.chaos_conn.specs.Act.{Close, FinishRead, Write};
ghost use Rattle.chaos_host.specs.Calls.{host_call, host_end, host_release};
ghost use Rattle.chaos_ncp.specs.Export.{CallsHost};
ghost use Rattle.chaos_ncp.specs.Handle.{Keeps};

use crate::calling::{done, flag, front, number, on_node};
use crate::handle::Handle;
use chaos_conn::State;
use chaos_host::ConnId;
use chaos_packet::Opcode;
use std::alloc::Global;

/// The number by which C knows a state: include/chaos_ncp.h has the same numbers.
fn state_number(state: State) -> u16 {
    match state {
        State::Inactive => 0,
        State::RfcSent => 1,
        State::RfcReceived => 2,
        State::Open => 3,
        State::Answered => 4,
        State::ClsReceived => 5,
        State::LosReceived => 6,
        State::HostDown => 7,
        State::Forwarded => 8,
    }
}

/// Gives a connection's state.
#[unsafe(no_mangle)]
pub extern "C" fn chaos_ncp_state(alloc: Global, handle: &mut Handle, id: u16) -> i32
    // The handle keeps its node. A handle without a node is refused.
    ensures keeps { Keeps handle.old.mark handle.new.mark result }
    // Nothing changes of the node.
    ensures same { handle.new.raw.node ≡ handle.old.raw.node }
{
    on_node!(alloc, handle, node => number(node.state(ConnId(id)).map(state_number)))
}

/// Gives the address of a connection's peer.
#[unsafe(no_mangle)]
pub extern "C" fn chaos_ncp_peer(alloc: Global, handle: &mut Handle, id: u16) -> i32
    // The handle keeps its node. A handle without a node is refused.
    ensures keeps { Keeps handle.old.mark handle.new.mark result }
    // Nothing changes of the node.
    ensures same { handle.new.raw.node ≡ handle.old.raw.node }
{
    on_node!(alloc, handle, node => number(node.peer(ConnId(id))))
}

/// Says whether a write is taken.
#[unsafe(no_mangle)]
pub extern "C" fn chaos_ncp_can_write(alloc: Global, handle: &mut Handle, id: u16) -> i32
    // The handle keeps its node. A handle without a node is refused.
    ensures keeps { Keeps handle.old.mark handle.new.mark result }
    // Nothing changes of the node.
    ensures same { handle.new.raw.node ≡ handle.old.raw.node }
{
    on_node!(alloc, handle, node => flag(node.can_write(ConnId(id))))
}

/// Says whether the peer acknowledged all.
#[unsafe(no_mangle)]
pub extern "C" fn chaos_ncp_drained(alloc: Global, handle: &mut Handle, id: u16) -> i32
    // The handle keeps its node. A handle without a node is refused.
    ensures keeps { Keeps handle.old.mark handle.new.mark result }
    // Nothing changes of the node.
    ensures same { handle.new.raw.node ≡ handle.old.raw.node }
{
    on_node!(alloc, handle, node => flag(node.is_drained(ConnId(id))))
}

/// Writes data or an EOF.
#[unsafe(no_mangle)]
pub extern "C" fn chaos_ncp_write(
    alloc: Global,
    handle: &mut Handle,
    id: u16,
    op: u8,
    bytes: &[u8],
    now: u64,
) -> i32
    // The handle keeps its node. A handle without a node is refused.
    ensures keeps { Keeps handle.old.mark handle.new.mark result }
    // The node's host makes this call, if there is room for a packet.
    ensures call { CallsHost handle.old.mark handle.old.raw.node handle.new.raw.node
        (λ node. host_call node.host id (Write op bytes.now now)) result }
{
    on_node!(alloc, handle, node => done(node.write(ConnId(id), Opcode(op), bytes, now)))
}

/// Copies what is in front.
#[unsafe(no_mangle)]
pub extern "C" fn chaos_ncp_front(
    alloc: Global,
    handle: &mut Handle,
    id: u16,
    op: &mut u8,
    buffer: &mut [u8],
) -> i32
    // The handle keeps its node. A handle without a node is refused.
    ensures keeps { Keeps handle.old.mark handle.new.mark result }
    // Nothing changes of the node.
    ensures same { handle.new.raw.node ≡ handle.old.raw.node }
{
    on_node!(alloc, handle, node => front(node.front(ConnId(id), buffer), op))
}

/// Passes over what is in front.
#[unsafe(no_mangle)]
pub extern "C" fn chaos_ncp_read_done(alloc: Global, handle: &mut Handle, id: u16) -> i32
    // The handle keeps its node. A handle without a node is refused.
    ensures keeps { Keeps handle.old.mark handle.new.mark result }
    // The node's host makes this call, if there is room for a packet.
    ensures call { CallsHost handle.old.mark handle.old.raw.node handle.new.raw.node
        (λ node. host_call node.host id FinishRead) result }
{
    on_node!(alloc, handle, node => flag(node.read_done(ConnId(id))))
}

/// Copies what the packet said that ended a connection.
#[unsafe(no_mangle)]
pub extern "C" fn chaos_ncp_ending(
    alloc: Global,
    handle: &mut Handle,
    id: u16,
    op: &mut u8,
    buffer: &mut [u8],
) -> i32
    // The handle keeps its node. A handle without a node is refused.
    ensures keeps { Keeps handle.old.mark handle.new.mark result }
    // Nothing changes of the node.
    ensures same { handle.new.raw.node ≡ handle.old.raw.node }
{
    on_node!(alloc, handle, node => front(node.ending(ConnId(id), buffer), op))
}

/// Gives a connection up.
#[unsafe(no_mangle)]
pub extern "C" fn chaos_ncp_close(alloc: Global, handle: &mut Handle, id: u16, text: &[u8]) -> i32
    // The handle keeps its node. A handle without a node is refused.
    ensures keeps { Keeps handle.old.mark handle.new.mark result }
    // The node's host makes this call, if there is room for a packet.
    ensures call { CallsHost handle.old.mark handle.old.raw.node handle.new.raw.node
        (λ node. host_end node.host id (Close text.now)) result }
{
    on_node!(alloc, handle, node => done(node.close(ConnId(id), text)))
}

/// Frees the slot of a connection that has ended.
#[unsafe(no_mangle)]
pub extern "C" fn chaos_ncp_release(alloc: Global, handle: &mut Handle, id: u16) -> i32
    // The handle keeps its node. A handle without a node is refused.
    ensures keeps { Keeps handle.old.mark handle.new.mark result }
    // The node's host makes this call, if there is room for a packet.
    ensures call { CallsHost handle.old.mark handle.old.raw.node handle.new.raw.node
        (λ node. host_release node.host id) result }
{
    on_node!(alloc, handle, node => done(node.release(ConnId(id))))
}

//! Datagrams and time, as C sees them.
ghost use Rattle.std.specs.Prelude.{◌≡◌};
ghost use Rattle.chaos_ncp.specs.Handle.{Keeps};

use crate::calling::{done, on_node};
use crate::handle::Handle;
use std::alloc::Global;

/// Feeds a datagram that came.
#[unsafe(no_mangle)]
pub extern "C" fn chaos_ncp_feed(alloc: Global, handle: &mut Handle, bytes: &[u8], now: u64) -> i32
    // The handle keeps its node. A handle without a node is refused.
    ensures keeps { Keeps handle.old.mark handle.new.mark result }
{
    on_node!(alloc, handle, node => done(node.feed(bytes, now)))
}

/// Does what is due.
#[unsafe(no_mangle)]
pub extern "C" fn chaos_ncp_tick(alloc: Global, handle: &mut Handle, now: u64) -> i32
    // The handle keeps its node. A handle without a node is refused.
    ensures keeps { Keeps handle.old.mark handle.new.mark result }
{
    on_node!(alloc, handle, node => done(node.tick(now)))
}

/// Says when a tick does something next.
#[unsafe(no_mangle)]
pub extern "C" fn chaos_ncp_next_due(alloc: Global, handle: &mut Handle, due: &mut u64) -> i32
    // The handle keeps its node. A handle without a node is refused.
    ensures keeps { Keeps handle.old.mark handle.new.mark result }
    // Nothing changes of the node.
    ensures same { handle.new.raw.node ≡ handle.old.raw.node }
{
    on_node!(alloc, handle, node => match node.next_due() {
        Some(moment) => {
            *due = moment;
            1
        }
        None => 0,
    })
}

/// Takes a datagram that is to go out.
#[unsafe(no_mangle)]
pub extern "C" fn chaos_ncp_take(
    alloc: Global,
    handle: &mut Handle,
    to: &mut u16,
    buffer: &mut [u8],
) -> i32
    // The handle keeps its node. A handle without a node is refused.
    ensures keeps { Keeps handle.old.mark handle.new.mark result }
{
    on_node!(alloc, handle, node => match node.take(buffer) {
        Ok(Some(outgoing)) => {
            *to = outgoing.to;
            i32::from(outgoing.count)
        }
        Ok(None) => 0,
        Err(fault) => fault.code(),
    })
}

//! A node is created, passes over indices, and is destroyed.
ghost use Rattle.std.specs.Prelude.{◌≡◌, ◌≢◌, false, true, pos, negsuc, OnOk, OnErr, Err};
ghost use Rattle.chaos_ncp.specs.Export.{Passes};
ghost use Rattle.chaos_ncp.specs.Handle.{Keeps, has_node};
ghost use Rattle.chaos_ncp.specs.declared.fault.Fault.{Fault};

use crate::calling::{done, on_node};
use crate::fault::Fault;
use crate::handle::Handle;
use crate::node::Node;
use std::alloc::Global;

/// Creates a node.
#[unsafe(no_mangle)]
pub extern "C" fn chaos_ncp_create(
    alloc: Global,
    handle: &mut Handle,
    address: u16,
    conns: u16,
    window: u16,
) -> i32
    // The handle has a node afterwards if it had one, or if the answer is 0. A handle that has a
    // node is refused.
    ensures created { result ≡ pos 0 → has_node handle.new.mark ≡ true }
    ensures kept { result ≢ pos 0 → has_node handle.new.mark ≡ has_node handle.old.mark }
    ensures refused { has_node handle.old.mark ≡ true → result ≡ negsuc 1 }
{
    done(create(alloc, handle, address, conns, window))
}

fn create(
    alloc: Global,
    handle: &mut Handle,
    address: u16,
    conns: u16,
    window: u16,
) -> Result<(), Fault>
    ensures created { OnOk result (has_node handle.new.mark ≡ true) }
    ensures kept { OnErr result (has_node handle.new.mark ≡ has_node handle.old.mark) }
    ensures refused { has_node handle.old.mark ≡ true → result ≡ Err Fault.HasNode }
{
    if handle.has_node() {
        return Err(Fault::HasNode);
    }
    let node = Node::new(alloc, address, usize::from(conns), window)?;
    match Box::new(alloc, node) {
        Ok(node) => {
            handle.put(node);
            Ok(())
        }
        Err(_) => Err(Fault::NoMemory),
    }
}

/// Passes over so many indices of each slot.
#[unsafe(no_mangle)]
pub extern "C" fn chaos_ncp_pass(alloc: Global, handle: &mut Handle, count: u8) -> i32
    // The handle keeps its node. A handle without a node is refused.
    ensures keeps { Keeps handle.old.mark handle.new.mark result }
    // Each slot of an unused node uses up so many indices. A node that is in use stays as it is.
    ensures passes { Passes handle.old.mark handle.old.raw.node handle.new.raw.node count result }
{
    on_node!(alloc, handle, node => done(node.pass(count)))
}

/// Destroys a node, and gives its memory back.
#[unsafe(no_mangle)]
pub extern "C" fn chaos_ncp_destroy(alloc: Global, handle: &mut Handle) -> i32
    // The handle has no node afterwards. A handle without a node is refused.
    ensures none { has_node handle.new.mark ≡ false }
    ensures refused { has_node handle.old.mark ≡ false → result ≡ negsuc 0 }
    ensures destroyed { has_node handle.old.mark ≡ true → result ≡ pos 0 }
{
    match handle.take(alloc) {
        Ok(_node) => 0,
        Err(fault) => fault.code(),
    }
}

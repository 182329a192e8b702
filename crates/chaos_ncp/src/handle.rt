//! A node as C names it.
ghost use Rattle.std.specs.Prelude.{◌≡◌, false, is_some, true, Some, IfErr, IfOk, OnErr, OnOk};
ghost use Rattle.chaos_ncp.specs.Handle.{has_node};
ghost use Rattle.chaos_ncp.specs.declared.fault.Fault.{Fault};
ghost use Rattle.chaos_ncp.specs.declared.handle.TheConstants.{MARK};

use crate::fault::Fault;
use crate::loose::Loose;
use crate::node::Node;
use crate::raw::Raw;
use std::alloc::Global;
use std::mem::replace;
use std::ptr::null_mut;

/// What marks a handle that has a node: `chaosncp`. Memory that nobody prepared hardly has it.
const MARK: u64 = 0x6368_616F_736E_6370;

/// A handle of a node, in memory of C's. It has a node exactly if it is marked.
#[repr(C)]
#[derive(Drop)]
pub struct Handle {
    pub(crate) mark: u64,
    pub(crate) raw: Raw,
    ghost marked: { mark ≡ MARK → is_some raw.node ≡ true },
}

impl Handle {
    /// Takes the node out, if there is one. The handle then has none.
    pub fn take(&mut self, alloc: Global) -> Result<Box<Node>, Fault>
        // A node comes out exactly if the handle has one. Otherwise the answer is NoNode.
        ensures ok { OnOk result (has_node self.old.mark ≡ true) }
        ensures err { OnErr result (has_node self.old.mark ≡ false) }
        ensures kept { OnErr result (self.new ≡ self.old) }
        ensures fault { IfErr result (λ fault. fault ≡ Fault.NoNode) }
        // The node is the one behind the handle's pointer.
        ensures node { IfOk result (λ node. self.old.raw.node ≡ Some node.value) }
        // The handle has no node afterwards.
        ensures none { has_node self.new.mark ≡ false }
    {
        if self.mark != MARK {
            return Err(Fault::NoNode);
        }
        self.mark = 0;
        let raw = replace(&mut self.raw, Raw::none(null_mut(), alloc));
        Ok(raw.into_loose().into_box())
    }

    /// Puts a node in.
    pub fn put(&mut self, node: Box<Node>)
        // The handle has this node afterwards.
        ensures marked { has_node self.new.mark ≡ true }
        ensures node { self.new.raw.node ≡ Some node.value }
    {
        self.raw = Raw::of(Loose::of(node));
        self.mark = MARK;
    }

    /// Whether there is a node.
    pub fn has_node(&self) -> bool
        // The answer is whether the handle is marked.
        ensures { result ≡ has_node self.now.mark }
    {
        self.mark == MARK
    }
}

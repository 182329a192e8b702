//! The pointer of a node, which may stand in memory of C.
ghost use Rattle.std.specs.Prelude.{◌≡◌, Some, None, Option, is_some, true};
ghost use Rattle.std.specs.contracts.impls.GlobalAllocator.TheImpl.{ghosts};
ghost use Rattle.chaos_ncp.specs.Raw.{raw_owns};
ghost use Rattle.chaos_ncp.specs.declared.node.Node.{Node};
ghost use Rattle.chaos_ncp.specs.contracts.node.Node.{the_row as node_row};

use crate::loose::Loose;
use crate::node::Node;
use std::alloc::Global;
use std::marker::Model;

/// The pointer of a node that is on the heap, or any pointer, where there is no node.
#[repr(C)]
#[derive(Drop)]
pub(crate) struct Raw {
    at: *mut u8,
    alloc: Global,
    pub(crate) ghost node: { Option Node },
}

impl Model for Raw {
    ghost also_owns = { λ raw. raw_owns (ghosts.dealloc_token raw.alloc) node_row raw.at raw.node };
}

impl Raw {
    /// A pointer of no node.
    pub(crate) fn none(at: *mut u8, alloc: Global) -> Raw
        ensures { result.node ≡ None }
    {
        Raw { at, alloc }
    }

    /// The pointer of a node.
    pub(crate) fn of(loose: Loose<Node, Global>) -> Raw
        ensures { result.node ≡ Some loose.value }
    {
        let Loose { at, alloc } = loose;
        Raw {
            at: at as *mut u8,
            alloc,
        }
    }

    /// The node's box again, taken apart.
    pub(crate) fn into_loose(self) -> Loose<Node, Global>
        requires { is_some self.node ≡ true }
        ensures { self.node ≡ Some result.value }
    {
        let Raw { at, alloc } = self;
        Loose {
            at: at as *mut Node,
            alloc,
        }
    }
}

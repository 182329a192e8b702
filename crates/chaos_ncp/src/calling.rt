//! How an export calls a node, and what it answers.
ghost use Rattle.std.specs.Prelude.{◌≡◌};
ghost use Rattle.chaos_ncp.specs.Codes.{done_code, flag_code, number_code};

use crate::fault::Fault;
use crate::node::Front;

/// Makes a call of the node that a handle has, and gives the call's answer. Without a node that is
/// the fault.
macro_rules! on_node {
    ($alloc:ident, $handle:ident, $node:ident => $call:expr) => {
        match $handle.take($alloc) {
            Ok(mut $node) => {
                let answer = $call;
                $handle.put($node);
                answer
            }
            Err(fault) => fault.code(),
        }
    };
}

pub(crate) use on_node;

/// The answer of a call that says no more than whether it was refused.
pub fn done(outcome: Result<(), Fault>) -> i32
    // The answer is the number for this outcome.
    ensures { result ≡ done_code outcome }
{
    match outcome {
        Ok(()) => 0,
        Err(fault) => fault.code(),
    }
}

/// The answer of a call that gives a number of 16 bits.
pub fn number(outcome: Result<u16, Fault>) -> i32
    // The answer is the number for this outcome.
    ensures { result ≡ number_code outcome }
{
    match outcome {
        Ok(number) => i32::from(number),
        Err(fault) => fault.code(),
    }
}

/// The answer of a call that says whether something is so.
pub fn flag(outcome: Result<bool, Fault>) -> i32
    // The answer is the number for this outcome.
    ensures { result ≡ flag_code outcome }
{
    match outcome {
        Ok(true) => 1,
        Ok(false) => 0,
        Err(fault) => fault.code(),
    }
}

/// The answer of a call that copies what is in front. The opcode is left in `op`: 0 if nothing is there.
pub fn front(outcome: Result<Option<Front>, Fault>, op: &mut u8) -> i32 {
    match outcome {
        Ok(Some(front)) => {
            *op = front.op.0;
            i32::from(front.count)
        }
        Ok(None) => {
            *op = 0;
            0
        }
        Err(fault) => fault.code(),
    }
}

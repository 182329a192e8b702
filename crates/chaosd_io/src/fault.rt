//! Why a run ended early.
ghost use Rattle.std.specs.Prelude.{◌≡◌, Err, IsOk, MatchResult};

use crate::buffer::NotWritten;
use chaos_node::NodeFault;
use thiserror::Error;

/// The first fault of a run. Each has a number, by which the documentation names it.
#[derive(Clone, Copy, Debug, PartialEq, Eq, Error)]
pub enum RunFault {
    /// 1: the reader failed, or was interrupted 2,000,000 times.
    #[error("the input could not be read")]
    ReadFault,
    /// 2: the writer failed. Nothing is said of what went out.
    #[error("the output could not be written")]
    WriteFault,
    /// 3: more than 1,048,576 bytes came.
    #[error("the input has more than 1048576 bytes")]
    InputTooLong,
    /// 4: there was no memory.
    #[error("no memory")]
    NoMemory,
    /// 5: this line of a script, counted from 1, is of no form that its language has.
    #[error("line {0}: bad")]
    BadScript(u64),
    /// 6: a link failed.
    #[error("the socket failed")]
    LinkFault,
    /// 7: the clock could not be read.
    #[error("the clock could not be read")]
    ClockFault,
}

impl From<NodeFault> for RunFault {
    ghost use Rattle.chaosd_io.specs.Fault.{run_fault};

    // The fault is `run_fault` of what ended the turns.
    ghost from_gives = { λ fault run. run ≡ run_fault fault };

    /// What ended turns, as the fault of a run.
    fn from(fault: NodeFault) -> RunFault {
        match fault {
            NodeFault::Link => RunFault::LinkFault,
            NodeFault::Clock => RunFault::ClockFault,
            NodeFault::NoMemory => RunFault::NoMemory,
        }
    }
}

/// What wasn't written, as the fault of a run.
pub fn written(end: Result<(), NotWritten>) -> Result<(), RunFault>
    // What didn't fit into the buffer is a `WriteFault` of the run, and what fitted is no fault.
    ensures { MatchResult end (λ _. IsOk result) (λ _. result ≡ Err RunFault.WriteFault) }
{
    match end {
        Ok(()) => Ok(()),
        Err(_) => Err(RunFault::WriteFault),
    }
}

//! The exit status of a line that asks for nothing, and of a run.
ghost use Rattle.std.specs.Prelude.{◌≡◌};
ghost use Rattle.chaosd_call.specs.Exit.{number_of};
ghost use Rattle.chaosd.specs.Status.{refused_status_of};

use chaosd_call::ExitStatus;
use chaosd_line::LineFault;

/// The status after a refused line, by whether the user could be shown its text.
pub(crate) fn refused_status(fault: LineFault, is_shown: bool) -> ExitStatus
    // The status is that of the refusal. Help that could not be written ends by 1, as a fault does.
    ensures { number_of result ≡ refused_status_of fault is_shown }
{
    match fault {
        LineFault::Help if !is_shown => ExitStatus::Fault,
        LineFault::Help => ExitStatus::Done,
        LineFault::BadLine => ExitStatus::BadLine,
        LineFault::NoMemory => ExitStatus::NoMemory,
    }
}

//! Reports on standard error how a run ended, or why it could not begin.
ghost use Rattle.std.specs.Prelude.{◌≡◌, ◌⊎◌};
ghost use Rattle.chaosd_call.specs.Exit.{IsFailure, status_of_fault};

use crate::exit_status::ExitStatus;
use chaosd_io::RunFault;
use std::fmt::Display;
use std::io;

/// Reports the fault that a run ended by, where there was one. A bad line of a script is reported
/// in words of its own, without the program's name.
pub fn report_end<R: Eprint, T>(rt: &R, end: &Result<T, RunFault>) {
    if let Err(fault) = end {
        let _ = match fault {
            RunFault::BadScript(_) => eprintln!(rt; "{fault}"),
            _ => eprintln!(rt; "chaosd: {fault}"),
        };
    }
}

/// Reports what could not be opened, and why. The result is the status of a program that ends by
/// it.
pub fn report_unopened<R: Eprint, D: Display>(rt: &R, what: &D, error: &io::Error) -> ExitStatus
    // The status is that of a fault or of memory that ran out.
    ensures { (result ≡ ExitStatus.Fault) ⊎ (result ≡ ExitStatus.NoMemory) }
{
    if error.kind() == io::ErrorKind::OutOfMemory {
        let _ = eprintln!(rt; "chaosd: {}", RunFault::NoMemory);
        return ExitStatus::NoMemory;
    }
    let _ = eprintln!(rt; "chaosd: can't open {what}: {error}");
    ExitStatus::Fault
}

/// Reports the fault by which a run over files could not begin.
pub fn report_unbegun<R: Eprint>(rt: &R, fault: RunFault) -> ExitStatus
    // The status is that of the fault, and isn't Done.
    ensures value { result ≡ status_of_fault fault }
    ensures failed { IsFailure result }
{
    let _ = eprintln!(rt; "chaosd: no file: {fault}");
    ExitStatus::of_fault(fault)
}

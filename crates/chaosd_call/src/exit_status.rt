//! Exit statuses.
ghost use Rattle.std.specs.Prelude.{◌≡◌};
ghost use Rattle.chaosd_call.specs.Exit.{IsFailure, number_of, fault_status, rank, worse, status_of_fault, status_of_files, status_of_run};

use chaosd_io::RunFault;
use file_transfer::Severity;

/// How the program ended, from well to worst: of several runs the worst is reported.
#[derive(Clone, Copy, Debug, PartialEq, Eq)]
pub enum ExitStatus {
    /// All was done that was asked for. Its number is 0.
    Done,
    /// Something was refused: 3.
    Refused,
    /// A line of the command or of a script is bad: 2.
    BadLine,
    /// Reading, writing, a link or the clock failed: 1.
    Fault,
    /// There was no memory: 4.
    NoMemory,
}

impl ExitStatus {
    /// The number that the program ends with.
    pub fn number(self) -> u8
        // From well to worst the numbers are 0, 3, 2, 1 and 4.
        ensures { result ≡ number_of self }
    {
        match self {
            ExitStatus::Done => 0,
            ExitStatus::Fault => 1,
            ExitStatus::BadLine => 2,
            ExitStatus::Refused => 3,
            ExitStatus::NoMemory => 4,
        }
    }

    /// Its place in their order.
    fn rank(self) -> u8
        ensures { result ≡ rank self }
    {
        self as u8
    }

    /// The worse of two.
    pub fn worse(self, other: ExitStatus) -> ExitStatus
        // Of the two statuses it is the worse.
        ensures { result ≡ worse self other }
    {
        if self.rank() < other.rank() {
            other
        } else {
            self
        }
    }

    /// That of a run which ended by this fault.
    pub fn of_fault(fault: RunFault) -> ExitStatus
        // Out of memory is NoMemory, a bad line is BadLine, and every other fault is Fault.
        ensures value { result ≡ status_of_fault fault }
        // The status has the number that `fault_status` gives the fault.
        ensures number { number_of result ≡ fault_status fault }
        // The status isn't Done.
        ensures failed { IsFailure result }
    {
        match fault {
            RunFault::NoMemory => ExitStatus::NoMemory,
            RunFault::BadScript(_) => ExitStatus::BadLine,
            RunFault::ReadFault
            | RunFault::WriteFault
            | RunFault::InputTooLong
            | RunFault::LinkFault
            | RunFault::ClockFault => ExitStatus::Fault,
        }
    }

    /// That of a run which ended well, in which something was refused, or by a fault.
    pub fn of_run(end: Result<bool, RunFault>) -> ExitStatus
        // A run that did all is Done, a run in which something was refused is Refused, and a run
        // that failed has the status of its fault.
        ensures { result ≡ status_of_run end }
    {
        match end {
            Ok(true) => ExitStatus::Done,
            Ok(false) => ExitStatus::Refused,
            Err(fault) => ExitStatus::of_fault(fault),
        }
    }

    /// That of a run over files, by the worst that came of one.
    pub fn of_files(worst: Severity) -> ExitStatus
        // All done is Done, what was refused is Refused, what failed is Fault, and out of memory is
        // NoMemory.
        ensures { result ≡ status_of_files worst }
    {
        match worst {
            Severity::Done => ExitStatus::Done,
            Severity::Refused => ExitStatus::Refused,
            Severity::Failed => ExitStatus::Fault,
            Severity::NoMemory => ExitStatus::NoMemory,
        }
    }
}

//! How bad what came of files is.
ghost use Rattle.std.specs.Prelude.{◌≡◌};
ghost use Rattle.file_transfer.specs.Severity.{rank, worse};

/// How bad what came of a file is, from well to worst. Of several files the worst counts.
#[derive(Clone, Copy, Debug, PartialEq, Eq, PartialOrd, Ord)]
pub enum Severity {
    /// What was asked for was done.
    Done,
    /// It was refused here or by the server, got no reply, or wasn't tried.
    Refused,
    /// A local file, the link or the clock failed.
    Failed,
    /// There was no memory.
    NoMemory,
}

impl Severity {
    /// Its place in their order.
    fn rank(self) -> u8
        ensures { result ≡ rank self }
    {
        self as u8
    }

    /// The worse of two.
    pub fn worse(self, other: Severity) -> Severity
        // Of the two severities it is the worse.
        ensures { result ≡ worse self other }
    {
        if self.rank() < other.rank() {
            other
        } else {
            self
        }
    }
}

//! What is wrong with a line of a script.
ghost use Rattle.std.specs.Prelude.{◌≡◌, Some};

use chaosd_io::{BadText, RunFault};
use thiserror::Error;

/// The form of a line by its first word, as a user is shown it.
#[derive(Clone, Copy, Debug, PartialEq, Eq, Error)]
pub enum LineForm {
    #[error("write SIDE OPCODE TEXT (a or b; three octal digits)")]
    Write,
    #[error("read SIDE (a or b)")]
    Read,
    #[error("window SIDE NUMBER (a or b; up to 65535)")]
    Window,
    #[error("tick SIDE MOMENT (a or b; milliseconds)")]
    Tick,
    #[error("close SIDE TEXT (a or b)")]
    Close,
    #[error("accept NUMBER (up to 65535)")]
    Accept,
    #[error("deliver COPY (a number, as it was printed)")]
    Deliver,
    #[error("settle")]
    Settle,
    #[error("serve")]
    Serve,
}

/// What is wrong with a line of a laboratory's script.
#[derive(Clone, Copy, Debug, PartialEq, Eq, Error)]
pub enum BadLine {
    #[error("a script has no empty lines")]
    Empty,
    #[error("a script has no comments")]
    Comment,
    #[error("it has more than 4096 bytes")]
    TooLong,
    #[error("the first line must be `ends SA RA SB RB N`: four windows from 1 to 64, and a number up to 65535")]
    NoEnds,
    #[error("only the first line is `ends`")]
    EndsAgain,
    #[error("`serve` is a line of `filelab`")]
    Serve,
    #[error("a line begins with write, read, window, tick, close, accept, deliver or settle, in `filelab` also with serve")]
    NoWord,
    /// It isn't of this form, which its first word needs.
    #[error("expected `{0}`, with one space between fields")]
    Form(LineForm),
    #[error("the text: {0}")]
    Text(BadText),
}

/// A line's number in its script, counted from 1, and what is wrong with the line where it is bad.
#[derive(Clone, Copy, Debug, PartialEq, Eq)]
pub struct LineReport {
    pub number: u64,
    pub wrong: Option<BadLine>,
}

impl LineReport {
    /// Reports what is wrong with the line, and is the fault that ends the run.
    pub fn bad(&mut self, wrong: BadLine) -> RunFault
        // The fault has the line's number.
        ensures fault { result ≡ RunFault.BadScript self.old.number }
        // The report has what is wrong.
        ensures report { self.new ≡ record self.old { wrong = Some wrong } }
    {
        self.wrong = Some(wrong);
        RunFault::BadScript(self.number)
    }
}

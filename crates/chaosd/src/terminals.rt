//! The standard streams that are terminals.
use std::fs::{File, Files};
use std::os::fd::AsRawFd;

/// Standard input by a name, by which it can be opened anew.
const INPUT: &str = "/dev/stdin";

/// Which of the standard streams are terminals.
#[derive(Clone, Copy)]
pub(crate) struct Terminals {
    /// Whether standard input is one: then somebody types.
    pub(crate) input: bool,
    /// Whether standard error is one: then more is reported on it.
    pub(crate) errors: bool,
}

impl Terminals {
    /// The terminal at which somebody types, where there is one, to be read without waiting. It is
    /// opened anew, since standard input is shared with the program that started this one, and
    /// would be read so by that too.
    pub(crate) fn open_input<R: Files<File = File>>(self, rt: &R) -> Option<File> {
        if !self.input {
            return None;
        }
        let terminal = File::open(rt, INPUT).ok()?;
        if os::set_nonblocking(terminal.as_raw_fd(), true) == 0 {
            Some(terminal)
        } else {
            None
        }
    }
}

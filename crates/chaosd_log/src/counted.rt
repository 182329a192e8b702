//! Numbers of things, as a line has them.
use std::fmt::{self, Display, Formatter};

/// A number of things of this name: `1 command`, `4 commands`.
#[derive(Clone, Copy)]
pub(crate) struct Counted(pub(crate) u64, pub(crate) &'static str);

impl Display for Counted {
    fn fmt<W: fmt::Write>(&self, f: &mut Formatter<W>) -> fmt::Result {
        let plural = if self.0 == 1 { "" } else { "s" };
        write!(f, "{} {}{plural}", self.0, self.1)
    }
}

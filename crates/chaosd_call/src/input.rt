//! Standard input.
use std::io::Read;

/// Whether standard input can be read. It is asked before a socket is opened, which would take the
/// place of one that is closed.
pub fn has_input<R: Input>(rt: &R) -> bool {
    rt.reader().read(&mut []).is_ok()
}

//! When a socket is gone.
ghost use Rattle.std.specs.Prelude.{◌≡◌};
ghost use Rattle.chaos_link.specs.Gone.{is_gone_by};

use std::io;
use std::io::ErrorKind;

/// The system knows no such descriptor.
const EBADF: i32 = 9;

/// The descriptor isn't a socket's.
const ENOTSOCK: i32 = 88;

/// Whether a socket that answered this error is gone. An error that isn't the system's is how a
/// socket of the caller's ends a run.
///
/// Every other error concerns one datagram, which is lost.
pub fn is_gone(error: &io::Error) -> bool
    // A socket is gone exactly where its error has the system's code EBADF (9) or ENOTSOCK (88), or
    // isn't the system's and is of the kind `NotConnected`.
    ensures { result ≡ is_gone_by error.now }
{
    match error.raw_os_error() {
        Some(code) => code == EBADF || code == ENOTSOCK,
        None => error.kind() == ErrorKind::NotConnected,
    }
}

//! Who hears what a sealed socket refuses.
ghost use Rattle.chaos_sealed_socket.specs.Notice.{HearsNotice, Notice, Refused, Unheard, stays_as_it_is};

use chaos_seal::SealFault;
use std::net::SocketAddr;

/// Hears what a sealed socket refuses, and what isn't answered, such as for a log.
pub trait SealObserver {
    /// What an observer may become: the observer before, what it hears, and the observer after. An
    /// observer that claims nothing may become anything.
    ghost hears: { Self → Notice → Self → Type 0 } = { λ _ _ _. Unit {0} };

    /// A datagram from this UDP address was refused, with this fault.
    fn refused(&mut self, from: SocketAddr, fault: SealFault)
        // The observer becomes what it may become after this refusal.
        ensures { hears self.old (Refused from fault) self.new };

    /// So many datagrams were sealed for this host, and nothing of it was opened yet.
    fn unheard(&mut self, to: u16, sealed: u64)
        // The observer becomes what it may become after this news.
        ensures { hears self.old (Unheard to sealed) self.new };
}

/// Hears nothing.
#[derive(Clone, Copy, Debug)]
pub struct Unobserved;

impl SealObserver for Unobserved {
    ghost hears = { stays_as_it_is };

    fn refused(&mut self, _from: SocketAddr, _fault: SealFault) {}

    fn unheard(&mut self, _to: u16, _sealed: u64) {}
}

//! What a client's user reads of sealed datagrams that get no answer, and of refused ones.
ghost use Rattle.std.specs.Prelude.{◌≡◌};
ghost use Rattle.chaosd_call.specs.Key.{is_usual};

use chaos_node::ReadableClock;
use chaos_seal::SealFault;
use chaos_sealed_socket::SealObserver;
use std::net::SocketAddr;
use std::time::Duration;

/// So many datagrams are sealed before it is reported that nothing sealed came back.
const PATIENT_FOR: u64 = 5;

/// So long a silence is before it is reported: a server at the end of a slow line needs its time.
const PATIENT_SECONDS: u64 = 2;

/// Reports, once each, that nothing sealed came from the server, and the first datagram that was
/// refused. A datagram that was heard already, or that is of another run, isn't reported: a
/// network may repeat or delay any.
#[derive(Drop)]
pub struct SealWords<'a, R> {
    rt: &'a R,
    /// The client's Chaosnet address.
    me: u16,
    /// When the first datagram was sealed that nothing came back for, by the clock.
    since: Option<Duration>,
    was_unheard: bool,
    was_refused: bool,
}

impl<'a, R: ReadableClock> SealWords<'a, R> {
    /// The words for a client with this Chaosnet address.
    pub fn new(rt: &'a R, me: u16) -> Self {
        SealWords {
            rt,
            me,
            since: None,
            was_unheard: false,
            was_refused: false,
        }
    }

    /// Whether the silence was long enough. Where the clock can't be read, every silence is.
    fn is_long(&mut self) -> bool {
        let Ok(now) = self.rt.since_start() else {
            return true;
        };
        let since = self.since.unwrap_or(now);
        self.since = Some(since);
        now.saturating_sub(since) >= Duration::from_secs(PATIENT_SECONDS)
    }
}

/// Whether a network that repeats and delays brings such datagrams.
fn is_usual(fault: SealFault) -> bool
    // An old counter, an old session, and an empty datagram for another run are usual, and nothing
    // else.
    ensures { result ≡ is_usual fault }
{
    match fault {
        SealFault::Stale | SealFault::OldSession | SealFault::OldCounter => true,
        _ => false,
    }
}

impl<R: ReadableClock + Eprint> SealObserver for SealWords<'_, R> {
    fn refused(&mut self, from: SocketAddr, fault: SealFault) {
        if !self.was_refused && !is_usual(fault) {
            self.was_refused = true;
            let _ = eprintln!(self.rt; "chaosd: refused a datagram of {from}: {fault}");
        }
    }

    fn unheard(&mut self, to: u16, sealed: u64) {
        let is_long = self.is_long();
        if !self.was_unheard && is_long && sealed >= PATIENT_FOR {
            self.was_unheard = true;
            let me = self.me;
            let _ = eprintln!(self.rt;
                "chaosd: nothing sealed came from host {to:o} yet: does it run, and does it have this key for {me:o}?"
            );
        }
    }
}

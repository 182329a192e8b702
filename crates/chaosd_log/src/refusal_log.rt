//! The log of datagrams that a sealed socket refuses.
use crate::lines::LogLines;
use crate::refusals::{RefusalReport, Refusals};
use chaos_seal::SealFault;
use chaos_sealed_socket::SealObserver;
use std::net::SocketAddr;
use std::time::Clock;

/// Logs which datagrams a server's socket refuses, by their UDP addresses. [`Refusals`] says which
/// refusals have a line. While the clock can't be read, all count as refusals of the second that
/// was read last.
#[derive(Drop)]
pub struct RefusalLog<'a, R> {
    rt: &'a R,
    lines: LogLines<'a, R>,
    /// Whether nothing is logged.
    is_quiet: bool,
    refusals: Refusals,
    /// The second of the clock that was read last.
    second: u64,
}

impl<'a, R: Clock + Eprint> RefusalLog<'a, R> {
    /// A log in these lines, which is empty where it is to be quiet.
    pub fn new(rt: &'a R, lines: LogLines<'a, R>, is_quiet: bool) -> Self {
        RefusalLog {
            rt,
            lines,
            is_quiet,
            refusals: Refusals::new(),
            second: 0,
        }
    }

    /// The second of the clock.
    fn second(&mut self) -> u64 {
        if let Ok(now) = self.rt.monotonic() {
            self.second = now.as_secs();
        }
        self.second
    }
}

impl<R: Clock + Eprint> SealObserver for RefusalLog<'_, R> {
    fn refused(&mut self, from: SocketAddr, fault: SealFault) {
        if self.is_quiet {
            return;
        }
        let now = self.second();
        match self.refusals.count(from, fault, now) {
            RefusalReport::Silent => {}
            RefusalReport::Known(1) => self
                .lines
                .write(&format_args!("refused a datagram of {from}: {fault}")),
            RefusalReport::Known(count) => self.lines.write(&format_args!(
                "refused {count} datagrams of {from}: {fault}"
            )),
            RefusalReport::Others(count) => self.lines.write(&format_args!(
                "refused {count} datagrams of other addresses, the last of {from}: {fault}"
            )),
        }
    }

    /// A server waits for nobody.
    fn unheard(&mut self, _to: u16, _sealed: u64) {}
}

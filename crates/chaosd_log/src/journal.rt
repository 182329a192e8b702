//! Where the lines of a log are written.
use crate::heard::Heard;
use crate::level::{Level, Topic};
use crate::limiter::Limiter;
use crate::lines::LogLines;
use crate::peer_sources::PeerSources;
use crate::warning::{Warning, bridge_warning_of, nobody_warning_of, warning_of};
use chaos_file::PrintedName;
use chaos_link::{Peer, Peers};
use std::fmt::Display;
use std::io;
use std::net::SocketAddrV4;
use std::time::Clock;

/// Writes the lines of a log to standard error, each with a time in front where that is asked for:
/// UTC, as RFC 3339 has it. A line that can't be written is dropped.
///
/// A [`Limiter`] says which lines are left out, so that nobody fills a disk by requests. The number
/// of lines that were left out about a topic is reported in a later second, with the first line
/// about the topic or at the end of a turn, or at the end of the run. Where the clock can't be
/// read, all lines count as lines of the last second that was read; the first such fault is logged.
///
/// What is written to standard error no clause can say, so a clause knows nothing of a journal.
#[derive(Drop)]
pub struct Journal<'a, R> {
    rt: &'a R,
    level: Level,
    lines: LogLines<'a, R>,
    pub(crate) sources: PeerSources,
    pub(crate) limiter: Limiter,
    /// The second of the clock that was read last.
    second: u64,
    /// Whether the log has a line that the clock can't be read.
    is_clock_missed: bool,
}

impl<'a, R: Clock + Eprint> Journal<'a, R> {
    /// A log of this level, of a server that has heard nobody.
    pub fn new(rt: &'a R, level: Level, is_timed: bool, sources: PeerSources) -> Self {
        Journal {
            rt,
            level,
            lines: LogLines::new(rt, is_timed),
            sources,
            limiter: Limiter::new(),
            second: 0,
            is_clock_missed: false,
        }
    }

    /// The second of the clock; where the clock can't be read, the second that was read last.
    pub(crate) fn second(&mut self) -> u64 {
        match self.rt.monotonic() {
            Ok(now) => self.second = now.as_secs(),
            Err(fault) => self.miss_clock(&fault),
        }
        self.second
    }

    /// Logs once that the clock can't be read.
    fn miss_clock(&mut self, fault: &io::Error) {
        if !self.is_clock_missed {
            self.is_clock_missed = true;
            self.lines.write(&format_args!(
                "can't read the clock, so all lines count as lines of one second: {fault}"
            ));
        }
    }

    /// Logs a line, where the level has such lines and the limit of the second has room. Says
    /// whether the line was written.
    pub fn log<D: Display>(&mut self, topic: Topic, line: &D) -> bool {
        if !self.level.has(topic) {
            return false;
        }
        let now = self.second();
        self.report_due(topic, now);
        let is_written = self.limiter.take_line(topic, now);
        if is_written {
            self.lines.write(line);
        }
        is_written
    }

    /// Reports how many lines about this topic were left out, where any was.
    fn report(&mut self, topic: Topic) {
        let count = self.limiter.take_left_out(topic);
        if count > 0 {
            self.lines
                .write(&format_args!("{count} more like this, about {topic}"));
        }
    }

    /// Reports how many lines about this topic were left out in a second that is over.
    pub(crate) fn report_due(&mut self, topic: Topic, now: u64) {
        if self.limiter.is_due(topic, now) {
            self.report(topic);
        }
    }

    /// Logs that the server begins, whom it hears, and what is wrong with its peers.
    pub fn begin(&mut self, address: u16, socket: SocketAddrV4, folder: &str, heard: &Heard<'_>) {
        let folder = PrintedName(folder);
        let _ = self.log(
            Topic::Service,
            &format_args!("host {address:o} serves {folder} at {socket}{heard}"),
        );
        let peers = heard.peers;
        self.warn(nobody_warning_of(peers, heard.followed));
        for peer in peers.hosts() {
            self.warn(warning_of(peer, address, socket));
        }
        self.warn(bridge_warning_of(peers.bridge(), socket));
    }

    fn warn(&mut self, warning: Option<Warning>) {
        if let Some(warning) = warning {
            let _ = self.log(Topic::Fault, &warning);
        }
    }

    /// Keeps the peers that the link has now, and logs each host that is answered elsewhere than
    /// before. Such a host may be reported again if it asks from yet another place.
    pub(crate) fn renew(&mut self, peers: &Peers) {
        if is_same(self.sources.peers(), peers) {
            return;
        }
        for peer in peers.hosts() {
            if !self.sources.is_answered_at(peer) {
                let Peer { address, socket } = peer;
                let _ = self.log(
                    Topic::Connection,
                    &format_args!("host {address:o} is at {socket} now"),
                );
                self.sources.forget_reported(*address);
            }
        }
        // A copy of peers takes no memory, and so doesn't fail.
        if let Ok(peers) = peers.clone() {
            self.sources.renew(peers);
        }
    }

    /// Whether this host is answered: a peer has this Chaosnet address, or there is a bridge.
    pub(crate) fn is_peer(&self, address: u16) -> bool {
        self.sources.peers().find(address).is_some()
    }

    /// Logs a line about this host, with the UDP address where it was heard last.
    pub(crate) fn log_of<D: Display>(&mut self, host: u16, topic: Topic, line: &D) {
        let _ = match self.sources.source_of(host) {
            Some(from) => self.log(topic, &format_args!("host {host:o} at {from} {line}")),
            None => self.log(topic, &format_args!("host {host:o} {line}")),
        };
    }

    /// The run is over, as this line says, and what was left out is reported. The line itself is
    /// never left out where the level has such lines.
    pub fn end<D: Display>(&mut self, topic: Topic, line: &D) {
        for topic in &Topic::EACH {
            self.report(*topic);
        }
        if self.level.has(topic) {
            self.lines.write(line);
        }
    }
}

/// Whether these are the same peers in the same places, and the same bridge.
fn is_same(peers: &Peers, others: &Peers) -> bool {
    peers.bridge() == others.bridge() && peers.hosts() == others.hosts()
}

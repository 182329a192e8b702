//! What a journal makes of what a server reports.
ghost use Rattle.std.specs.Prelude.{None};

use crate::change::{Asked, ChangeText, Printed, topic_of};
use crate::counted::Counted;
use crate::journal::Journal;
use crate::level::Topic;
use crate::peer_sources::SourceReport;
use chaos_conn::End;
use chaos_file::{Cause, Change};
use chaos_link::Reports;
use file_server::{Ending, LinkLog, Log};
use std::time::Clock;

/// Why a connection ended, for a user.
fn words_of(ending: Ending) -> &'static str {
    match ending {
        Ending::Done => "done",
        Ending::HostDown => "its host is down",
        Ending::Unacknowledged => "its host acknowledged nothing",
        Ending::Closed => "closed by its host",
    }
}

/// A line for each connection that opens and each that ends, but of no host that isn't a peer, since
/// such a host isn't answered; and for what each command changed.
impl<R: Clock + Eprint> Log for Journal<'_, R> {
    // What is written to standard error no clause can say.
    ghost logged = { λ _. None };

    fn opened(&mut self, peer: End) {
        let End { address, index } = peer;
        if self.is_peer(address) {
            let _ = self.log(
                Topic::Connection,
                &format_args!("host {address:o} opens connection {index:06o}"),
            );
        }
    }

    fn ended(
        &mut self,
        peer: End,
        login: Option<&[u8]>,
        commands: u64,
        resent: u64,
        ending: Ending,
    ) {
        let End { address, index } = peer;
        if !self.is_peer(address) {
            return;
        }
        let name = Printed(login.unwrap_or(b"nobody"));
        let commands = Counted(commands, "command");
        let resent = Counted(resent, "retransmission");
        let why = words_of(ending);
        let _ = self.log(
            Topic::Connection,
            &format_args!(
                "connection {index:06o} of host {address:o} ends: {name}, {commands}, {resent}, {why}"
            ),
        );
    }

    fn changed(
        &mut self,
        peer: End,
        _login: Option<&[u8]>,
        change: &Change,
        cause: Option<Cause<'_>>,
    ) {
        match (topic_of(change, cause), change, cause) {
            (Topic::Fault, Change::Refused(attempt, _), Some(Cause::System(fault))) => {
                let _ = self.log(
                    Topic::Fault,
                    &format_args!("can't {}: {fault}", Asked(attempt)),
                );
            }
            (topic, _, _) => self.log_of(peer.address, topic, &ChangeText { change, cause }),
        }
    }
}

/// A line for a host that asks from where it isn't known, for a host that is answered elsewhere than
/// before, and for a call of the socket that failed. The peers are those that the link has at each
/// call.
impl<R: Clock + Eprint, L: Reports> LinkLog<L> for Journal<'_, R> {
    ghost reads = { L.reported };

    /// What is wrong with where the host asks from is logged once. If the line was left out, the
    /// next datagram from there is logged in its place.
    fn heard(&mut self, link: &L, address: u16) {
        self.renew(link.peers());
        let Some(from) = link.report().source else {
            return;
        };
        let is_logged = match self.sources.hear(address, from) {
            SourceReport::AsKnown => true,
            SourceReport::Stranger => self.log(
                Topic::Stranger,
                &format_args!("host {address:o} asks from {from} and is no PEER"),
            ),
            SourceReport::Elsewhere(known) => self.log(
                Topic::Stranger,
                &format_args!(
                    "host {address:o} asks from {from}, and is answered at {known}, where its PEER is"
                ),
            ),
        };
        if !is_logged {
            self.sources.forget_reported(address);
        }
    }

    /// What was left out in a second that is over is reported too.
    fn turned(&mut self, link: &L) {
        self.renew(link.peers());
        if let Some(fault) = link.report().fault {
            let _ = self.log(Topic::Socket, &fault);
        }
        if !self.limiter.has_left_out() {
            return;
        }
        let now = self.second();
        for topic in &Topic::EACH {
            self.report_due(*topic, now);
        }
    }
}

//! How long a client waits, and why no reply came.
ghost use Rattle.std.specs.Prelude.{◌≡◌, None};
ghost use Rattle.chaos_node.specs.Arrive.{answer_to};
ghost use Rattle.file_client.specs.Missing.{noted, untried, waits_from};

use chaos_conn::Disposition;
use chaos_host::HostDisposition;
use chaos_node::LastPacket;
use file_copy::NoReply;

/// What a client keeps of its wait for a reply.
#[derive(Drop)]
pub(crate) struct ReplyTimer {
    /// The moment from which on it waits.
    pub(crate) since: u64,
    /// Why no reply came up to the last turn.
    pub(crate) missing: NoReply,
}

impl ReplyTimer {
    pub(crate) fn new() -> Self
        ensures { result ≡ record { since = 0; missing = untried } }
    {
        ReplyTimer {
            since: 0,
            missing: NoReply {
                waited: 0,
                is_open: false,
                end: None,
            },
        }
    }

    /// A command is asked at this moment.
    pub(crate) fn begin(&mut self, now: u64)
        ensures since { self.new.since ≡ now }
        ensures missing { self.new.missing ≡ waits_from self.old.missing }
    {
        self.since = now;
        self.missing.waited = 0;
    }

    /// A turn was taken at this moment, in which this packet came last. The packet is copied only
    /// where it ended the request or the connection.
    pub(crate) fn note(&mut self, now: u64, last_arrival: &LastPacket)
        ensures since { self.new.since ≡ self.old.since }
        ensures missing { self.new.missing
            ≡ noted self.old.since now (answer_to last_arrival.now) self.old.missing }
    {
        self.missing.waited = now.saturating_sub(self.since);
        let Some(HostDisposition::At(_, became)) = last_arrival.became else {
            return;
        };
        match became {
            Disposition::Opened => self.missing.is_open = true,
            Disposition::Answered
            | Disposition::Forwarded
            | Disposition::Closed
            | Disposition::Lost => {
                self.missing.end = Some(became.with_packet(&last_arrival.packet));
            }
            _ => {}
        }
    }

    /// Why no reply came. What the peer sent is said once.
    pub(crate) fn no_reply(&mut self) -> NoReply
        ensures reason { result ≡ self.old.missing }
        ensures rest { self.new ≡ record self.old { missing = record self.old.missing { end = None } } }
    {
        NoReply {
            waited: self.missing.waited,
            is_open: self.missing.is_open,
            end: self.missing.end.take(),
        }
    }
}

//! The log of a server's connections, of what their commands changed, and of what its link reports.
ghost use Rattle.std.specs.Prelude.{◌≡◌, List, Option, option_map};
ghost use Rattle.chaos_link.specs.declared.report.LinkReport.{LinkReport};
ghost use Rattle.file_server.specs.Watch.{Event, logged_changed, logged_ended, logged_heard, logged_opened, logged_turned};

use chaos_conn::End;
use chaos_file::{Cause, Change};

/// Why a connection ended, as far as its host knows.
#[derive(Clone, Copy, Debug, PartialEq, Eq)]
pub enum Ending {
    /// Its EOF was served: its user ended what it wrote, and all of that was served.
    Done,
    /// By the look before, its peer's host was heard no more.
    HostDown,
    /// By the look before, its peer had acknowledged nothing that was sent to it, and may never
    /// have asked. The server closed it, or the peer did.
    Unacknowledged,
    /// Its peer closed it, or doesn't know it any more.
    Closed,
}

/// Whatever notes each connection of a server that opens and each that ends, and what each command
/// changed.
pub trait Log {
    /// The openings, the ends and the changes so far, in order. `None` for a log that promises nothing.
    ghost logged: { Self → Option (List Event) };

    /// The connection that this peer asked for has opened.
    fn opened(&mut self, peer: End)
        // The log holds the opening, with its peer, behind all that it held before.
        ensures { logged self.new ≡ logged_opened peer (logged self.old) };

    /// The connection to this peer has ended. `login` is the name that its user gave, if any,
    /// `commands` is how many commands were replied to, and `resent` how often kept items were sent
    /// again.
    fn ended(&mut self, peer: End, login: Option<&[u8]>, commands: u64, resent: u64, ending: Ending)
        // The log holds the end behind all that it held before: the peer, the name that its user
        // gave, how often kept items were sent again, and why the connection ended.
        ensures { logged self.new
            ≡ logged_ended peer (option_map (λ name. name.now) login.entry) resent ending
            (logged self.old) };

    /// A command of the connection to this peer changed this, or was refused. `login` is the name
    /// that the connection's user gave, if any. `cause` is why the store failed, where it did and
    /// knows more.
    fn changed(
        &mut self,
        peer: End,
        login: Option<&[u8]>,
        change: &Change,
        cause: Option<Cause<'_>>,
    )
        // The log holds the change behind all that it held before: the peer, the name that its user
        // gave, and what was changed.
        ensures { logged self.new
            ≡ logged_changed peer (option_map (λ name. name.now) login.entry) change.now
            (logged self.old) };
}

/// A log that also gets what a server's link reports.
pub trait LinkLog<L>: Log {
    /// What the log reads of the link's report. A log that reads none has nothing of it.
    ghost reads: { L → LinkReport };

    /// A datagram came over the link. Its first packet is of the host with this address.
    fn heard(&mut self, link: &L, address: u16)
        // The log holds the host, and from where its datagram came by the link's report, behind all
        // that it held before. It holds nothing more where the report has no source.
        ensures { Self.logged self.new
            ≡ logged_heard address (reads link.now) (Self.logged self.old) };

    /// A turn over the link is over.
    fn turned(&mut self, link: &L)
        // The log holds the fault that the link reports, if any, behind all that it held before.
        ensures { Self.logged self.new ≡ logged_turned (reads link.now) (Self.logged self.old) };
}

/// A log that keeps nothing, and promises nothing.
#[derive(Drop)]
pub struct Silent;

impl Log for Silent {
    ghost use Rattle.std.specs.Prelude.{None};

    ghost logged = { λ _. None };

    fn opened(&mut self, peer: End) {}

    fn ended(
        &mut self,
        peer: End,
        login: Option<&[u8]>,
        commands: u64,
        resent: u64,
        ending: Ending,
    ) {}

    fn changed(
        &mut self,
        peer: End,
        login: Option<&[u8]>,
        change: &Change,
        cause: Option<Cause<'_>>,
    ) {}
}

impl<L> LinkLog<L> for Silent {
    ghost use Rattle.std.specs.Prelude.{None};

    ghost reads = { λ _. record { source = None; fault = None } };

    fn heard(&mut self, link: &L, address: u16) {}

    fn turned(&mut self, link: &L) {}
}

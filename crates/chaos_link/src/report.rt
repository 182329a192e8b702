//! What a link over a socket knows of the world outside.
ghost use Rattle.std.specs.Prelude.{◌≡◌, None};
ghost use Rattle.chaos_link.specs.Peers.{PeersView};
ghost use Rattle.chaos_link.specs.declared.report.LinkReport.{LinkReport};

use crate::peers::Peers;
use crate::socket_fault::SocketFault;
use std::net::SocketAddrV4;

/// What a link knows of its last receive, and of all that it was asked since.
#[derive(Clone, Copy)]
pub struct LinkReport {
    /// From which UDP address the datagram came that the receive answered.
    pub source: Option<SocketAddrV4>,
    /// The last call of the socket that failed, with the number of those that failed before it.
    pub fault: Option<SocketFault>,
}

impl LinkReport {
    /// No datagram came, and no call failed.
    pub(crate) fn new() -> Self
        ensures { result ≡ record { source = None; fault = None } }
    {
        LinkReport {
            source: None,
            fault: None,
        }
    }
}

/// A link that reports from where a datagram came, which call of its socket failed, and which peers
/// it has. A link in memory has no such report.
pub trait Reports {
    /// The report of the link as it is.
    ghost reported: { Self → LinkReport };

    /// The peers of the link as it is.
    ghost peers_of: { Self → PeersView };

    /// What the link knows of its last receive, and of all that it was asked since.
    fn report(&self) -> LinkReport
        // The report is that of the link.
        ensures { result ≡ reported self.now };

    /// The peers that the link has now: its next datagrams go to their UDP addresses.
    fn peers(&self) -> &Peers
        // The peers are those of the link.
        ensures { result.now ≡ peers_of self.now };
}

//! A link over a UDP socket.
ghost use Rattle.std.specs.Prelude.{◌≡◌, ◌≢◌, ◌↔◌, ◌≤◌, ◌++◌, ◌∷◌, [], List, length, map, Option, Result, Some, None, OnOk, OnErr, false, refl, true};
ghost use Rattle.std.specs.declared.io.Error.{Error};
ghost use Rattle.std.specs.declared.net.socket_addr.SocketAddr.{SocketAddr};
ghost use Rattle.chaos_packet.specs.Count.{Rose, with_failure};
ghost use Rattle.chaos_link.specs.Gone.{sent_after};
ghost use Rattle.chaos_link.specs.Heard.{Answered, HearsAfter};
ghost use Rattle.chaos_link.specs.Keeper.{handed_up};
ghost use Rattle.chaos_link.specs.Link.{Asks, IsWithin, Receive, Send};
ghost use Rattle.chaos_link.specs.Peers.{socket_of};
ghost use Rattle.chaos_link.specs.SocketFault.{fault_so_far};
ghost use Rattle.chaos_link.specs.Udp.{AsksSocket, ReceiveOne, SendTo, SocketAsk, after_send, datagrams_in, failures_after, new_udp, outgoing_to, setting, with_keeper, SendsToFixedPeers};

use crate::gone::is_gone;
use crate::keeper::{FixedPeers, PeerKeeper};
use crate::limits::{LINK_ROOM, MAX_WAIT};
use crate::link::{Link, Received, Sent};
use crate::peers::Peers;
use crate::report::{LinkReport, Reports};
use crate::socket::DatagramSocket;
use crate::socket_fault::{SocketCall, SocketFault, fault_after};
use std::marker::Model;
use std::net::{SocketAddr, SocketAddrV4, UdpSocket};
use std::time::Duration;

/// A link over a UDP socket. Datagrams go to the sockets of its peers and the bridge, and come from
/// anybody. A closed link drops what comes from anywhere else than from these sockets. A contract
/// sees the socket, the peers and their keeper, the failures, whether the last receive waited,
/// whether the link is closed, and its report. It says what the socket is asked, and nothing of
/// what the system does then.
///
/// The peers are fixed unless a [`PeerKeeper`] keeps them, which each receive calls once.
///
/// A receive that may wait does so for at most 10 milliseconds, where no datagram is there; the
/// system may round that time up. Any other receive polls. To change from waiting to polling, or
/// back, is a call of the system. A caller that always waits, or never, makes no such call.
///
/// The socket must be bound and not connected. A datagram that the system doesn't send is lost, and
/// is no failure. The system may have no room for it, find it too long, not reach its address, not
/// allow it, or report a fault of an earlier datagram. The same holds for a datagram that the
/// system can't hand over. A network may lose any datagram, and a peer that can't be reached must
/// not stop the service of the others. A link fails where its socket is gone
/// ([`is_gone`](crate::is_gone)), or where the socket can't be set to wait or to poll. Receives of
/// such a socket would never end, or take all of a processor's time.
#[derive(Drop)]
pub struct UdpLink<S = UdpSocket, K = FixedPeers> {
    socket: S,
    peers: Peers,
    keeper: K,
    failures: u64,
    /// Whether the socket's receives wait, once a receive has set that.
    waits: Option<bool>,
    /// Whether it hears its peers and the bridge alone.
    is_closed: bool,
    /// What it knows of its last receive, and of all that it was asked since.
    report: LinkReport,
}

impl<S, K> Model for UdpLink<S, K> {
    ghost use Rattle.chaos_link.specs.Udp.{UdpView};

    ghost Value = { UdpView S K };

    ghost view = { λ link. record {
      socket = link.socket;
      peers = link.peers;
      keeper = link.keeper;
      failures = link.failures;
      waits = link.waits;
      closed = link.is_closed;
      report = link.report;
    } };
}

impl<S> UdpLink<S> {
    /// A link over this socket to these peers, which are fixed. The call does nothing to the socket.
    pub fn new(socket: S, peers: Peers) -> Self
        // A new link hears anybody. It counts no failure and reports nothing, and no receive has
        // set whether its socket waits.
        ensures { result ≡ new_udp socket peers false }
    {
        UdpLink {
            socket,
            peers,
            keeper: FixedPeers,
            failures: 0,
            waits: None,
            is_closed: false,
            report: LinkReport::new(),
        }
    }

    /// The same link, which hears its peers and the bridge alone.
    pub fn closed(socket: S, peers: Peers) -> Self
        // A closed link begins as a new link does, and hears its peers and the bridge alone.
        ensures { result ≡ new_udp socket peers true }
    {
        let mut link = UdpLink::new(socket, peers);
        link.is_closed = true;
        link
    }

    /// The same link, whose peers this keeper keeps.
    pub fn kept_by<K>(self, keeper: K) -> UdpLink<S, K>
        // Nothing but the keeper changes.
        ensures { result ≡ with_keeper keeper self }
    {
        UdpLink {
            socket: self.socket,
            peers: self.peers,
            keeper,
            failures: self.failures,
            waits: self.waits,
            is_closed: self.is_closed,
            report: self.report,
        }
    }
}

impl<S, K> Reports for UdpLink<S, K> {
    ghost reported = { λ link. link.report };

    ghost peers_of = { λ link. link.peers };

    fn report(&self) -> LinkReport {
        self.report
    }

    fn peers(&self) -> &Peers {
        &self.peers
    }
}

impl<S: DatagramSocket, K> UdpLink<S, K> {
    /// Receives a datagram and reports it, without a word to the keeper of the peers.
    fn listen(&mut self, buffer: &mut [u8; LINK_ROOM], may_wait: bool) -> Received
        ensures failed { result ≡ Received.Failed → Rose self.old.failures self.new.failures }
        ensures within { IsWithin LINK_ROOM result }
        ensures peers { self.new.peers ≡ self.old.peers }
        ensures keeper { self.new.keeper ≡ self.old.keeper }
        ensures counted { self.new.failures ≡ failures_after result self.old.failures }
        ensures waits { result ≢ Received.Failed → self.new.waits ≡ Some may_wait }
        ensures socket { result ≢ Received.Failed → Asks (S.asked self.old.socket)
            (S.asked self.new.socket) (setting self.old.waits may_wait ++ ReceiveOne ∷ []) }
        // Whatever the answer is, the socket was asked to send nothing.
        ensures nothing { (asks : List SocketAsk) × (datagrams_in asks ≡ [])
            × Asks (S.asked self.old.socket) (S.asked self.new.socket) asks }
        ensures closed { self.new.closed ≡ self.old.closed }
        ensures answered { self.new.waits ≡ Some may_wait → (heard : Result SocketAddr Error)
            × Answered S.answered S.came self.new.socket heard
            × HearsAfter self.old.closed self.old.peers heard result self.new.report }
    {
        self.report = LinkReport::new();
        if let Err(fault) = set_wait(&mut self.socket, &mut self.waits, may_wait) {
            self.report.fault = Some(fault);
            count_failure(&mut self.failures);
            return Received::Failed;
        }
        match self.socket.receive_datagram(buffer) {
            Ok((count, SocketAddr::V4(from))) if !self.is_closed || self.peers.has_socket(from) => {
                self.report.source = Some(from);
                Received::Got(count)
            }
            // No peer and no bridge has such an address.
            Ok((count, SocketAddr::V6(_))) if !self.is_closed => Received::Got(count),
            Ok(_) => Received::Nothing,
            Err(error) => {
                self.report.fault = fault_after(SocketCall::Receive, error, None);
                if is_gone(&error) {
                    count_failure(&mut self.failures);
                    return Received::Failed;
                }
                Received::Nothing
            }
        }
    }
}

impl<S: DatagramSocket, K: PeerKeeper> Link for UdpLink<S, K> {
    ghost count = { λ link. link.failures };

    ghost queue = { λ _. None };

    ghost asked = { AsksSocket S.asked K.becomes };

    ghost began = { λ link. record {
      socket_asks = [];
      socket_asked = S.began link.socket;
      sends = (refl, refl, refl);
    } };

    /// Sends a datagram to the socket of the peer with this address, otherwise to the bridge. What
    /// the system can't send or doesn't allow is lost, and the answer is still Sent.
    fn send(&mut self, to_address: u16, bytes: &[u8]) -> Sent
        requires { length bytes.now ≤ LINK_ROOM }
        // A send is answered Failed only where the link's count rose; otherwise the count stays.
        // The link is no queue.
        ensures failed { result ≡ Sent.Failed → Rose self.old.failures self.new.failures }
        ensures uncounted { result ≢ Sent.Failed → self.new.failures ≡ self.old.failures }
        ensures queued { Unit {0} }
        // An address is unknown exactly where no peer has it and there is no bridge.
        ensures unknown { (result ≡ Sent.Unknown) ↔ (socket_of to_address self.old.peers ≡ None) }
        // The socket is asked once to send exactly these bytes to the UDP address of that peer,
        // otherwise to the bridge. Where there is neither, the socket is asked nothing. So the
        // socket is asked to send just what the link is asked to send to its peers.
        ensures socket { Asks (S.asked self.old.socket) (S.asked self.new.socket)
            (map SendTo (outgoing_to (socket_of to_address self.old.peers) bytes.now)) }
        ensures asked { Asks (AsksSocket S.asked K.becomes self.old) (AsksSocket S.asked K.becomes self.new)
            (Send (record { to = to_address; bytes = bytes.now }) ∷ []) }
        // Each Failed is counted once, up to the greatest count; beside the report nothing else
        // changes. A send to nobody changes no report.
        ensures link { self.new
            ≡ after_send result self.new.socket self.new.report.fault self.old }
        // A send to a peer or the bridge fails exactly where the socket answered an error by which
        // it is gone. After any other error the datagram is lost, and the answer is Sent, the same
        // as after none. The link reports the error with this call and its UDP address, where the
        // error is a fault, and otherwise what it reported before. A fault has the number of those
        // before it, since the last receive.
        ensures answered { result ≢ Sent.Unknown → (error : Option Error)
            × S.answered self.new.socket error × (result ≡ sent_after error)
            × ((to : SocketAddrV4) × (socket_of to_address self.old.peers ≡ Some to)
            × (self.new.report.fault
            ≡ fault_so_far (SocketCall.Send to) error self.old.report.fault)) }
    {
        let Some(peer) = self.peers.find(to_address) else {
            return Sent::Unknown;
        };
        let Err(error) = self.socket.send_datagram(bytes, peer) else {
            return Sent::Sent;
        };
        self.report.fault = fault_after(SocketCall::Send(peer), error, self.report.fault);
        if is_gone(&error) {
            count_failure(&mut self.failures);
            return Sent::Failed;
        }
        Sent::Sent
    }

    /// Receives a datagram, from whomever the link hears. A datagram of more than 2,048 bytes is cut
    /// to its first 2,048. These are too many for any packet, so that they are refused as a
    /// datagram.
    fn receive(&mut self, buffer: &mut [u8; LINK_ROOM], may_wait: bool) -> Received
        // A receive is answered Failed only where the link's count rose; otherwise the count stays.
        // No more bytes come than the buffer has, and the link is no queue.
        ensures failed { result ≡ Received.Failed → Rose self.old.failures self.new.failures }
        ensures uncounted { result ≢ Received.Failed → self.new.failures ≡ self.old.failures }
        ensures within { IsWithin LINK_ROOM result }
        ensures queued { Unit {0} }
        // The link is asked once to receive, and to send nothing.
        ensures asked { Asks (AsksSocket S.asked K.becomes self.old)
            (AsksSocket S.asked K.becomes self.new) (Receive may_wait ∷ []) }
        // The peers and their keeper become what the keeper makes of them: after the datagram that
        // was handed up, where that came from a UDP address of IPv4, and otherwise after none. So
        // peers that are fixed stay.
        ensures peers { K.becomes self.old.keeper self.old.peers
            (handed_up result self.new.report.source buffer.new) self.new.keeper self.new.peers }
        // Each Failed is counted once, up to the greatest count, and nothing else is counted.
        ensures counted { self.new.failures ≡ failures_after result self.old.failures }
        // A receive that isn't answered Failed waits exactly where its caller lets it, and
        // otherwise polls. The first receive asks the socket to wait for at most 10 milliseconds. A
        // receive asks the socket to wait or to poll where the receive before was set otherwise,
        // and then once for a datagram.
        ensures waits { result ≢ Received.Failed → self.new.waits ≡ Some may_wait }
        ensures socket { result ≢ Received.Failed → Asks (S.asked self.old.socket)
            (S.asked self.new.socket) (setting self.old.waits may_wait ++ ReceiveOne ∷ []) }
        // The link stays closed, or open to anybody.
        ensures closed { self.new.closed ≡ self.old.closed }
        // A receive whose socket is set as its caller lets it fails exactly where the socket
        // answered an error by which it is gone. After any other error nothing came. Otherwise a
        // datagram came, unless the link is closed and the datagram came from no UDP address of a
        // peer or the bridge: then nothing came. The link reports from where the datagram came
        // that it answers, and the error where the error is a fault, and nothing else. A receive
        // whose socket can't be set fails.
        ensures answered { self.new.waits ≡ Some may_wait → (heard : Result SocketAddr Error)
            × Answered S.answered S.came self.new.socket heard
            × HearsAfter self.old.closed self.old.peers heard result self.new.report }
    {
        let received = self.listen(buffer, may_wait);
        match (received, self.report.source) {
            (Received::Got(count), Some(from)) => {
                self.keeper.hear(&mut self.peers, from, &buffer[..count]);
            }
            _ => self.keeper.rest(&mut self.peers),
        }
        received
    }

    fn failures(&self) -> u64 {
        self.failures
    }
}

/// The law of a link whose peers are fixed, over the definitions alone.
pub fn law_fixed_peers<S: DatagramSocket>()
    // The link keeps its peers, whatever it is asked. Its socket is asked to send exactly what the
    // link is asked to send, each datagram to the UDP address that these peers have for it.
    ensures { SendsToFixedPeers S.asked }
{}

/// Counts one failure more, up to the greatest count.
fn count_failure(failures: &mut u64)
    ensures { failures.new ≡ with_failure failures.old }
{
    *failures = failures.saturating_add(1);
}

/// Sets whether the socket's receives wait, where `set` says that they do otherwise.
fn set_wait<S: DatagramSocket>(
    socket: &mut S,
    set: &mut Option<bool>,
    waits: bool,
) -> Result<(), SocketFault>
    ensures ok { OnOk result (set.new ≡ Some waits) }
    ensures err { OnErr result (set.new ≡ set.old) }
    // A socket that is set so already is asked nothing, and so doesn't fail.
    ensures other { OnErr result (set.old ≢ Some waits) }
    ensures asked { OnOk result
        (Asks (S.asked socket.old) (S.asked socket.new) (setting set.old waits)) }
    // After a fault the socket may have been asked only a part of that; it was asked to send
    // nothing.
    ensures nothing { (asks : List SocketAsk) × (datagrams_in asks ≡ [])
        × Asks (S.asked socket.old) (S.asked socket.new) asks }
{
    if *set == Some(waits) {
        return Ok(());
    }
    if set.is_none() {
        if let Err(error) = socket.set_wait(Duration::from_millis(MAX_WAIT)) {
            return Err(SocketFault {
                call: SocketCall::SetWait,
                error,
                earlier: 0,
            });
        }
    }
    if let Err(error) = socket.set_waits(waits) {
        return Err(SocketFault {
            call: SocketCall::SetWaits,
            error,
            earlier: 0,
        });
    }
    *set = Some(waits);
    Ok(())
}

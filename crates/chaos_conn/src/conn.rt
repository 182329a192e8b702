//! One end of a connection.
ghost use Rattle.std.specs.Prelude.{◌≡◌, IfOk};
ghost use Rattle.chaos_conn.specs.View.{new_conn};

use crate::config::ConnConfig;
use crate::state::{End, State};
use chaos_packet::PktNum;
use chaos_window::{RecvWindow, SendWindow};
use std::alloc::{AllocError, Global};
use std::marker::Model;

/// One end of a connection (AI Memo 628, on connections). A contract sees a plain record of its
/// fields.
///
/// Each call makes of the end exactly what the definition `act` says. Its contract is `Does`: the
/// view after the call, the packets that it put out, its answer, at most one packet (at a tick as
/// many as the send window), and the configuration as it was.
///
/// The calls are of four kinds:
///
/// - The user's calls. [`Conn::request`] asks a peer. [`Conn::take_request`] takes a peer's
///   request, and then [`Conn::accept`], [`Conn::answer`] or [`Conn::reject`] replies to it. At an
///   open end [`Conn::write`] and [`Conn::unc`] send. [`Conn::read`] hands the next item out; or
///   [`Conn::front`] lends it, and [`Conn::read_done`] passes over it. [`Conn::announce`] changes
///   the window that the peer may fill. [`Conn::close`] gives the connection up, in any state, and
///   makes the value ready for another connection.
/// - Packets from the network: [`Conn::deliver`].
/// - The tick: [`Conn::tick`], called now and then, sends what is due. [`Conn::next_due`] says when
///   something is due.
/// - Looks, which change nothing: [`Conn::state`], [`Conn::config`], [`Conn::peer`],
///   [`Conn::heard`], [`Conn::resent`], [`Conn::asked`], [`Conn::announced`], [`Conn::can_write`],
///   [`Conn::drained`], [`Conn::sent`], [`Conn::receipted`], [`Conn::keeps_any`],
///   [`Conn::keeps_opn`], [`Conn::due_at`] and [`Conn::stored`].
///
/// The order: `new`; then `request`, or `take_request` and a reply; then packets, ticks, writes and
/// reads as they come; then `close`. A call in the wrong state is refused, and changes nothing.
///
/// ```text
///                           Inactive
///             request        |    |       take_request
///           +----------------+    +----------------+
///           v                                      v
///        RfcSent                              RfcReceived
///         |   |                                |  |   |
///         |   | OPN                     accept |  |   | answer, reject, close: Inactive
///         |   +-----------> Open <-------------+  |
///         |                  |                    |
///         | ANS, FWD,        | CLS, LOS,          | CLS, LOS
///         | CLS, LOS,        | silence            |
///         | silence          v                    |
///         +----------> an ended state <-----------+
///                            |
///                            +-- close: Inactive  (close leads there from every state)
/// ```
///
/// The ended states are Answered, ClsReceived, LosReceived, HostDown and Forwarded. In them nothing
/// is sent, and the items that are held can still be read.
///
/// Each call with an outbox needs room for one packet in it and puts at most one packet there. A
/// tick needs room for as many packets as the send window. Moments are milliseconds. A moment that
/// is earlier than the last counts as the last.
#[derive(Drop)]
pub struct Conn {
    pub(crate) state: State,
    /// The own end.
    pub(crate) me: End,
    /// The peer's address.
    pub(crate) peer: u16,
    /// The peer's index, where it is known.
    pub(crate) peer_index: Option<u16>,
    /// Whether this end made the request.
    pub(crate) asked: bool,
    /// The request's number.
    pub(crate) request: PktNum,
    pub(crate) config: ConnConfig,
    /// The moment of the last call that has one.
    pub(crate) last: u64,
    /// The moment when the peer was last heard.
    pub(crate) heard: u64,
    /// The moment from which the time to send again runs.
    pub(crate) resent: u64,
    /// The moment of the last probe.
    pub(crate) probed: u64,
    /// How many items were read since the peer last heard of reads.
    pub(crate) untold: u16,
    pub(crate) send: SendWindow,
    pub(crate) recv: RecvWindow,
}

impl Model for Conn {
    ghost use Rattle.chaos_conn.specs.View.{ConnView, IsConn};
    ghost use Rattle.chaos_conn.specs.Inside.{conn_view};

    ghost Value = { ConnView };

    ghost view = { conn_view };

    ghost invariant = { λ c. IsConn (conn_view c) };
}

impl Conn {
    /// An end for one connection after another. It takes the memory for both windows, and no later
    /// call takes any.
    pub fn new(alloc: Global, config: ConnConfig) -> Result<Self, AllocError>
        // A new end is inactive, and has the configuration that it was given.
        ensures { IfOk result (λ conn. conn ≡ new_conn config) }
    {
        let send = SendWindow::new(alloc, config.send_cap())?;
        let recv = RecvWindow::new(alloc, config.recv_cap())?;
        Ok(Conn {
            state: State::Inactive,
            me: End {
                address: 0,
                index: 0,
            },
            peer: 0,
            peer_index: None,
            asked: false,
            request: PktNum(0),
            config,
            last: 0,
            heard: 0,
            resent: 0,
            probed: 0,
            untold: 0,
            send,
            recv,
        })
    }
}

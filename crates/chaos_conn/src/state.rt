//! What an end is doing.
ghost use Rattle.std.specs.Prelude.{◌≡◌};
ghost use Rattle.chaos_conn.specs.State.{is_ended, is_live, is_opening, is_inactive, is_requested, is_open, awaits_peer, tells_close};

/// The state of an end (AI Memo 628, on connections). A state of its own for a forwarded request is
/// this host's profile.
#[derive(Clone, Copy, Debug, PartialEq, Eq)]
pub enum State {
    /// There is no connection.
    Inactive,
    /// A request was sent.
    RfcSent,
    /// A request was received, and is held until the user accepts it or turns it away.
    RfcReceived,
    /// The connection is open.
    Open,
    /// Ended: the request was answered.
    Answered,
    /// Ended: the peer closed, or refused.
    ClsReceived,
    /// Ended: the peer's host doesn't know the connection.
    LosReceived,
    /// Ended: nothing was heard of the peer for too long.
    HostDown,
    /// Ended: the request is to be made elsewhere.
    Forwarded,
}

/// An end of a connection: a host's address, and its index of the connection.
#[derive(Clone, Copy, Debug, PartialEq, Eq)]
pub struct End {
    pub address: u16,
    pub index: u16,
}

impl State {
    /// Whether the connection has ended.
    pub fn is_ended(self) -> bool
        // The answer is whether an attempt or a connection came to its end, and its user has not
        // closed it yet.
        ensures { result ≡ is_ended self }
    {
        matches!(
            self,
            State::Answered
                | State::ClsReceived
                | State::LosReceived
                | State::HostDown
                | State::Forwarded
        )
    }

    /// Whether packets are for an end in this state.
    pub(crate) fn is_live(self) -> bool
        ensures { result ≡ is_live self }
    {
        matches!(self, State::RfcSent | State::RfcReceived | State::Open)
    }

    /// Whether a connection is being opened.
    pub fn is_opening(self) -> bool
        // The answer is whether the end asked or was asked, and isn't open yet.
        ensures { result ≡ is_opening self }
    {
        matches!(self, State::RfcSent | State::RfcReceived)
    }

    /// Whether the end is free for a request.
    pub(crate) fn is_inactive(self) -> bool
        // The answer is whether there is no connection.
        ensures { result ≡ is_inactive self }
    {
        matches!(self, State::Inactive)
    }

    /// Whether the end holds a request.
    pub(crate) fn is_requested(self) -> bool
        ensures { result ≡ is_requested self }
    {
        matches!(self, State::RfcReceived)
    }

    /// Whether items go in both directions.
    pub fn is_open(self) -> bool
        // The answer is whether the connection is open.
        ensures { result ≡ is_open self }
    {
        matches!(self, State::Open)
    }

    /// Whether the end waits for packets of its peer.
    pub(crate) fn awaits_peer(self) -> bool
        ensures { result ≡ awaits_peer self }
    {
        matches!(self, State::RfcSent | State::Open)
    }

    /// Whether a close in this state sends a CLS to the peer.
    pub(crate) fn tells_close(self) -> bool
        ensures { result ≡ tells_close self }
    {
        matches!(self, State::RfcReceived | State::Open)
    }
}

//! What a connection shows.
ghost use Rattle.std.specs.Prelude.{◌≡◌, ◌≤◌, length, nat_lt};
ghost use Rattle.std.specs.Option.{option_copied};
ghost use Rattle.chaos_conn.specs.View.{IsConn};
ghost use Rattle.chaos_conn.specs.Calls.{can_write, front_of, has_gap, has_window, is_drained, keeps_opn, peer_of};

use crate::config::ConnConfig;
use crate::conn::Conn;
use crate::state::State;
use chaos_packet::{Item, Opcode, PktNum};

impl Conn {
    /// What the end is doing.
    pub fn state(&self) -> State
        // This is the end's state.
        ensures { result ≡ self.now.state }
    {
        self.state
    }

    /// What the end is set to. A tick needs room for its send window.
    pub fn config(&self) -> ConnConfig
        // This is the end's configuration.
        ensures value { result ≡ self.now.config }
        // Every end is as `IsConn` says.
        ensures sound { IsConn self.now }
        // Every end keeps no more items than its greatest send window.
        ensures kept_fit { length self.now.send.kept ≤ self.now.config.send_cap }
    {
        prove!(self.send.unreceipted() <= self.config.send_cap());
        self.config
    }

    /// The other end of the connection.
    pub fn peer(&self) -> Option<(u16, Option<u16>)>
        // The answer is the peer's address, and its index where that is known. Only an inactive end
        // has no peer.
        ensures { result ≡ peer_of self.now }
    {
        if self.state.is_inactive() {
            None
        } else {
            Some((self.peer, self.peer_index))
        }
    }

    /// A moment in milliseconds: the peer is silent since then.
    pub fn heard(&self) -> u64
        // The peer was last heard at this moment.
        ensures { result ≡ self.now.heard }
    {
        self.heard
    }

    /// A moment in milliseconds. An earlier moment that is handed in counts as this one.
    pub fn last(&self) -> u64
        // This is the last moment that the end was handed.
        ensures { result ≡ self.now.last }
    {
        self.last
    }

    /// A moment in milliseconds: kept items were sent again last then, or an item was sent then
    /// where none was kept. The time to send again runs from this moment.
    pub fn resent(&self) -> u64
        // The time to send again runs from this moment.
        ensures { result ≡ self.now.resent }
    {
        self.resent
    }

    /// Which of the two ends asked for the connection.
    pub fn asked(&self) -> bool
        // The answer is whether this end made the request itself.
        ensures { result ≡ self.now.asked }
    {
        self.asked
    }

    /// The configuration's receive window, until [`Conn::announce`] makes it another. A close sets
    /// it back.
    pub fn announced(&self) -> u16
        // This end announces this window, at most its greatest.
        ensures value { result ≡ self.now.recv.window }
        ensures fits { result ≤ self.now.config.recv_cap }
    {
        self.recv.window()
    }

    /// Whether a write of data is taken.
    pub fn can_write(&self) -> bool
        // The answer is whether the end is open and fewer items are outstanding than its window
        // allows.
        ensures { result ≡ can_write self.now }
    {
        self.has_window() && self.state.is_open()
    }

    /// Whether the peer's user read all that was sent, as far as is known.
    pub fn drained(&self) -> bool
        // The answer is whether all that was written was acknowledged.
        ensures { result ≡ is_drained self.now }
    {
        self.send.outstanding() == 0
    }

    /// How many items may be outstanding: the window that the peer announced, cut to the greatest,
    /// and the greatest before that.
    pub fn window(&self) -> u16
        // This is the window of what the end sends.
        ensures { result ≡ self.now.send.window }
    {
        self.send.window()
    }

    /// Whether an item is held, and an item before it is missing. So it is where a packet was lost,
    /// or is late.
    pub fn has_gap(&self) -> bool
        // The answer is whether any item is held though the next isn't.
        ensures { result ≡ has_gap self.now }
    {
        self.recv.held() > 0 && self.recv.front().is_none()
    }

    /// The number of the newest item that was sent.
    pub fn sent(&self) -> PktNum
        // This is the number last sent.
        ensures { result ≡ self.now.send.sent }
    {
        self.send.last()
    }

    /// The number up to which all items that were sent arrived, as far as is known.
    pub fn receipted(&self) -> PktNum
        // This is the number last receipted.
        ensures { result ≡ self.now.send.receipted }
    {
        self.send.receipted()
    }

    /// Whether any item is kept: it was sent, and isn't known to have arrived.
    pub fn keeps_any(&self) -> bool
        // The answer is whether at least one item is kept.
        ensures { result ≡ nat_lt 0 (length self.now.send.kept) }
    {
        self.send.unreceipted() > 0
    }

    /// Whether the peer never replied to the OPN by which this end accepted its request. So it is
    /// with a peer that never asked, whose address a forger wrote into a request.
    pub fn keeps_opn(&self) -> bool
        // The answer is whether the OPN is still kept: the peer has receipted and acknowledged
        // nothing that this end sent.
        ensures { result ≡ keeps_opn self.now }
    {
        match self.send.kept(0) {
            Some(item) => item.op == Opcode::OPN,
            None => false,
        }
    }

    /// Lends the next item without reading it.
    pub fn front(&self) -> Option<&Item>
        // The next item is lent, where it is held.
        ensures { option_copied result ≡ front_of self.now }
    {
        self.recv.front()
    }

    /// Whether fewer items are outstanding than the window allows.
    pub(crate) fn has_window(&self) -> bool
        ensures { result ≡ has_window self.now.send }
    {
        self.send.outstanding() < self.send.window()
    }
}

//! What calls answer.
ghost use Rattle.std.specs.Prelude.{◌≡◌};
ghost use Rattle.chaos_conn.specs.Disposition.{with_packet};

use crate::state::State;
use chaos_packet::{Item, Packet};

/// Why a packet was dropped.
#[derive(Clone, Copy, Debug, PartialEq, Eq)]
pub enum Why {
    /// It is for another host.
    NotOurs,
    /// Its source's address is 0.
    NoSource,
    /// The end takes no such packet in its state.
    NotOpen,
    /// It isn't between the two ends of the connection.
    Stranger,
    /// An end in this state takes no packet with this opcode.
    BadOp,
    /// It lacks a status: it has fewer than four data bytes.
    BadStatus,
    /// It is an RFC, and not the one that the end took.
    OtherNumber,
    /// Its host has no such connection.
    NoConn,
}

/// What became of a packet, without the packet.
#[derive(Clone, Copy, Debug, PartialEq, Eq)]
pub enum Disposition {
    /// Its item is held until the user reads it.
    Took,
    /// Its item came before.
    Duplicate,
    /// Its item is past the window.
    Outside,
    /// It opened the connection.
    Opened,
    /// It carried a status.
    Status,
    /// It asked for the status.
    Probed,
    /// It is uncontrolled data, kept nowhere.
    Unc,
    /// It answers the request, which it ends.
    Answered,
    /// It names where to ask instead, and the request is ended.
    Forwarded,
    /// The peer closed the connection, or refused the request.
    Closed,
    /// The peer's host doesn't know the connection.
    Lost,
    /// Nothing was made of it, and nothing changed.
    Dropped(Why),
}

impl Disposition {
    /// The answer of [`Conn::deliver`](crate::Conn::deliver) for this packet.
    pub fn with_packet(self, packet: &Packet) -> Delivered
        // The answer is what became of the packet, with a copy of the packet where it is handed
        // out.
        ensures { result ≡ with_packet self packet.now }
    {
        match self {
            Disposition::Took => Delivered::Took,
            Disposition::Duplicate => Delivered::Duplicate,
            Disposition::Outside => Delivered::Outside,
            Disposition::Opened => Delivered::Opened,
            Disposition::Status => Delivered::Status,
            Disposition::Probed => Delivered::Probed,
            Disposition::Unc => Delivered::Unc(packet.copy()),
            Disposition::Answered => Delivered::Answered(packet.copy()),
            Disposition::Forwarded => Delivered::Forwarded(packet.copy()),
            Disposition::Closed => Delivered::Closed(packet.copy()),
            Disposition::Lost => Delivered::Lost(packet.copy()),
            Disposition::Dropped(why) => Delivered::Dropped(why),
        }
    }
}

/// What became of a packet that was delivered.
#[derive(Debug, PartialEq, Eq, Drop)]
pub enum Delivered {
    /// Its item is held until the user reads it.
    Took,
    /// Its item came before.
    Duplicate,
    /// Its item is past the window.
    Outside,
    /// It opened the connection.
    Opened,
    /// It carried a status.
    Status,
    /// It asked for the status.
    Probed,
    /// It is uncontrolled data, handed out here and kept nowhere.
    Unc(Packet),
    /// It answers the request, which it ends.
    Answered(Packet),
    /// It names where to ask instead, and the request is ended.
    Forwarded(Packet),
    /// The peer closed the connection, or refused the request.
    Closed(Packet),
    /// The peer's host doesn't know the connection.
    Lost(Packet),
    /// Nothing was made of it, and nothing changed.
    Dropped(Why),
}

/// What a read gave.
#[derive(Debug, PartialEq, Eq, Drop)]
pub enum ReadEnd {
    /// The next item.
    Item(Item),
    /// No item yet.
    Nothing,
    /// No item any more: the connection is in this state.
    Ended(State),
}

/// What became of a read that hands nothing out.
#[derive(Clone, Copy, Debug, PartialEq, Eq)]
pub enum ReadDone {
    /// The next item was read.
    Done,
    /// No item yet.
    Nothing,
    /// No item any more: the connection is in this state.
    Ended(State),
}

/// What a tick did.
#[derive(Clone, Copy, Debug, PartialEq, Eq)]
pub enum Ticked {
    /// Nothing was due.
    Quiet,
    /// The peer counts as down.
    Down,
    /// All kept items were sent again, so many.
    Resent(usize),
    /// The peer was probed by an SNS.
    Probed,
}

//! How a datagram carries packets.

/// The format of the datagrams of an input.
#[derive(Clone, Copy, Debug, PartialEq, Eq)]
pub enum Format {
    /// The mark, a version, and behind them one packet by version 1 or several by version 2.
    Own,
    /// CHUDP: a head, a packet, and a trailer with the next hop, the sender and the sum.
    Chudp,
}

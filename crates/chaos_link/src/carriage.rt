//! How packets are carried on a link.

/// The version of the datagrams that packets are sent in. Datagrams of both versions are read,
/// whatever is sent.
#[derive(Clone, Copy, Debug, PartialEq, Eq)]
pub enum Carriage {
    /// Each packet is a datagram of its own, of version 1, which every host reads.
    One,
    /// Several packets to one host go in a datagram, of version 2.
    Two,
}

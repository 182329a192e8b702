//! Whom a server hears.
use chaos_link::{Peer, Peers};
use std::fmt;
use std::fmt::{Display, Formatter};

/// Whom a server hears, and how. The text stands behind a server's place on its first line.
#[derive(Clone, Copy)]
pub struct Heard<'a> {
    /// The hosts that have a UDP address, and the bridge.
    pub peers: &'a Peers,
    /// The hosts that are answered where their last good datagram came from.
    pub followed: &'a [u16],
    /// The hosts that have a key.
    pub keyed: &'a [u16],
    /// Whether nobody is heard in clear.
    pub is_sealed: bool,
}

impl Heard<'_> {
    /// The hosts and the bridge as a command line has them, a space in front of each.
    fn write_hosts<W: fmt::Write>(&self, f: &mut Formatter<W>) -> fmt::Result {
        let mut front = " to ";
        for Peer { address, socket } in self.peers.hosts() {
            write!(f, "{front}{address:o}={socket}")?;
            front = " ";
        }
        for address in self.followed {
            write!(f, "{front}{address:o}=*")?;
            front = " ";
        }
        match self.peers.bridge() {
            Some(socket) => write!(f, "{front}*={socket}"),
            None => Ok(()),
        }
    }

    /// The hosts that have a key.
    fn write_keys<W: fmt::Write>(&self, f: &mut Formatter<W>) -> fmt::Result {
        let mut front = match self.keyed.len() {
            1 => ", with a key for ",
            _ => ", with keys for ",
        };
        for address in self.keyed {
            write!(f, "{front}{address:o}")?;
            front = " ";
        }
        Ok(())
    }
}

impl Display for Heard<'_> {
    fn fmt<W: fmt::Write>(&self, f: &mut Formatter<W>) -> fmt::Result {
        self.write_hosts(f)?;
        self.write_keys(f)?;
        if self.is_sealed {
            return f.write_str(", and hears nobody in clear");
        }
        Ok(())
    }
}

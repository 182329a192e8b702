//! How packets stand in datagrams.
ghost use Rattle.std.specs.Prelude.{◌≡◌};
ghost use Rattle.chaosd_line.specs.Framings.{carriage_of};

use chaos_link::Carriage;

/// How packets stand in datagrams.
#[derive(Clone, Copy, Debug, PartialEq, Eq)]
pub enum Framing {
    /// In this program's own datagrams, which are sent so.
    Own(Carriage),
    /// In CHUDP, the framing of cbridge and other programs, one packet in a datagram. The bridge's
    /// own Chaosnet address, where it is given, is not 0: it is the next hop of packets that go
    /// through the bridge.
    Chudp(Option<u16>),
}

impl Framing {
    /// How packets are sent.
    pub fn carriage(&self) -> Carriage
        // A framing's carriage is its own, and the carriage of CHUDP is 1.
        ensures { result ≡ carriage_of self.now }
    {
        match self {
            Framing::Own(carriage) => *carriage,
            Framing::Chudp(_) => Carriage::One,
        }
    }
}

//! The two ends of a connection.

/// An end of the one connection that the laboratory studies.
#[derive(Clone, Copy, Debug, PartialEq, Eq)]
pub enum Side {
    /// The end that asks for the connection, by an RFC.
    A,
    /// The end that is asked, and answers with an OPN.
    B,
}

impl Side {
    ghost use Rattle.std.specs.Prelude.{◌≡◌};
    ghost use Rattle.chaos_lab.specs.Machine.{other};

    /// The end that this end talks to.
    pub fn other(self) -> Side
        // The other end of A is B, and the other end of B is A.
        ensures { result ≡ other self }
    {
        match self {
            Side::A => Side::B,
            Side::B => Side::A,
        }
    }
}

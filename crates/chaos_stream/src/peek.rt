//! What a look at a stream shows.
ghost use Rattle.std.specs.Prelude.{◌≡◌};
ghost use Rattle.chaos_stream.specs.Reading.{uses_up};
ghost use Rattle.chaos_stream.specs.Shown.{sight_of};

/// What comes next in a stream.
#[derive(Clone, Copy, Debug, PartialEq, Eq)]
pub enum Peek<'a> {
    /// Bytes, at most 488, lent from the item that holds them. If the peer sent an empty packet of
    /// data, there are none.
    Bytes(&'a [u8]),
    /// The mark of an EOF.
    Eof,
    /// Nothing yet.
    Nothing,
    /// Nothing any more: the connection isn't live.
    Ended,
}

impl Peek<'_> {
    /// Whether this many bytes leave none of the item in front.
    pub(crate) fn is_used_up_by(&self, count: usize) -> bool
        ensures { result ≡ uses_up (sight_of self.now) count }
    {
        match self {
            Peek::Bytes(bytes) => bytes.len() <= count,
            Peek::Eof => true,
            Peek::Nothing | Peek::Ended => false,
        }
    }
}

//! Reading bytes from a connection.
ghost use Rattle.std.specs.Prelude.{◌≡◌, ◌+◌, ◌<◌, ◌≤◌, drop};
ghost use Rattle.chaos_packet.specs.Opcode.{kind_of};
ghost use Rattle.chaos_packet.specs.Outbox.{room_of};
ghost use Rattle.chaos_stream.specs.Reading.{peek_of, lent_by, item_sight, Consumes};
ghost use Rattle.chaos_stream.specs.Shown.{sight_of};

use crate::peek::Peek;
use chaos_conn::Conn;
use chaos_packet::{Item, Kind, MAX_DATA, Outbox};
use std::marker::Model;

/// The reading side of a stream: a place in the item that a connection has in front. A contract
/// sees the place, in bytes.
///
/// [`StreamIn::peek`] lends what comes next, and [`StreamIn::consume`] passes over it. Read the
/// connection through this value alone. A place past the end of the item in front counts as its
/// end.
#[derive(Debug, Drop)]
pub struct StreamIn {
    /// How many bytes of the item in front are consumed.
    place: usize,
}

impl Model for StreamIn {
    ghost use Rattle.std.specs.Prelude.{ℕ, ◌≤◌};
    ghost use Rattle.chaos_packet.specs.declared.limits.TheConstants.{MAX_DATA};

    ghost Value = { ℕ };

    ghost view = { λ s. s.place };

    ghost invariant = { λ s. s.place ≤ MAX_DATA };
}

impl StreamIn {
    /// A reader for a new connection.
    pub fn new() -> Self
        // A reader starts at the front of an item.
        ensures { result ≡ 0 }
    {
        StreamIn { place: 0 }
    }

    /// What comes next, lent. If no item can be read, the answer is whether an item may still come,
    /// as with [`Conn::read`].
    pub fn peek<'a>(&self, conn: &'a Conn) -> Peek<'a>
        // A look shows what a read would give: the bytes of a data item from the place on, an EOF,
        // Nothing or Ended.
        ensures shown { sight_of result ≡ peek_of conn.now self.now }
        // The place and what a look lends are at most 488 bytes together.
        ensures fits { self.now + lent_by (peek_of conn.now self.now) ≤ MAX_DATA }
    {
        let place = self.place;
        let state = conn.state();
        if state.is_opening() {
            return Peek::Nothing;
        }
        match conn.front() {
            Some(item) => peek_at(item, place),
            None if state.is_open() => Peek::Nothing,
            None => Peek::Ended,
        }
    }

    /// Passes over the next `count` bytes, at most as many as a look lends: 0 where the look shows
    /// an EOF, or no item.
    ///
    /// A read may put an STS out. An EOF and an empty item have no bytes left from the first. If
    /// there is no item, nothing changes.
    pub fn consume(&mut self, conn: &mut Conn, count: usize, out: &mut Outbox)
        requires lent { count ≤ lent_by (peek_of conn.old self.old) }
        requires room { 0 < room_of out.old }
        // The place moves on. The item is read, and the place becomes 0, exactly if none of the
        // item's bytes are left.
        ensures { Consumes conn.old self.old count self.new conn.new out.old out.new }
    {
        if self.peek(conn).is_used_up_by(count) {
            self.place = 0;
            conn.read_done(out);
        } else {
            self.place += count;
        }
    }
}

/// What an item shows from a place on.
fn peek_at(item: &Item, place: usize) -> Peek<'_>
    ensures value { sight_of result ≡ item_sight (kind_of item.now.op) (drop place item.now.body) }
    ensures fits { place ≤ MAX_DATA →
        place + lent_by (item_sight (kind_of item.now.op) (drop place item.now.body)) ≤ MAX_DATA }
{
    match item.op.kind() {
        Kind::Data => Peek::Bytes(bytes_from(item.bytes(), place)),
        Kind::Eof => Peek::Eof,
        _ => Peek::Bytes(&[]),
    }
}

/// The bytes from a place on, and none where the place is past their end.
fn bytes_from(bytes: &[u8], place: usize) -> &[u8]
    ensures { result.now ≡ drop place bytes.now }
{
    bytes.get(place..).unwrap_or(&[])
}

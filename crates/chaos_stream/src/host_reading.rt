//! Reading bytes from one of a host's connections.
ghost use Rattle.std.specs.Prelude.{◌≡◌, ◌+◌, ◌<◌, ◌≤◌, drop, IfOk};
ghost use Rattle.std.specs.Result.{result_map_both};
ghost use Rattle.chaos_packet.specs.Outbox.{room_of};
ghost use Rattle.chaos_packet.specs.declared.limits.TheConstants.{MAX_DATA};
ghost use Rattle.chaos_stream.specs.Reading.{lent_by, uses_up, Consumes};
ghost use Rattle.chaos_stream.specs.Shown.{sight_of};
ghost use Rattle.chaos_stream.specs.HostReading.{peek_at, sight_from, ConsumesAt};

use crate::host_stream::HostStream;
use crate::{Peek, StreamIn};
use chaos_host::{CallFault, Host};
use chaos_packet::Outbox;

impl HostStream {
    /// What comes next, lent. If no item can be read, the answer is whether an item may still come,
    /// as with [`StreamIn::peek`].
    pub fn peek<'a>(&self, host: &'a Host) -> Result<Peek<'a>, CallFault>
        // A look shows what chaos_stream's look shows of the connection from the stream's place on.
        // If no connection has the index, the answer is NoSuchConnection.
        ensures shown { result_map_both (λ peek. sight_of peek) (λ fault. fault) result
            ≡ peek_at host.now self.now }
        // The place and what a look lends are at most 488 bytes together.
        ensures fits { IfOk result (λ peek. self.now.place + lent_by (sight_of peek) ≤ MAX_DATA) }
    {
        let whole = StreamIn::new().peek(host.conn(self.id)?);
        Ok(shown_from(whole, self.place))
    }

    /// Passes over the next `count` bytes, at most as many as a look lends: 0 where the look shows
    /// an EOF, or no item.
    ///
    /// If none of the bytes of the item in front are left, the item is read, which may put an STS
    /// out. An EOF and an empty item have no bytes left from the first. If there is no item,
    /// nothing changes.
    pub fn consume(
        &mut self,
        host: &mut Host,
        count: usize,
        out: &mut Outbox,
    ) -> Result<(), CallFault>
        requires lent { IfOk (peek_at host.old self.old) (λ sight. count ≤ lent_by sight) }
        requires room { 0 < room_of out.old }
        // If no connection has the index, the answer is NoSuchConnection, and host, outbox and
        // stream are as they were. Otherwise the connection and the place become what
        // chaos_stream's `consume` makes of them. No other slot changes, and the index names the
        // connection as before.
        ensures { ConsumesAt host.old self.old count self.new host.new out.old out.new result }
    {
        if is_used_up(self.peek(host)?, count) {
            self.place = 0;
            let _done = host.read_done(self.id, out);
        } else {
            self.place += count;
        }
        Ok(())
    }
}

/// What is shown from a place on, where `whole` is what the start of the item shows.
fn shown_from(whole: Peek<'_>, place: usize) -> Peek<'_>
    ensures { sight_of result ≡ sight_from (sight_of whole.entry) place }
{
    match whole {
        Peek::Bytes(bytes) => Peek::Bytes(bytes.get(place..).unwrap_or(&[])),
        other => other,
    }
}

/// Whether this many bytes leave none of the item in front.
fn is_used_up(shown: Peek<'_>, count: usize) -> bool
    ensures { result ≡ uses_up (sight_of shown.entry) count }
{
    match shown {
        Peek::Bytes(bytes) => bytes.len() <= count,
        Peek::Eof => true,
        Peek::Nothing | Peek::Ended => false,
    }
}

//! Writing bytes to one of a host's connections.
ghost use Rattle.std.specs.Prelude.{◌≡◌, ◌<◌, ◌≤◌, [], true, take, length, IfOk};
ghost use Rattle.chaos_packet.specs.Opcode.{op_eof};
ghost use Rattle.chaos_packet.specs.Outbox.{room_of};
ghost use Rattle.chaos_conn.specs.Act.{Write, Wrote};
ghost use Rattle.chaos_host.specs.Acted.{HostDoes};
ghost use Rattle.chaos_host.specs.Calls.{host_call, reply_of};
ghost use Rattle.chaos_stream.specs.HostNamed.{is_named};
ghost use Rattle.chaos_stream.specs.HostReading.{peek_at};
ghost use Rattle.chaos_stream.specs.HostWriting.{can_put_at, PutsAt, PutsNamed};

use crate::host_stream::HostStream;
use chaos_host::{CallFault, ConnId, Host};
use chaos_packet::{MAX_DATA, Opcode, Outbox, PktNum};

impl HostStream {
    /// Writes bytes as data, and returns how many of them it took, from the first on. Each packet
    /// except the last has 488.
    ///
    /// It stops early only if the connection can't write (it isn't open, or its window is full) or
    /// the outbox has no room. Offer the rest again later. The bytes are copied once for the packet
    /// that goes out, and once for the packet that is kept. For each packet the host looks into its
    /// table twice, without a walk.
    pub fn put_bytes(
        &self,
        host: &mut Host,
        bytes: &[u8],
        now: u64,
        out: &mut Outbox,
    ) -> Result<usize, CallFault>
        // If no connection has the index, the answer is NoSuchConnection, and host and outbox are
        // as they were. Otherwise the connection does with the bytes what chaos_stream's
        // `put_bytes` promises: the same bytes are taken, go out and are kept. No other slot
        // changes, and the index names the connection as before.
        ensures does { PutsAt host.old self.now.id bytes.now now host.new out.old out.new result }
        // No more bytes are taken than there are.
        ensures within { IfOk result (λ taken. taken ≤ length bytes.now) }
        // After the write a look at the stream shows what it showed before. So a reply can be
        // written before what it replies to is consumed.
        ensures looks { peek_at host.new self.now ≡ peek_at host.old self.now }
    {
        host.conn(self.id)?;
        Ok(put_named(host, self.id, bytes, now, out))
    }

    /// Writes an EOF, and returns its number.
    pub fn put_eof(&self, host: &mut Host, now: u64, out: &mut Outbox) -> Result<PktNum, CallFault>
        requires { 0 < room_of out.old }
        // An EOF is the host's write of one, with the same refusals.
        ensures does { HostDoes host.old 1 (host_call host.old self.now.id (Write op_eof [] now))
            host.new out.old out.new (reply_of Wrote result) }
        // After the write a look shows what it showed before.
        ensures looks { peek_at host.new self.now ≡ peek_at host.old self.now }
    {
        host.write(self.id, Opcode::EOF, &[], now, out)
    }
}

/// Writes bytes to a connection that is there.
fn put_named(host: &mut Host, id: ConnId, bytes: &[u8], now: u64, out: &mut Outbox) -> usize
    requires { is_named host.old id ≡ true }
    ensures does { PutsNamed host.old id bytes.now now host.new out.old out.new result }
    ensures within { result ≤ length bytes.now }
{
    let mut taken = 0;
    while taken < bytes.len() && can_put(host, id, out) {
        let cut = first_cut(&bytes[taken..]);
        let _ = host.write(id, Opcode::DATA, cut, now, out);
        taken += cut.len();
    }
    taken
}

/// Whether one more packet of data can be written.
fn can_put(host: &Host, id: ConnId, out: &Outbox) -> bool
    ensures value { result ≡ can_put_at host.now id out.now }
    ensures room { result ≡ true → 0 < room_of out.now }
{
    matches!(host.can_write(id), Ok(true)) && out.room() > 0
}

/// As many of the bytes as one packet has.
#[tactic(auto, using(std::proofs::lemmas::List::take_min))]
fn first_cut(bytes: &[u8]) -> &[u8]
    ensures { result.now ≡ take MAX_DATA bytes.now }
{
    &bytes[..MAX_DATA.min(bytes.len())]
}

//! Writing bytes to a connection.
ghost use Rattle.std.specs.Prelude.{◌≡◌, ◌<◌, ◌≤◌, false, [], length, take};
ghost use Rattle.chaos_packet.specs.Opcode.{op_eof};
ghost use Rattle.chaos_packet.specs.Outbox.{room_of};
ghost use Rattle.chaos_conn.specs.Act.{Write, Wrote, Does};
ghost use Rattle.chaos_stream.specs.Writing.{can_put, Puts, SendsBytes};

use chaos_conn::{Conn, ConnFault};
use chaos_packet::{MAX_DATA, Opcode, Outbox, PktNum};

/// Writes bytes as data, and returns how many of them it took, from the first on. Each packet
/// except the last has 488.
///
/// If it took fewer than all, offer the rest again later. The bytes are copied once for the packet
/// that goes out, and once for the packet that is kept.
pub fn put_bytes(conn: &mut Conn, bytes: &[u8], now: u64, out: &mut Outbox) -> usize
    // While bytes are left, the end can write and the outbox has room, the connection's own writes
    // send data of opcode 200, cut at 488 bytes.
    ensures exact { Puts conn.old out.old bytes.now now conn.new out.new result }

    // No more bytes are taken than there are.
    ensures within { result ≤ length bytes.now }
    // Fewer than all are taken only if the end can't write or the outbox has no room.
    ensures short { result < length bytes.now → can_put conn.new out.new ≡ false }
    // Just these bytes went out, a cut in each packet, and are kept. They are the text of what was
    // sent.
    ensures sent { SendsBytes conn.old conn.new out.old out.new (take result bytes.now) }
{
    let mut taken = 0;
    while taken < bytes.len() && can_put(conn, out) {
        let cut = first_cut(&bytes[taken..]);
        let _ = conn.write(Opcode::DATA, cut, now, out);
        taken += cut.len();
    }
    taken
}

/// Whether one more packet of data can be written.
fn can_put(conn: &Conn, out: &Outbox) -> bool
    ensures { result ≡ can_put conn.now out.now }
{
    conn.can_write() && out.room() > 0
}

/// As many of the bytes as one packet has.
#[tactic(auto, using(std::proofs::lemmas::List::take_min))]
fn first_cut(bytes: &[u8]) -> &[u8]
    ensures { result.now ≡ take MAX_DATA bytes.now }
{
    &bytes[..MAX_DATA.min(bytes.len())]
}

/// Writes an EOF, and returns its number.
pub fn put_eof(conn: &mut Conn, now: u64, out: &mut Outbox) -> Result<PktNum, ConnFault>
    requires { 0 < room_of out.old }
    // An EOF is the connection's write of one, with the same refusals.
    ensures { Does conn.old (Write op_eof [] now) conn.new out.old out.new (Wrote result) }
{
    conn.write(Opcode::EOF, &[], now, out)
}

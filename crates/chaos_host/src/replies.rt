//! The packets that a host itself answers.
ghost use Rattle.std.specs.Prelude.{◌≡◌, ◌≤◌, length};
ghost use Rattle.chaos_host.specs.Deliver.{refusal, no_server, table_full, los_packet};

use crate::host::Host;
use chaos_conn::NO_NUMBER;
use chaos_packet::{MAX_DATA, Opcode, Packet, body_of};

impl Host {
    /// The refusal of a request for a contact that nobody listens to.
    pub(crate) fn no_server(&self, packet: &Packet) -> Packet
        ensures { result ≡ no_server self.now packet.now }
    {
        self.refusal(packet, b"No server for this contact name.")
    }

    /// The refusal of a request for which no slot is free.
    pub(crate) fn table_full(&self, packet: &Packet) -> Packet
        ensures { result ≡ table_full self.now packet.now }
    {
        self.refusal(packet, b"Connection table full.")
    }

    /// The refusal of a request: a CLS to where it came from, from the host's address and index 0.
    fn refusal(&self, packet: &Packet, text: &[u8]) -> Packet
        requires { length text.now ≤ MAX_DATA }
        ensures { result ≡ refusal self.now packet.now text.now }
    {
        Packet {
            op: Opcode::CLS,
            fwd: 0,
            dst: packet.src,
            dst_index: packet.src_index,
            src: self.address,
            src_index: 0,
            num: NO_NUMBER,
            ack: NO_NUMBER,
            body: body_of(text),
        }
    }
}

/// The report of a lost connection: a LOS between the ends of the packet, exchanged.
pub fn los_packet(packet: &Packet) -> Packet
    ensures { result ≡ los_packet packet.now }
{
    Packet {
        op: Opcode::LOS,
        fwd: 0,
        dst: packet.src,
        dst_index: packet.src_index,
        src: packet.dst,
        src_index: packet.dst_index,
        num: NO_NUMBER,
        ack: NO_NUMBER,
        body: body_of(b"No such connection."),
    }
}

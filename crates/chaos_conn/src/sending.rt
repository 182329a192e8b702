//! The packets that an end sends.
ghost use Rattle.std.specs.Prelude.{◌≡◌, ◌<◌, ◌≤◌, ◌==◌, length, [], ◌∷◌, if◌then◌else◌};
ghost use Rattle.chaos_packet.specs.Words.{halves};
ghost use Rattle.chaos_packet.specs.Outbox.{with_put, room_of};
ghost use Rattle.chaos_window.specs.Send.{outstanding_of, next_of};
ghost use Rattle.chaos_conn.specs.Sending.{header_to_peer, untelling_packet, status_body, sts_of, sns_of, item_packet, after_item, carries_ack};

use crate::conn::Conn;
use chaos_packet::{Header, Kind, MAX_DATA, Opcode, Outbox, PktNum};

/// The number of a packet without a number, and the acknowledgement of a packet without an
/// acknowledgement.
pub const NO_NUMBER: PktNum = PktNum(0);

impl Conn {
    /// The header of a packet from this end to its peer.
    fn header_to_peer(&self, op: Opcode, num: PktNum, ack: PktNum) -> Header
        ensures { result ≡ header_to_peer self.now op num ack }
    {
        Header {
            op,
            dst: self.peer,
            dst_index: self.peer_index.unwrap_or(0),
            src: self.me.address,
            src_index: self.me.index,
            num,
            ack,
        }
    }

    /// Puts an uncontrolled packet out, without an acknowledgement.
    pub(crate) fn put_untelling(&self, op: Opcode, body: &[u8], out: &mut Outbox)
        requires room { 0 < room_of out.old }
        requires fits { length body.now ≤ MAX_DATA }
        ensures { out.new ≡ with_put out.old (untelling_packet self.now op body.now ∷ []) }
    {
        out.put_lent(self.header_to_peer(op, NO_NUMBER, NO_NUMBER), body);
    }

    /// The two words of a status: what arrived without a gap, and the window that this end
    /// announces.
    pub(crate) fn status_body(&self) -> [u8; 4]
        ensures { result ≡ status_body self.now }
    {
        word_bytes(self.recv.receipt(), self.recv.window())
    }

    /// Puts the status out, which reports all reads.
    pub(crate) fn put_sts(&mut self, out: &mut Outbox)
        requires { 0 < room_of out.old }
        ensures view { self.new ≡ record self.old { untold = 0 } }
        ensures packets { out.new ≡ with_put out.old (sts_of self.old ∷ []) }
    {
        let read = self.recv.read_num();
        let header = self.header_to_peer(Opcode::STS, NO_NUMBER, read);
        out.put_lent(header, &self.status_body());
        self.untold = 0;
    }

    /// Puts the packet out that asks for the peer's status.
    pub(crate) fn put_sns(&self, out: &mut Outbox)
        requires { 0 < room_of out.old }
        ensures { out.new ≡ with_put out.old (sns_of self.now ∷ []) }
    {
        let header = self.header_to_peer(Opcode::SNS, NO_NUMBER, self.recv.read_num());
        out.put_lent(header, &[]);
    }

    /// Puts an item out as a packet with a number, and with the present acknowledgement where it
    /// carries one.
    pub(crate) fn put_item(&self, num: PktNum, op: Opcode, body: &[u8], out: &mut Outbox)
        requires room { 0 < room_of out.old }
        requires fits { length body.now ≤ MAX_DATA }
        ensures { out.new
            ≡ with_put out.old
            (item_packet self.now num (record { op = op; body = body.now }) ∷ []) }
    {
        let ack = if carries_ack(op.kind()) {
            self.recv.read_num()
        } else {
            NO_NUMBER
        };
        let mut header = self.header_to_peer(op, num, ack);
        if op.kind().is_rfc() {
            header.dst_index = 0;
        }
        out.put_lent(header, body);
    }

    /// Sends an item with the next number, and keeps a copy until it is receipted.
    pub(crate) fn send_item(&mut self, op: Opcode, body: &[u8], out: &mut Outbox)
        requires room { 0 < room_of out.old }
        requires window { outstanding_of self.old.send < self.old.send.window }
        requires fits { length body.now ≤ MAX_DATA }
        ensures view { self.new ≡ after_item self.old (record { op = op; body = body.now }) }
        ensures packets { out.new
            ≡ with_put out.old
            (item_packet self.old (next_of self.old.send) (record { op = op; body = body.now })
            ∷ []) }
    {
        self.put_item(self.send.last().next(), op, body, out);
        if self.send.unreceipted() == 0 {
            self.resent = self.last;
        }
        let _ = self.send.push(op, body);
    }
}

/// Whether packets of this kind carry the acknowledgement.
pub fn carries_ack(kind: Kind) -> bool
    ensures { result ≡ carries_ack kind }
{
    matches!(
        kind,
        Kind::Opn | Kind::Sns | Kind::Sts | Kind::Eof | Kind::Data
    )
}

/// The bytes of two words, of each word the low half first.
fn word_bytes(receipt: PktNum, window: u16) -> [u8; 4]
    ensures { result ≡ halves (receipt ∷ window ∷ []) }
{
    let receipt = receipt.0;
    [
        (receipt % 256) as u8,
        (receipt / 256) as u8,
        (window % 256) as u8,
        (window / 256) as u8,
    ]
}

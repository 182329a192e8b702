//! A packet.
ghost use Rattle.std.specs.Prelude.{◌≡◌, ◌+◌, ◌*◌, ◌≤◌, length};
ghost use Rattle.chaos_packet.specs.Header.{packet_of};
ghost use Rattle.chaos_packet.specs.Packet.{blank, status_of, status_words, contact_of, arguments_of};
ghost use Rattle.chaos_packet.specs.Words.{header_of};

use crate::header::Header;
use crate::item::{body_of, overwrite_body};
use crate::limits::{HEADER_WORDS, MAX_DATA};
use crate::number::PktNum;
use crate::opcode::{Kind, Opcode};
use crate::request::{arguments_in, contact_in};
use arrayvec::ArrayVec;
use std::marker::Model;

/// A packet: its header, and at most [`MAX_DATA`] bytes of data (AI Memo 628, on packets). A
/// contract sees a plain record, with the data as a list of bytes.
///
/// As words, each of 16 bits:
///
/// ```text
///        high half        low half
///      +----------------+----------------+
///    0 | opcode         | free           |
///    1 | forwarded (4)  | data bytes (12)|
///    2 | destination address             |   subnet high, host low
///    3 | destination index               |
///    4 | source address                  |
///    5 | source index                    |
///    6 | number                          |
///    7 | acknowledgement                 |
///      +----------------+----------------+
///    8 | data byte 1    | data byte 0    |
///    9 | data byte 3    | data byte 2    |
///      | ...            | ...            |
///      +----------------+----------------+
/// ```
#[derive(Clone, Debug, PartialEq, Eq, Drop)]
pub struct Packet {
    pub op: Opcode,
    /// How often the packet was forwarded, at most [`MAX_FORWARDS`](crate::MAX_FORWARDS) times: the
    /// type keeps it.
    pub fwd: u8,
    /// The destination's address, subnet in the high half and host in the low half.
    pub dst: u16,
    /// The destination's index of the connection.
    pub dst_index: u16,
    /// The source's address.
    pub src: u16,
    /// The source's index of the connection.
    pub src_index: u16,
    /// The packet's number.
    pub num: PktNum,
    /// The number of the last packet that the source's user read.
    pub ack: PktNum,
    /// The data bytes.
    pub body: ArrayVec<u8, MAX_DATA>,
}

impl Model for Packet {
    ghost use Rattle.std.specs.Prelude.{◌≤◌};
    ghost use Rattle.chaos_packet.specs.declared.limits.TheConstants.{MAX_FORWARDS};
    ghost use Rattle.chaos_packet.specs.Packet.{PacketView};

    ghost Value = { PacketView };

    ghost view = { λ p. record {
      op = p.op;
      fwd = p.fwd;
      dst = p.dst;
      dst_index = p.dst_index;
      src = p.src;
      src_index = p.src_index;
      num = p.num;
      ack = p.ack;
      body = p.body.items;
    } };

    ghost invariant = { λ p. p.fwd ≤ MAX_FORWARDS };

    ghost inverse = { λ v. record {
      op = v.op;
      fwd = v.fwd;
      dst = v.dst;
      dst_index = v.dst_index;
      src = v.src;
      src_index = v.src_index;
      num = v.num;
      ack = v.ack;
      body = record { items = v.body };
    } };
}

/// Stands in the places of an array that hold no packet yet.
impl Default for Packet {
    fn default() -> Self
        // The packet that stands for none has zeros and no data.
        ensures { result ≡ blank }
    {
        Packet {
            op: Opcode(0),
            fwd: 0,
            dst: 0,
            dst_index: 0,
            src: 0,
            src_index: 0,
            num: PktNum(0),
            ack: PktNum(0),
            body: ArrayVec::new(),
        }
    }
}

impl Packet {
    /// A copy of the packet with its data. It takes no memory, so it can't fail.
    pub fn copy(&self) -> Self
        // The packet is copied whole.
        ensures { result ≡ self.now }
    {
        Packet {
            op: self.op,
            fwd: self.fwd,
            dst: self.dst,
            dst_index: self.dst_index,
            src: self.src,
            src_index: self.src_index,
            num: self.num,
            ack: self.ack,
            body: body_of(self.bytes()),
        }
    }

    /// Makes it the packet with this header and these data, which no host forwarded. The data are
    /// written over the old data.
    pub(crate) fn overwrite(&mut self, header: Header, bytes: &[u8])
        requires { length bytes.now ≤ MAX_DATA }
        ensures { self.new ≡ packet_of header bytes.now }
    {
        self.op = header.op;
        self.fwd = 0;
        self.dst = header.dst;
        self.dst_index = header.dst_index;
        self.src = header.src;
        self.src_index = header.src_index;
        self.num = header.num;
        self.ack = header.ack;
        overwrite_body(&mut self.body, bytes);
    }

    /// The packet's data.
    pub fn bytes(&self) -> &[u8]
        // The data bytes of the packet are lent. There are at most 488.
        ensures value { result.now ≡ self.now.body }
        ensures fits { length result.now ≤ MAX_DATA }
    {
        self.body.as_slice()
    }

    /// The header as words, with a zero free half.
    pub fn header(&self) -> [u16; HEADER_WORDS]
        // These words are the packet's header.
        ensures words { result ≡ header_of self.now }
    {
        [
            u16::from(self.op.0) * 256,
            u16::from(self.fwd) * 4096 + self.bytes().len() as u16,
            self.dst,
            self.dst_index,
            self.src,
            self.src_index,
            self.num.0,
            self.ack.0,
        ]
    }

    /// The contact name in the data of an RFC: the bytes before the first space, lent.
    pub fn contact(&self) -> &[u8]
        // The contact of a packet is the contact in its data.
        ensures { result.now ≡ contact_of self.now }
    {
        contact_in(self.bytes())
    }

    /// The arguments behind the contact name of an RFC: the bytes after the first space, lent.
    pub fn arguments(&self) -> &[u8]
        // The arguments of a packet are the arguments in its data.
        ensures { result.now ≡ arguments_of self.now }
    {
        arguments_in(self.bytes())
    }

    /// The receipt and the window that an OPN or STS carries.
    pub fn status(&self) -> Option<(PktNum, u16)>
        // An OPN or STS with four data bytes or more has a receipt and a window. Data bytes past
        // the fourth are ignored. Other packets have none.
        ensures { result ≡ status_of self.now }
    {
        match self.op.kind() {
            Kind::Opn | Kind::Sts => status_words(self.bytes()),
            _ => None,
        }
    }
}

/// The first two words of the data.
fn status_words(bytes: &[u8]) -> Option<(PktNum, u16)>
    ensures { result ≡ status_words bytes.now }
{
    match bytes {
        [a, b, c, d, ..] => Some((
            PktNum(u16::from_le_bytes([*a, *b])),
            u16::from_le_bytes([*c, *d]),
        )),
        _ => None,
    }
}

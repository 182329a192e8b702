//! A packet that was sent, as the laboratory keeps it.
ghost use Rattle.std.specs.Prelude.{◌≡◌, ◌≤◌, ◌<◌, ◌+◌, vec_len};

use crate::data::Data;
use chaos_packet::{Item, Opcode, Packet, PktNum, body_of};
use std::alloc::Global;
use std::marker::Model;

/// A packet that was sent. A contract sees it as any packet.
///
/// It takes the memory of its header and of the data bytes that it has, where a [`Packet`] has room
/// for the most of them.
#[derive(Drop)]
pub struct KeptPacket {
    op: Opcode,
    fwd: u8,
    dst: u16,
    dst_index: u16,
    src: u16,
    src_index: u16,
    num: PktNum,
    ack: PktNum,
    bytes: Data,
}

impl Model for KeptPacket {
    ghost use Rattle.std.specs.Prelude.{◌≤◌, length};
    ghost use Rattle.chaos_packet.specs.declared.limits.TheConstants.{MAX_DATA, MAX_FORWARDS};
    ghost use Rattle.chaos_packet.specs.Packet.{PacketView};
    ghost use Rattle.chaos_lab.specs.Data.{data_of};

    ghost Value = { PacketView };

    ghost view = { λ p. record {
      op = p.op;
      fwd = p.fwd;
      dst = p.dst;
      dst_index = p.dst_index;
      src = p.src;
      src_index = p.src_index;
      num = p.num;
      ack = p.ack;
      body = data_of p.bytes;
    } };

    ghost invariant = { λ p. (p.fwd ≤ MAX_FORWARDS) × (length (data_of p.bytes) ≤ MAX_DATA) };
}

impl KeptPacket {
    /// A copy of a packet. Where there is no memory for its data, the data take a spare room, as
    /// [`crate::set_aside`] makes them.
    pub fn new(alloc: Global, packet: &Packet, spares: &mut Vec<Box<Item, Global>>) -> Self
        requires { 0 < vec_len spares.old }
        // What is kept is the packet.
        ensures value { result ≡ packet.now }
        // At most one of the rooms that were set aside is taken.
        ensures spares { vec_len spares.old ≤ vec_len spares.new + 1 }
    {
        KeptPacket {
            op: packet.op,
            fwd: packet.fwd,
            dst: packet.dst,
            dst_index: packet.dst_index,
            src: packet.src,
            src_index: packet.src_index,
            num: packet.num,
            ack: packet.ack,
            bytes: Data::new(alloc, packet.bytes(), spares),
        }
    }

    /// The opcode, which says what kind of packet it is.
    pub fn op(&self) -> Opcode
        // The opcode is the kept packet's.
        ensures { result ≡ self.now.op }
    {
        self.op
    }

    /// The index at the host that the packet is for.
    pub fn dst_index(&self) -> u16
        // The index is the kept packet's.
        ensures { result ≡ self.now.dst_index }
    {
        self.dst_index
    }

    /// The packet's number, by which its receiver puts it in order.
    pub fn num(&self) -> PktNum
        // The number is the kept packet's.
        ensures { result ≡ self.now.num }
    {
        self.num
    }

    /// The number of the last packet that its sender's user had read.
    pub fn ack(&self) -> PktNum
        // The acknowledgement is the kept packet's.
        ensures { result ≡ self.now.ack }
    {
        self.ack
    }

    /// The data bytes, lent from where they are kept.
    pub fn bytes(&self) -> &[u8]
        // The data are the kept packet's.
        ensures { result.now ≡ self.now.body }
    {
        self.bytes.bytes()
    }

    /// Writes the packet into a place of the caller's, by a copy of the data over what lay there.
    pub(crate) fn write_into(&self, packet: &mut Packet)
        // The packet is written over whatever packet lay there.
        ensures { packet.new ≡ self.now }
    {
        packet.op = self.op;
        packet.fwd = self.fwd;
        packet.dst = self.dst;
        packet.dst_index = self.dst_index;
        packet.src = self.src;
        packet.src_index = self.src_index;
        packet.num = self.num;
        packet.ack = self.ack;
        packet.body.clear();
        let _fits = packet.body.try_extend_from_slice(self.bytes.bytes());
    }

    /// The whole packet, made again. The call takes no memory, and copies the data.
    pub fn packet(&self) -> Packet
        // The packet is the kept packet.
        ensures { result ≡ self.now }
    {
        Packet {
            op: self.op,
            fwd: self.fwd,
            dst: self.dst,
            dst_index: self.dst_index,
            src: self.src,
            src_index: self.src_index,
            num: self.num,
            ack: self.ack,
            body: body_of(self.bytes.bytes()),
        }
    }
}

//! What a packet says beside its data.
use crate::number::PktNum;
use crate::opcode::Opcode;

/// The header of a packet that no host forwarded, without the number of data bytes, which follows
/// from the data (AI Memo 628, on the packet header). A sender makes a packet of a header and of
/// lent data: see [`Outbox::put_lent`](crate::Outbox::put_lent).
#[derive(Clone, Copy, Debug, PartialEq, Eq)]
pub struct Header {
    pub op: Opcode,
    /// The destination's address, and its index or 0.
    pub dst: u16,
    pub dst_index: u16,
    /// The source's address and index.
    pub src: u16,
    pub src_index: u16,
    /// The packet's number, and the number that it acknowledges.
    pub num: PktNum,
    pub ack: PktNum,
}

//! What is numbered, kept and delivered in order.
ghost use Rattle.std.specs.Prelude.{◌≡◌, ◌≤◌, length};
ghost use Rattle.chaos_packet.specs.Item.{blank_item};

use crate::limits::MAX_DATA;
use crate::opcode::Opcode;
use arrayvec::ArrayVec;
use std::marker::Model;

/// A controlled packet without its header: its opcode and its data. Its number follows from its
/// place in its direction.
#[derive(Clone, Debug, PartialEq, Eq, Drop)]
pub struct Item {
    pub op: Opcode,
    /// The data bytes.
    pub body: ArrayVec<u8, MAX_DATA>,
}

impl Model for Item {
    ghost use Rattle.chaos_packet.specs.Item.{ItemView};

    ghost Value = { ItemView };

    ghost view = { λ item. record { op = item.op; body = item.body.items } };

    ghost inverse = { λ v. record { op = v.op; body = record { items = v.body } } };
}

/// Lies in the places that hold no item yet.
impl Default for Item {
    fn default() -> Self
        // The item that stands for none has opcode 0 and no data.
        ensures { result ≡ blank_item }
    {
        Item::new(Opcode(0), &[])
    }
}

impl Item {
    /// An item with a copy of these bytes.
    pub fn new(op: Opcode, bytes: &[u8]) -> Self
        requires { length bytes.now ≤ MAX_DATA }
        // The item has this opcode and exactly these bytes.
        ensures { result ≡ record { op = op; body = bytes.now } }
    {
        Item {
            op,
            body: body_of(bytes),
        }
    }

    /// Makes the item another one, with a copy of these bytes. The bytes are written over the old
    /// ones. If the old ones were more, zeros are written over the rest of them, and over nothing
    /// else.
    pub fn overwrite(&mut self, op: Opcode, bytes: &[u8])
        requires { length bytes.now ≤ MAX_DATA }
        // The item has this opcode and exactly these bytes, whatever it was before.
        ensures { self.new ≡ record { op = op; body = bytes.now } }
    {
        self.op = op;
        overwrite_body(&mut self.body, bytes);
    }

    /// The item's data.
    pub fn bytes(&self) -> &[u8]
        // The bytes of the item are lent. There are at most 488.
        ensures value { result.now ≡ self.now.body }
        ensures fits { length result.now ≤ MAX_DATA }
    {
        self.body.as_slice()
    }
}

/// A packet's data with a copy of these bytes. It takes no memory.
pub fn body_of(bytes: &[u8]) -> ArrayVec<u8, MAX_DATA>
    requires { length bytes.now ≤ MAX_DATA }
    // The bytes, at most 488, are copied whole.
    ensures { result.items ≡ bytes.now }
{
    let mut body = ArrayVec::new();
    let _fits = body.try_extend_from_slice(bytes);
    body
}

/// Makes these the data, by a copy over what lies there.
pub(crate) fn overwrite_body(body: &mut ArrayVec<u8, MAX_DATA>, bytes: &[u8])
    requires { length bytes.now ≤ MAX_DATA }
    ensures { body.new.items ≡ bytes.now }
{
    let had = body.len();
    if had < bytes.len() {
        body.as_mut_slice().copy_from_slice(&bytes[..had]);
        let _fits = body.try_extend_from_slice(&bytes[had..]);
    } else {
        body.truncate(bytes.len());
        body.as_mut_slice().copy_from_slice(bytes);
    }
}

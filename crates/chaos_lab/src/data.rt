//! Data bytes that are kept.
ghost use Rattle.std.specs.Prelude.{◌≡◌, ◌≤◌, ◌<◌, ◌+◌, length, OnOk, vec_len};
ghost use Rattle.chaos_lab.specs.Data.{data_of};

use arrayvec::ArrayVec;
use chaos_packet::{Item, MAX_DATA, Opcode};
use std::alloc::{AllocError, Global};

/// So few bytes are kept without memory of their own: a status has four, and most lines of a script
/// no more than these.
const SHORT_LEN: usize = 24;

/// The data bytes of a packet or an item, in as much memory as they need.
#[derive(Drop)]
pub(crate) enum Data {
    /// A few.
    Short(ArrayVec<u8, SHORT_LEN>),
    /// More, in memory of their own.
    Long(Vec<u8>),
    /// In room for the most that there are, which was set aside before: no other memory was to be
    /// had.
    Spare(Box<Item, Global>),
}

impl Data {
    /// A copy of these bytes, in a spare room only where there is no other memory.
    pub(crate) fn new(alloc: Global, bytes: &[u8], spares: &mut Vec<Box<Item, Global>>) -> Self
        requires fits { length bytes.now ≤ MAX_DATA }
        requires spare { 0 < vec_len spares.old }
        ensures value { data_of result ≡ bytes.now }
        ensures spares { vec_len spares.old ≤ vec_len spares.new + 1 }
    {
        let mut short = ArrayVec::new();
        if short.try_extend_from_slice(bytes).is_ok() {
            return Data::Short(short);
        }
        Data::long(alloc, bytes, spares)
    }

    /// A copy of more than a few bytes.
    #[inline(never)]
    fn long(alloc: Global, bytes: &[u8], spares: &mut Vec<Box<Item, Global>>) -> Self
        requires fits { length bytes.now ≤ MAX_DATA }
        requires spare { 0 < vec_len spares.old }
        ensures value { data_of result ≡ bytes.now }
        ensures spares { vec_len spares.old ≤ vec_len spares.new + 1 }
    {
        if let Ok(fitting) = Vec::from_slice(alloc, bytes) {
            return Data::Long(fitting);
        }
        match spares.pop() {
            Some(mut room) => {
                room.body.clear();
                let _fits = room.body.try_extend_from_slice(bytes);
                Data::Spare(room)
            }
            None => Data::Long(Vec::new(alloc)),
        }
    }

    /// The bytes, lent.
    pub(crate) fn bytes(&self) -> &[u8]
        ensures { result.now ≡ data_of self.now }
    {
        match self {
            Data::Short(bytes) => bytes.as_slice(),
            Data::Long(bytes) => bytes.as_slice(),
            Data::Spare(room) => room.bytes(),
        }
    }
}

/// Sets room aside for the data of so many packets or items, before it is known how much data they
/// will have.
///
/// # Errors
/// No memory for that many rooms.
// Most calls find the rooms there, so that test alone is inlined.
#[inline(always)]
pub fn set_aside(
    alloc: Global,
    spares: &mut Vec<Box<Item, Global>>,
    count: usize,
) -> Result<(), AllocError>
    // So many rooms are set aside, where there is memory.
    ensures { OnOk result (count ≤ vec_len spares.new) }
{
    if spares.len() >= count {
        return Ok(());
    }
    set_more_aside(alloc, spares, count)
}

/// Sets aside the rooms that are missing.
#[inline(never)]
fn set_more_aside(
    alloc: Global,
    spares: &mut Vec<Box<Item, Global>>,
    count: usize,
) -> Result<(), AllocError>
    ensures { OnOk result (count ≤ vec_len spares.new) }
{
    for place in spares.len()..count {
        let room = Box::new(alloc, Item::new(Opcode(0), &[]))?;
        spares.push(room)?;
    }
    Ok(())
}

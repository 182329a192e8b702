//! What happens in the laboratory, and what comes of it.
ghost use Rattle.std.specs.Prelude.{◌≡◌};
ghost use Rattle.std.specs.Option.{option_copied};
ghost use Rattle.chaos_lab.specs.Told.{given_by, in_full};

use crate::kept_item::KeptItem;
use crate::side::Side;
use chaos_conn::{Delivered, Disposition, ReadDone, ReadEnd, Ticked};
use chaos_packet::{Opcode, Packet, PktNum};

/// What may happen: a call at one end, or the delivery of a copy. A copy that is never delivered is
/// lost.
#[derive(Clone, Copy, Debug)]
pub enum Event<'a> {
    /// The user at a side writes an item.
    Write(Side, Opcode, &'a [u8]),
    /// The user at a side reads.
    Read(Side),
    /// The user at a side announces this window.
    Announce(Side, u16),
    /// A side's clock shows this moment, in milliseconds.
    Tick(Side, u64),
    /// The user at a side closes its end, with a text.
    Close(Side, &'a [u8]),
    /// The user at B accepts the request, and numbers what it writes from this on.
    Accept(PktNum),
    /// The copy of this number comes to the end that it was sent to. It stays, and may be delivered
    /// again.
    Deliver(usize),
}

/// What an event did that was taken, with the item or the packet that it hands out.
#[derive(Debug, PartialEq, Eq, Drop)]
pub enum Stepped {
    /// The item was written with this number.
    Wrote(PktNum),
    Read(ReadEnd),
    /// This window was announced.
    Announced(u16),
    Ticked(Ticked),
    Closed,
    /// The request was accepted, by an OPN with this number.
    Accepted(PktNum),
    /// B took the request.
    Requested,
    Delivered(Delivered),
}

/// What an event did, without the item or the packet that it hands out; these lie in the
/// laboratory.
#[derive(Clone, Copy, Debug, PartialEq, Eq)]
pub enum StepDone {
    /// The item was written with this number.
    Wrote(PktNum),
    /// An item that was read is the last of those that the end's user has read.
    Read(ReadDone),
    /// This window was announced.
    Announced(u16),
    Ticked(Ticked),
    Closed,
    /// The request was accepted, by an OPN with this number.
    Accepted(PktNum),
    /// B took the request.
    Requested,
    /// This became of the packet, which is the copy's.
    Delivered(Disposition),
}

impl StepDone {
    /// The answer in full, of an event that delivered this packet or after which an end's user has
    /// read these items.
    pub(crate) fn in_full(self, packet: &Packet, items: &[KeptItem]) -> Stepped
        ensures { result ≡ in_full packet.now items.now self }
    {
        match self {
            StepDone::Wrote(number) => Stepped::Wrote(number),
            StepDone::Read(done) => Stepped::Read(given_by(done, items.last())),
            StepDone::Announced(window) => Stepped::Announced(window),
            StepDone::Ticked(ticked) => Stepped::Ticked(ticked),
            StepDone::Closed => Stepped::Closed,
            StepDone::Accepted(start) => Stepped::Accepted(start),
            StepDone::Requested => Stepped::Requested,
            StepDone::Delivered(disposition) => {
                Stepped::Delivered(disposition.with_packet(packet))
            }
        }
    }
}

/// What a read gave that came to this, where this item is the last that was read.
fn given_by(done: ReadDone, item: Option<&KeptItem>) -> ReadEnd
    ensures { result ≡ given_by done (option_copied item.entry) }
{
    match (done, item) {
        (ReadDone::Done, Some(item)) => ReadEnd::Item(item.item()),
        (ReadDone::Done | ReadDone::Nothing, _) => ReadEnd::Nothing,
        (ReadDone::Ended(state), _) => ReadEnd::Ended(state),
    }
}

//! The table: which slot an index names, and looks at the slot at a place.
ghost use Rattle.std.specs.Prelude.{◌≡◌, ◌<◌, ◌≤◌, length, slice_get, position, IfOk, IfErr, IfSome, IfNone, Some, None, true, false};
ghost use Rattle.std.specs.Borrow.{sem};
ghost use Rattle.chaos_host.specs.Lending.{LendsNamed};
ghost use Rattle.chaos_host.specs.declared.fault.CallFault.{CallFault};
ghost use Rattle.chaos_host.specs.declared.slot.Slot.{Slot};
ghost use Rattle.chaos_host.specs.Slot.{index_of, place_of, named_slot, free_place, is_free, took_from, is_used_at};

use crate::fault::CallFault;
use crate::index::ConnId;
use crate::limits::MAX_CONNS;
use crate::slot::Slot;
use chaos_packet::Packet;

/// The slot in use whose connection has an own index: one look, and no walk. It is
/// `NoSuchConnection` where none has it.
#[tactic(auto, using(std::proofs::lemmas::Option::gets))]
pub fn named(slots: &Vec<Slot>, id: ConnId) -> Result<&Slot, CallFault>
    ensures found { IfOk result (λ slot. named_slot slots.now.items id ≡ Some slot.now) }
    ensures none { IfErr result
        (λ why. (why ≡ CallFault.NoSuchConnection) × (named_slot slots.now.items id ≡ None)) }
{
    let place = named_place(slots, id).ok_or(CallFault::NoSuchConnection)?;
    Ok(&slots[place])
}

/// The place of the slot in use whose connection has an own index: one look, and no walk.
#[tactic(auto, using(std::proofs::lemmas::Option::gets))]
pub fn named_place(slots: &Vec<Slot>, id: ConnId) -> Option<usize>
    ensures found { IfSome result
        (λ i. (i ≡ place_of id) × (i < length slots.now.items)
        × (named_slot slots.now.items id ≡ slice_get slots.now.items i)) }
    ensures none { IfNone result (named_slot slots.now.items id ≡ None) }
{
    let place = id.place();
    let slot = slots.get(place)?;
    if !slot.is_free() && slot.index_at(place) == id {
        Some(place)
    } else {
        None
    }
}

/// The place of the lowest free slot.
///
/// A walk over the slots.
pub fn free_place(slots: &Vec<Slot>) -> Option<usize>
    ensures place { result ≡ free_place slots.now.items }
    ensures vacant { IfSome result
        (λ i. (i < length slots.now.items) × (is_used_at slots.now.items i ≡ false)) }
{
    slots.iter().position(|slot| slot.is_free())
}

/// The place of the connection that took its request from where the packet comes from.
///
/// A walk over the slots.
pub fn taker(slots: &Vec<Slot>, packet: &Packet) -> Option<usize>
    ensures place { result ≡ position (took_from packet.now) slots.now.items }
    ensures within { IfSome result (λ i. i < length slots.now.items) }
{
    slots.iter().position(|slot| slot.took_from(packet))
}

/// Whether there is a slot at a place, and it is in use.
#[tactic(auto, using(std::proofs::lemmas::Option::gets))]
pub fn is_used_at(slots: &Vec<Slot>, place: usize) -> bool
    ensures used { result ≡ is_used_at slots.now.items place }
    ensures within { result ≡ true → place < length slots.now.items }
{
    match slots.get(place) {
        Some(slot) => !slot.is_free(),
        None => false,
    }
}

/// The own index of the connection in the slot at a place.
#[tactic(auto, using(std::proofs::lemmas::Option::gets))]
pub fn index_at(slots: &Vec<Slot>, place: usize) -> ConnId
    requires within { place < length slots.now.items }
    requires few { length slots.now.items ≤ MAX_CONNS }
    ensures { (slot : Slot) → slice_get slots.now.items place ≡ Some slot →
        result ≡ index_of place slot }
{
    slots[place].index_at(place)
}

/// The same slot, lent to be changed.
#[tactic(auto, using(std::proofs::lemmas::Option::gets))]
pub fn named_mut(slots: &mut Vec<Slot>, id: ConnId) -> Result<&mut Slot, CallFault>
    ensures* writes_back { sem 𝓛 (LendsNamed slots.entry id result) }
    ensures found { IfOk result (λ slot. named_slot slots.old.items id ≡ Some slot.now) }
    ensures none { IfErr result
        (λ why. (why ≡ CallFault.NoSuchConnection) × (named_slot slots.old.items id ≡ None)) }
{
    let place = named_place(slots, id).ok_or(CallFault::NoSuchConnection)?;
    Ok(&mut slots[place])
}

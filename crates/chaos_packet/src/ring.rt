//! A ring of places that are made once, for queues whose values move no other.
ghost use Rattle.std.specs.Prelude.{◌≡◌, ◌+◌, ◌<◌, ◌≤◌, [], length, slice_get, is_some, if◌then◌else◌, IfOk, OnOk};
ghost use Rattle.std.specs.Option.{option_copied};
ghost use Rattle.chaos_packet.specs.Ring.{empty_ring, has_spare, without_oldest_item, with_item, with_place_out};

use circular_buffer::HeapCircularBuffer;
use std::alloc::{AllocError, Global};
use std::marker::Model;

/// A place in which a value lies. Moving the place doesn't move the value. A contract sees the
/// value.
#[derive(Drop)]
pub struct Place<T> {
    /// The holder of the place may write another value over this one.
    pub value: Box<T, Global>,
}

impl<T> Model for Place<T> {
    ghost Value = { T };

    ghost coded = { T.code };

    ghost view = { λ place. place.value.value };
}

/// A queue of values, with room for a fixed number of values. A contract sees the values, the
/// oldest first, that number, and how many places are taken out.
///
/// `new` takes the memory for all of them, and no later call takes any. Each value lies in a place
/// of its own, which stays when the value goes. No call moves a value. To add a value, take a spare
/// place out, write the value there, and push the place.
#[derive(Drop)]
pub struct Ring<T> {
    /// The places of the values, the oldest first.
    used: HeapCircularBuffer<Place<T>>,
    /// The spare places, with whatever lay there last.
    spare: HeapCircularBuffer<Place<T>>,
}

impl<T> Model for Ring<T> {
    ghost use Rattle.std.specs.Prelude.{◌≡◌, ◌+◌, ◌-◌, ◌≤◌, length};
    ghost use Rattle.chaos_packet.specs.Ring.{RingView};

    ghost Value = { RingView T };

    ghost view = { λ ring. record {
      items = ring.used.items;
      cap = ring.used.capacity;
      taken = ring.used.capacity - (length ring.used.items + length ring.spare.items);
    } };

    ghost invariant = { λ ring.
        (length ring.used.items + length ring.spare.items ≤ ring.used.capacity)
        × (ring.spare.capacity ≡ ring.used.capacity) };
}

impl<T> Ring<T> {
    /// How many values lie in the ring.
    pub fn len(&self) -> usize
        // Only values count, and not the places that are taken out.
        ensures value { result ≡ length self.now.items }
        // The values and the places taken out are no more than the cap.
        ensures sound { result + self.now.taken ≤ self.now.cap }
    {
        self.used.len()
    }

    /// How many values the ring has room for.
    pub fn cap(&self) -> usize
        // There may be this many values.
        ensures { result ≡ self.now.cap }
    {
        self.used.capacity()
    }

    /// Lends a value by its index, the oldest at 0.
    pub fn get(&self, index: usize) -> Option<&T>
        // The value at the index is lent where it lies, where there is one.
        ensures { option_copied result ≡ slice_get self.now.items index }
    {
        let place = self.used.get(index)?;
        Some(&*place.value)
    }

    /// Takes a spare place out. What lies there means nothing.
    pub fn take_spare(&mut self) -> Option<Place<T>>
        // A place comes out exactly if one is neither in use nor taken out already.
        ensures some { is_some result ≡ has_spare self.old }
        // The values stay, and the place counts as taken out.
        ensures ring { self.new ≡ (if is_some result then with_place_out self.old else self.old) }
    {
        self.spare.pop_back()
    }
}

impl<T: Drop> Ring<T> {
    /// Puts back a place that was taken out.
    pub fn push(&mut self, place: Place<T>)
        requires { 0 < self.old.taken }
        // The place goes behind the others, with the value that lies there.
        ensures { self.new ≡ with_item self.old place }
    {
        let _none = self.used.push_back(place);
    }

    /// Drops the oldest value where it lies. Its place becomes spare.
    pub fn drop_front(&mut self)
        // The oldest value is dropped, the others stay in order, and no place is lost.
        ensures { self.new ≡ without_oldest_item self.old }
    {
        if let Some(place) = self.used.pop_front() {
            let _none = self.spare.push_back(place);
        }
    }
}

impl<T: Default + Drop> Ring<T> {
    /// A ring with a place for each of `cap` values.
    pub fn new(alloc: Global, cap: usize) -> Result<Self, AllocError>
        // A new ring has no values, room for `cap` values, and no place taken out.
        ensures { IfOk result (λ ring. ring ≡ empty_ring cap) }
    {
        let used = HeapCircularBuffer::with_capacity(alloc, cap)?;
        let mut spare = HeapCircularBuffer::with_capacity(alloc, cap)?;
        fill_up(alloc, &mut spare, cap)?;
        Ok(Ring { used, spare })
    }
}

/// Fills an empty buffer with places.
fn fill_up<T: Default + Drop>(
    alloc: Global,
    places: &mut HeapCircularBuffer<Place<T>>,
    count: usize,
) -> Result<(), AllocError>
    requires room { places.old.capacity ≡ count }
    requires empty { places.old.items ≡ [] }
    ensures count { OnOk result (length places.new.items ≡ count) }
    ensures capacity { places.new.capacity ≡ count }
{
    for i in 0..count {
        let value = Box::new(alloc, T::default())?;
        let _none = places.push_back(Place { value });
    }
    Ok(())
}

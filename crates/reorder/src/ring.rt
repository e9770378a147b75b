//! A ring of places, of which those that no number has reached yet are not touched.
ghost use Rattle.std.specs.Prelude.{◌≡◌, ℕ, ◌+◌, ◌-◌, ◌<◌, ◌≤◌, ◌++◌, length, slice_set};
ghost use Rattle.std.specs.Prelude.{replicate, None, Some, IfOk, OnOk, IfErr, IsSome};
ghost use Rattle.std.specs.Option.{option_copied};
ghost use Rattle.circular_buffer.specs.Buffer.{buffer};
ghost use Rattle.reorder.specs.Limits.{width_max};
ghost use Rattle.reorder.specs.Inside.Places.{item_at};
ghost use Rattle.reorder.specs.Inside.Ring.{place_from, turned, IsEmptyFront};

use circular_buffer::HeapCircularBuffer;
use std::alloc::{AllocError, Global};
use std::marker::Model;

/// As many places as a window is wide, each with an item or empty, from the first one on and round.
pub struct Ring<T> {
    /// Where the first place lies, counted from the beginning of the memory.
    first: usize,
    /// The places from the beginning of the memory up to the last that was reached. Those behind
    /// them are empty, and not written yet. No place is ever taken out, so that none moves.
    reached: HeapCircularBuffer<Option<T>>,
}

impl<T> Model for Ring<T> {
    ghost use Rattle.std.specs.Prelude.{List, Option};
    ghost use Rattle.std.specs.Coded.{coded_list, coded_option};
    ghost use Rattle.reorder.specs.Inside.Ring.{from_first, IsRing};

    ghost Value = { List (Option T) };

    ghost coded = { coded_list (coded_option T.code) };

    ghost view = { λ r. from_first r.reached.capacity r.first r.reached.items };

    ghost invariant = { λ r. IsRing r.first r.reached };
}

impl<T> Ring<T> {
    /// So many empty places, 1 to 4096. All memory that they will use is reserved here, and none
    /// of it is written. `Err` comes only where memory ran out.
    pub fn new(alloc: Global, width: u16) -> Result<Ring<T>, AllocError>
        requires positive { 1 ≤ width }
        requires in_range { width ≤ width_max }
        ensures { IfOk result (λ ring. ring ≡ replicate width None) }
    {
        let reached = HeapCircularBuffer::with_capacity(alloc, usize::from(width))?;
        Ok(Ring { first: 0, reached })
    }

    /// How many places there are.
    pub fn width(&self) -> usize
        ensures { result ≡ length self.now }
    {
        self.reached.capacity()
    }

    /// The item at the place so far from the first one, if there is one.
    pub fn get(&self, offset: usize) -> Option<&T>
        requires { offset < length self.now }
        ensures { option_copied result ≡ item_at self.now offset }
    {
        let place = place_from(self.reached.capacity(), self.first, offset);
        self.reached.get(place)?.as_ref()
    }

    /// Puts an item at the place so far from the first one, or hands it back if one is there.
    pub fn put(&mut self, offset: usize, item: T) -> Result<(), T>
        requires { offset < length self.old }
        ensures free { OnOk result (item_at self.old offset ≡ None) }
        ensures put { OnOk result (self.new ≡ slice_set self.old offset (Some item)) }
        ensures taken { IfErr result (λ _. IsSome (item_at self.old offset)) }
        ensures back { IfErr result (λ back. (back ≡ item) × (self.new ≡ self.old)) }
    {
        let place = place_from(self.reached.capacity(), self.first, offset);
        reach(&mut self.reached, place + 1);
        let Some(place) = self.reached.get_mut(place) else {
            unreachable!()
        };
        if place.is_some() {
            return Err(item);
        }
        match place.replace(item) {
            None => Ok(()),
            Some(_replaced) => unreachable!(),
        }
    }

    /// Takes out the item at the first place, if there is one.
    pub fn take_first(&mut self) -> Option<T>
        ensures item { result ≡ item_at self.old 0 }
        ensures after { self.new ≡ slice_set self.old 0 None }
    {
        self.reached.get_mut(self.first)?.take()
    }

    /// Turns the ring so that its first places, so many, come after the others. No place moves.
    pub fn turn(&mut self, count: usize)
        requires { count ≤ length self.old }
        ensures { self.new ≡ turned count self.old }
    {
        self.first = place_from(self.reached.capacity(), self.first, count);
    }

    /// Begins at the beginning of the memory again, which may be done where all places are empty:
    /// then places that were reached are used again before any other. So items that come in their
    /// order stay in the processor's caches, whatever the width.
    pub fn begin_anew(&mut self)
        requires { (k : ℕ) → item_at self.old k ≡ None }
        ensures { self.new ≡ self.old }
    {
        self.first = 0;
    }

    /// How many places at the front are empty, of so many at most: as many as come before the
    /// first that holds something.
    pub fn empty_before_held(&self, most: usize) -> usize
        ensures { IsEmptyFront self.now most result }
    {
        let count = self.width().min(most);
        for offset in 0..count {
            if self.get(offset).is_some() {
                return offset;
            }
        }
        count
    }
}

impl<T: Drop> Drop for Ring<T> {
    /// Drops the items in the order of their places: first those that lie from the first one on.
    fn drop(self) {
        let Ring { first, mut reached } = self;
        for index in first..reached.len() {
            if let Some(place) = reached.get_mut(index) {
                drop(place.take());
            }
        }
    }
}

/// Where the place so far from the first one lies, among so many of which the first lies there.
fn place_from(width: usize, first: usize, offset: usize) -> usize
    requires width_in_range { width ≤ width_max }
    requires first_within { first < width }
    requires offset_in_range { offset ≤ width }
    ensures { result ≡ place_from width first offset }
{
    let place = first + offset;
    if place < width { place } else { place - width }
}

/// Reaches so many places: those that were not reached yet are empty.
fn reach<T>(places: &mut HeapCircularBuffer<Option<T>>, count: usize)
    requires { count ≤ places.old.capacity }
    ensures { places.new ≡ buffer (places.old.items
        ++ replicate (count - length places.old.items) None) places.old.capacity }
{
    for _reached in 0..count.saturating_sub(places.len()) {
        match places.try_push_back(None) {
            Ok(()) => {}
            Err(_place) => unreachable!(),
        }
    }
}

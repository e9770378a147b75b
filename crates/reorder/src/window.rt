//! The resequencing window, over a ring of places: one for each number that may be held.
ghost use Rattle.std.specs.Prelude.{◌≡◌, ℕ, ◌<◌, ◌≤◌, IfOk};
ghost use Rattle.std.specs.Option.{option_copied};
ghost use Rattle.std.specs.FinMap as map;
ghost use Rattle.reorder.specs.Limits.{modulus, width_max};
ghost use Rattle.reorder.specs.Number.{number_ahead};
ghost use Rattle.reorder.specs.View.{IsHeld, IsLawful, held_at};
ghost use Rattle.reorder.specs.View.{empty_window, moved_on_by};
ghost use Rattle.reorder.specs.Verdicts.{IsVerdict, after_offer, after_take_next};
ghost use Rattle.reorder.specs.Verdicts.{IsDeclared, after_declare, declared_count, skipped_count};

use crate::number::offset;
use crate::ring::Ring;
use crate::verdict::{Declared, Verdict};
use crate::{MODULUS, NUMBERS_AHEAD};
use std::alloc::{AllocError, Global};
use std::marker::Model;

/// Holds the items that came ahead of their turn, and gives out the one whose number is expected.
///
/// The offset of a number is how far it lies ahead of the expected number, going up and round:
/// `(number - expected) mod 8192`. A number with an offset below 4096 lies ahead, offset 0 being
/// the expected number itself; any other lies behind. A window of a width from 1 to 4096 holds
/// items whose offset is below the width (this project's profile; the numbers are the segment
/// sequence numbers of CM-SP-MULPIv3.0).
#[derive(Drop)]
pub struct Window<T> {
    expected: u16,
    held: usize,
    /// The places of the expected number and of those after it, in order, as many as the width.
    places: Ring<T>,
}

impl<T> Model for Window<T> {
    ghost use Rattle.reorder.specs.View.{WindowView};
    ghost use Rattle.reorder.specs.Inside.Coding.{view_code};
    ghost use Rattle.reorder.specs.Inside.Places.{seen, IsKept};

    ghost Value = { WindowView T };

    ghost coded = { view_code T.code };

    ghost view = { λ w. seen w.expected w.places };

    ghost invariant = { λ w. IsKept w.expected w.held w.places };
}

impl<T> Window<T> {
    /// A window that holds nothing and waits for the number `first`, 0 to 8191. Its `width` is 1 to
    /// 4096. All memory that it will use is reserved here, and none of it is written before numbers
    /// come. `Err` comes only where memory ran out.
    pub fn new(alloc: Global, first: u16, width: u16) -> Result<Window<T>, AllocError>
        requires first_in_range { first < modulus }
        requires width_positive { 1 ≤ width }
        requires width_in_range { width ≤ width_max }
        ensures empty { IfOk result (λ window. window ≡ empty_window first width) }
        ensures lawful { IfOk result IsLawful }
    {
        let places = Ring::new(alloc, width)?;
        Ok(Window {
            expected: first,
            held: 0,
            places,
        })
    }

    /// Takes the item in if its number, 0 to 8191, is less than the width ahead and is not held
    /// yet. Otherwise it answers, looked for in this order, `Late`, `Beyond` or `Repeat`. Only
    /// `Kept` changes anything.
    #[inline(always)]
    pub fn offer(&mut self, number: u16, item: T) -> Verdict<T>
        requires { number < modulus }
        ensures verdict { IsVerdict self.old number item result }
        ensures after { self.new ≡ after_offer self.old number item result }
        ensures lawful { IsLawful self.new }
    {
        let offset = offset(self.expected, number);
        if offset >= NUMBERS_AHEAD {
            return Verdict::Late(item);
        }
        let place = usize::from(offset);
        if place >= self.places.width() {
            return Verdict::Beyond(item);
        }
        match self.places.put(place, item) {
            Err(item) => Verdict::Repeat(item),
            Ok(()) => {
                self.held += 1;
                Verdict::Kept
            }
        }
    }

    /// The item that is held under the expected number, if there is one.
    pub fn next(&self) -> Option<&T>
        ensures item { option_copied result ≡ held_at self.now self.now.expected }
        ensures lawful { IsLawful self.now }
    {
        self.places.get(0)
    }

    /// Takes out the item that is held under the expected number, and then expects the next number.
    /// If there is none it answers `None` and changes nothing.
    pub fn take_next(&mut self) -> Option<T>
        ensures item { result ≡ held_at self.old self.old.expected }
        ensures after { self.new ≡ after_take_next self.old result }
        ensures lawful { IsLawful self.new }
    {
        let item = self.places.take_first()?;
        self.held -= 1;
        self.pass_numbers(1);
        Some(item)
    }

    /// Gives the expected number up as lost, if it is not held and something else is, and then
    /// expects the next number. Otherwise it reports why not, and changes nothing. When to declare
    /// a number lost is for the caller to decide.
    pub fn declare(&mut self) -> Declared
        ensures answer { IsDeclared self.old result }
        ensures after { self.new ≡ after_declare self.old result }
        ensures lawful { IsLawful self.new }
    {
        if self.next().is_some() {
            return Declared::NextIsHere;
        }
        if self.held == 0 {
            return Declared::NothingHeld;
        }
        let lost = self.expected;
        self.pass_numbers(1);
        Declared::Lost(lost)
    }

    /// Gives up as lost, one after another, the expected number and those after it, up to but not
    /// including `number`, 0 to 8191, and only as far as [`Window::declare`] would. It answers how
    /// many it gave up: 0 if `number` is the expected one or lies behind, or if nothing is held.
    pub fn declare_to(&mut self, number: u16) -> u16
        requires { number < modulus }
        ensures count { result ≡ declared_count self.old number }
        ensures after { self.new ≡ moved_on_by self.old result }
        ensures lawful { IsLawful self.new }
    {
        if self.held() > 0 {
            self.skip_to(number)
        } else {
            0
        }
    }

    /// Gives up as lost, one after another, the expected number and those after it, whether or not
    /// anything is held, until the next item is held or `number`, 0 to 8191, is expected. It
    /// answers how many it gave up: 0 if `number` is the expected one or lies behind.
    pub fn skip_to(&mut self, number: u16) -> u16
        requires { number < modulus }
        ensures count { result ≡ skipped_count self.old number }
        ensures after { self.new ≡ moved_on_by self.old result }
        ensures lawful { IsLawful self.new }
    {
        let distance = offset(self.expected, number);
        if distance >= NUMBERS_AHEAD {
            return 0;
        }
        if self.held() == 0 {
            // All places are empty, so that the first may be any number's.
            self.expected = number;
            return distance;
        }
        let count = self.open_numbers(distance);
        self.pass_numbers(count);
        count
    }

    /// The number of the next item to be given out, 0 to 8191.
    pub fn expected(&self) -> u16
        ensures number { result ≡ self.now.expected }
        ensures lawful { IsLawful self.now }
    {
        self.expected
    }

    /// How many items are held.
    pub fn held(&self) -> usize
        ensures count { result ≡ map.len self.now.held }
        ensures lawful { IsLawful self.now }
    {
        self.held
    }

    /// How many numbers from the expected one on aren't held, where something is: as many as come
    /// before the nearest that is held, or `distance`, below 4096, if those are fewer.
    fn open_numbers(&self, distance: u16) -> u16
        requires some_held { 0 < map.len self.now.held }
        ensures at_most { result ≤ distance }
        ensures none_held { (k : ℕ) → k < result
            → ¬ (IsHeld self.now (number_ahead self.now.expected k)) }
        ensures next_is_held { result < distance
            → IsHeld self.now (number_ahead self.now.expected result) }
        ensures within { result < self.now.width }
    {
        self.places.empty_before_held(usize::from(distance)) as u16
    }

    /// Expects the number so many after the expected one. None of those that it passes is held, and
    /// they are no more than the window is wide.
    fn pass_numbers(&mut self, count: u16)
        requires none_held { (k : ℕ) → k < count
            → ¬ (IsHeld self.old (number_ahead self.old.expected k)) }
        requires within { count ≤ self.old.width }
        ensures after { self.new ≡ moved_on_by self.old count }
        ensures lawful { IsLawful self.new }
    {
        if self.held > 0 {
            self.places.turn(usize::from(count));
        } else {
            self.places.begin_anew();
        }
        self.expected = (self.expected + count) % MODULUS;
    }
}

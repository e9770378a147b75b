//! The numbers of the bursts that wait, of each channel in order.
ghost use Rattle.std.specs.Prelude.{◌≡◌, ◌≢◌, ◌<◌, ◌∷◌, ℕ, All, IfSome, IfNone, OnOk, OnErr};
ghost use Rattle.std.specs.Prelude.{IsPermutation, [], length, is_some, nat_lt, get_or};
ghost use Rattle.std.specs.List.Sorted.{IsNonDecreasing};
ghost use Rattle.capture_rules.specs.Inside.Round.{ComesFirst};

use crate::queue::take_at;
use std::alloc::{AllocError, Global};
use std::collections::VecDeque;

/// The numbers of the bursts that wait, of each channel in order, a number as often as bursts have
/// it. There is a queue for each channel up to the greatest one that was asked for.
#[derive(Drop)]
pub(crate) struct WaitingNumbers {
    channels: Vec<VecDeque<u16>>,
    ghost ordered: { All (λ queue. IsNonDecreasing queue.items) channels.items },
}

impl WaitingNumbers {
    ghost use Rattle.capture_rules.specs.Inside.Numbers.{numbers_on, count_among};

    /// None waits.
    pub(crate) fn new(alloc: Global) -> WaitingNumbers
        ensures { (channel : ℕ) → numbers_on result channel ≡ [] }
    {
        WaitingNumbers {
            channels: Vec::new(alloc),
        }
    }

    /// One more waits.
    pub(crate) fn insert(&mut self, channel: usize, number: u16) -> Result<(), AllocError>
        ensures inserted { OnOk result (IsPermutation (number ∷ numbers_on self.old channel)
            (numbers_on self.new channel)) }
        ensures others { (other : ℕ) → other ≢ channel
            → numbers_on self.new other ≡ numbers_on self.old other }
        ensures unchanged { OnErr result
            (numbers_on self.new channel ≡ numbers_on self.old channel) }
    {
        self.open(channel)?;
        insert_in_order(&mut self.channels[channel], number)
    }

    /// Takes out the number of a channel that comes first, going up from `low` and round.
    pub(crate) fn take_first_from(&mut self, channel: usize, low: u16) -> Option<u16>
        ensures some { is_some result ≡ nat_lt 0 (length (numbers_on self.old channel)) }
        ensures first { IfSome result
            (λ number. All (ComesFirst low number) (numbers_on self.old channel)) }
        ensures taken { IfSome result (λ number. IsPermutation (numbers_on self.old channel)
            (number ∷ numbers_on self.new channel)) }
        ensures others { (other : ℕ) → other ≢ channel
            → numbers_on self.new other ≡ numbers_on self.old other }
    {
        let numbers = self.channels.get_mut(channel)?;
        take_first(numbers, low)
    }

    /// There is a queue for this channel.
    fn open(&mut self, channel: usize) -> Result<(), AllocError>
        ensures opened { OnOk result (channel < length self.new.channels.items) }
        ensures kept { (other : ℕ) → numbers_on self.new other ≡ numbers_on self.old other }
    {
        let alloc = *self.channels.allocator();
        while self.channels.len() <= channel {
            self.channels.push(VecDeque::new(alloc))?;
        }
        Ok(())
    }
}

/// Inserts a number behind those that aren't greater.
fn insert_in_order(numbers: &mut VecDeque<u16>, number: u16) -> Result<(), AllocError>
    requires { IsNonDecreasing numbers.old.items }
    ensures inserted { OnOk result (IsPermutation (number ∷ numbers.old.items) numbers.new.items) }
    ensures ordered { IsNonDecreasing numbers.new.items }
    ensures unchanged { OnErr result (numbers.new.items ≡ numbers.old.items) }
{
    match numbers.back() {
        Some(last) if *last > number => {
            let at = numbers.partition_point(|other| *other <= number);
            numbers.insert(at, number)?;
        }
        _ => numbers.push_back(number)?,
    }
    Ok(())
}

/// Takes out the number that comes first, going up from `low` and round.
fn take_first(numbers: &mut VecDeque<u16>, low: u16) -> Option<u16>
    requires { IsNonDecreasing numbers.old.items }
    ensures some { is_some result ≡ nat_lt 0 (length numbers.old.items) }
    ensures first { IfSome result (λ number. All (ComesFirst low number) numbers.old.items) }
    ensures taken { IfSome result
        (λ number. IsPermutation numbers.old.items (number ∷ numbers.new.items)) }
    ensures ordered { IsNonDecreasing numbers.new.items }
    ensures unchanged { IfNone result (numbers.new.items ≡ numbers.old.items) }
{
    let at = first_from(numbers, low);
    take_at(numbers, at)
}

/// Where the number stands that comes first, going up from `low` and round, if there is one.
fn first_from(numbers: &VecDeque<u16>, low: u16) -> usize
    requires { IsNonDecreasing numbers.now.items }
    ensures within { 0 < length numbers.now.items → result < length numbers.now.items }
    ensures first { (d : ℕ) → All (ComesFirst low (get_or numbers.now.items result d))
        numbers.now.items }
{
    match (numbers.front(), numbers.back()) {
        (Some(first), Some(last)) if *first < low && *last >= low => {
            numbers.partition_point(|other| *other < low)
        }
        _ => 0,
    }
}

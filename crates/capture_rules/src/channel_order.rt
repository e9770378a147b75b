//! The order of the bursts of one flow on each of its channels.
ghost use Rattle.std.specs.Prelude.{◌≡◌, ◌<◌, ◌≤◌, ◌++◌, ◌∷◌, [], IfOk, IfErr, IfSome, IfNone};
ghost use Rattle.std.specs.Prelude.{OnOk, OnErr, length, is_some, nat_lt};
ghost use Rattle.capture_rules.specs.Clock.{is_set_back, clock_at};
ghost use Rattle.capture_rules.specs.Order.{most_waiting, nothing_waits, is_due, IsNext, TakesIn};
ghost use Rattle.capture_rules.specs.Inside.Numbers.{AreNumbersOf, IsFirstWith, count_waiting};

use crate::arrival::{Arrival, HandedOn, Waiting};
use crate::clock_counts::ClockCounts;
use crate::queue::take_at;
use crate::waiting_numbers::WaitingNumbers;
use reorder::{MODULUS, NUMBERS_AHEAD};
use std::alloc::{AllocError, AllocFailed, Global};
use std::collections::VecDeque;

/// So many bursts of a flow wait at most, and as many make a beginning at most.
pub const MOST_WAITING: usize = 2048;

/// Lets the bursts of one flow wait for `reorder` nanoseconds, and hands them on, on each channel
/// in the order of their numbers as far as they came within `reorder`.
///
/// It goes by a clock of the flow's own, that doesn't go back: a burst that is earlier than the one
/// before it counts as of that one's time. Only where it is earlier by more than `reorder` is the
/// clock set back to it, and all that waits is handed on first. However still the clock stands, no
/// more than [`MOST_WAITING`] bursts wait.
///
/// So a burst comes by two calls: [`ChannelOrder::next`] with its time until it gives none, and
/// [`ChannelOrder::push`].
#[derive(Drop)]
pub struct ChannelOrder<T> {
    reorder: u64,
    /// What the flow's clock says: when the last burst came.
    clock: u64,
    counts: ClockCounts,
    /// In the order in which they came.
    waiting: VecDeque<Waiting<T>>,
    numbers: WaitingNumbers,
    ghost numbered: { AreNumbersOf numbers waiting.items },
    ghost bounded: { length waiting.items ≤ most_waiting },
}

impl<T> ChannelOrder<T> {
    ghost use Rattle.capture_rules.specs.Waiting.{order_seen};

    /// Nothing waits. Bursts wait for `reorder` nanoseconds.
    pub fn new(alloc: Global, reorder: u64) -> ChannelOrder<T>
        ensures { order_seen result ≡ nothing_waits reorder }
    {
        ChannelOrder {
            reorder,
            clock: 0,
            counts: ClockCounts::none(),
            waiting: VecDeque::new(alloc),
            numbers: WaitingNumbers::new(alloc),
        }
    }

    /// Hands on the next burst, if it goes before a burst of this time is taken in: the oldest one
    /// has waited for longer than `reorder` then, or the clock is set back. In the oldest one's
    /// place and at its time goes the one of the least number (from the oldest one's, modulo 8192)
    /// of those that came on its channel. It asks for no memory.
    pub fn next(&mut self, time: u64) -> Option<HandedOn<T>>
        ensures due { is_some result ≡ is_due (order_seen self.old) time }
        ensures next { IfSome result (λ next.
            IsNext (order_seen self.old).waiting next (order_seen self.new).waiting) }
        ensures stays { order_seen self.new
            ≡ record (order_seen self.old) { waiting = (order_seen self.new).waiting } }
        ensures unchanged { IfNone result (order_seen self.new ≡ order_seen self.old) }
    {
        let oldest = self.waiting.front()?;
        let waited = self.clock.max(time).saturating_sub(oldest.came);
        if !is_set_back(self.reorder, self.clock, time) && waited <= self.reorder {
            return None;
        }
        self.next_left()
    }

    /// Hands on the next burst, as `next` does, however short it has waited: for the end, where no
    /// more bursts come.
    pub fn next_left(&mut self) -> Option<HandedOn<T>>
        ensures some { is_some result ≡ nat_lt 0 (length (order_seen self.old).waiting) }
        ensures next { IfSome result (λ next.
            IsNext (order_seen self.old).waiting next (order_seen self.new).waiting) }
        ensures stays { order_seen self.new
            ≡ record (order_seen self.old) { waiting = (order_seen self.new).waiting } }
        ensures unchanged { IfNone result (order_seen self.new ≡ order_seen self.old) }
    {
        take_next(&mut self.waiting, &mut self.numbers)
    }

    /// A burst comes, once all is handed on that goes before it. It waits; where more than
    /// [`MOST_WAITING`] would, the next is handed on. Where memory ran out the burst is given back,
    /// and all is as it was.
    pub fn push(
        &mut self,
        arrival: Arrival<T>,
    ) -> Result<Option<HandedOn<T>>, AllocFailed<Arrival<T>>>
        ensures takes_in { IfOk result (λ last.
            TakesIn (order_seen self.old) arrival last (order_seen self.new)) }
        ensures most { length (order_seen self.new).waiting ≤ most_waiting }
        ensures failed { IfErr result (λ back. back.value ≡ arrival) }
        ensures unchanged { OnErr result (order_seen self.new ≡ order_seen self.old) }
    {
        let is_set_back = is_set_back(self.reorder, self.clock, arrival.time);
        let came = clock_at(self.reorder, self.clock, arrival.time);
        let_wait(&mut self.waiting, &mut self.numbers, came, arrival)?;
        self.clock = came;
        let count = self.waiting.len();
        if count <= MOST_WAITING {
            self.counts = self.counts.after(is_set_back, false);
            return Ok(None);
        }
        self.counts = self.counts.after(is_set_back, true);
        Ok(take_next(&mut self.waiting, &mut self.numbers))
    }

    /// How often times couldn't be gone by.
    pub fn clock_counts(&self) -> ClockCounts
        ensures { result ≡ (order_seen self.now).counts }
    {
        self.counts
    }

    /// How many bursts wait.
    pub fn len(&self) -> usize
        ensures count { result ≡ length (order_seen self.now).waiting }
        ensures most { result ≤ most_waiting }
    {
        self.waiting.len()
    }
}

/// Whether the clock is set back where a burst of this time comes.
fn is_set_back(reorder: u64, clock: u64, time: u64) -> bool
    ensures { result ≡ is_set_back reorder clock time }
{
    clock.saturating_sub(time) > reorder
}

/// What the clock says once a burst of this time came.
fn clock_at(reorder: u64, clock: u64, time: u64) -> u64
    ensures { result ≡ clock_at reorder clock time }
{
    if is_set_back(reorder, clock, time) {
        time
    } else {
        clock.max(time)
    }
}

/// A burst waits from now on.
fn let_wait<T>(
    waiting: &mut VecDeque<Waiting<T>>,
    numbers: &mut WaitingNumbers,
    came: u64,
    arrival: Arrival<T>,
) -> Result<(), AllocFailed<Arrival<T>>>
    ensures waits { OnOk result (waiting.new.items
        ≡ waiting.old.items ++ record { came = came; arrival = arrival } ∷ []) }
    ensures numbered { AreNumbersOf numbers.old waiting.old.items
        → AreNumbersOf numbers.new waiting.new.items }
    ensures failed { IfErr result (λ back. back.value ≡ arrival) }
    ensures unchanged { OnErr result (waiting.new.items ≡ waiting.old.items) }
{
    if waiting.reserve(1).is_err() {
        return Err(AllocFailed { value: arrival });
    }
    match numbers.insert(arrival.channel, arrival.number) {
        Ok(()) => {
            waiting.push_back_reserved(Waiting { came, arrival });
            Ok(())
        }
        Err(AllocError) => Err(AllocFailed { value: arrival }),
    }
}

/// Takes out the burst that is handed on next, if one waits.
fn take_next<T>(
    waiting: &mut VecDeque<Waiting<T>>,
    numbers: &mut WaitingNumbers,
) -> Option<HandedOn<T>>
    requires numbered { AreNumbersOf numbers.old waiting.old.items }
    ensures some { is_some result ≡ nat_lt 0 (length waiting.old.items) }
    ensures next { IfSome result (λ next. IsNext waiting.old.items next waiting.new.items) }
    ensures unchanged { IfNone result (waiting.new.items ≡ waiting.old.items) }
    ensures numbered { AreNumbersOf numbers.new waiting.new.items }
{
    let oldest = waiting.front()?;
    let (time, channel) = (oldest.came, oldest.arrival.channel);
    let low = (oldest.arrival.number + NUMBERS_AHEAD) % MODULUS;
    let number = numbers.take_first_from(channel, low)?;
    let at = first_with(waiting, channel, number)?;
    let one = take_at(waiting, at)?;
    Some(HandedOn {
        time,
        arrival: one.arrival,
    })
}

/// Where the first burst stands that came on this channel with this number.
fn first_with<T>(waiting: &VecDeque<Waiting<T>>, channel: usize, number: u16) -> Option<usize>
    ensures first { IfSome result (IsFirstWith channel number waiting.now.items) }
    ensures none { IfNone result (count_waiting channel number waiting.now.items ≡ 0) }
{
    for at in 0..waiting.len() {
        let arrival = &waiting[at].arrival;
        if arrival.channel == channel && arrival.number == number {
            return Some(at);
        }
    }
    None
}

//! Where a flow begins, and where it begins anew.
ghost use Rattle.std.specs.Prelude.{◌≡◌, ◌<◌, [], None, IfOk, IfErr, IfSome, IfNone, OnErr, OnSome};
ghost use Rattle.std.specs.Prelude.{is_some};
ghost use Rattle.reorder.specs.Limits.{modulus};
ghost use Rattle.capture_rules.specs.Begin.{nothing_handed_on, beginning_seen, is_silent, is_over};
ghost use Rattle.capture_rules.specs.Begin.{is_beginning, is_kept, to_hand_in, after_hand_on};
ghost use Rattle.capture_rules.specs.Begin.{after_end, IsEnded, IsFirstNumber};

use crate::arrival::HandedOn;
use crate::channel_order::MOST_WAITING;
use crate::numbers::place_from;
use reorder::offset;
use std::alloc::{AllocFailed, Global};
use std::mem;

/// A beginning lasts so many nanoseconds, from the first burst in it on: 10 ms. It is over, too,
/// with its 2,048th burst, [`MOST_WAITING`].
pub const BEGINNING: u64 = 10_000_000;

/// Says of each burst of a flow that is handed on whether it is kept, since the flow is beginning,
/// or is to be handed in.
///
/// A flow begins with the first burst where its first number isn't known, and begins anew where
/// after a silence a number comes that doesn't lie ahead within the window. A silence is more than
/// `wait` nanoseconds in which nothing was handed on. It holds what is handed on within 10 ms and,
/// where [`Beginning::end_at`] is asked before each burst, no more than [`MOST_WAITING`] bursts.
#[derive(Drop)]
pub struct Beginning<T> {
    wait: u64,
    /// The first number is known.
    is_begun: bool,
    /// When the last burst was handed on.
    last: Option<u64>,
    /// What was handed on since the flow is beginning.
    kept: Vec<HandedOn<T>>,
}

/// A beginning that has ended.
#[derive(Drop)]
pub struct Begun<T> {
    /// The number at which the flow begins, 0 to 8191: the least one in it, going by that of its
    /// first burst.
    pub first: u16,
    /// Whether the flow had begun before.
    pub is_anew: bool,
    /// What was kept, in the order in which it was handed on. It is to be handed in now.
    pub kept: Vec<HandedOn<T>>,
}

impl<T> Beginning<T> {
    /// Nothing was handed on yet of a flow whose first number is known, or isn't.
    pub fn new(alloc: Global, wait: u64, is_begun: bool) -> Beginning<T>
        ensures { beginning_seen result ≡ nothing_handed_on wait is_begun }
    {
        Beginning {
            wait,
            is_begun,
            last: None,
            kept: Vec::new(alloc),
        }
    }

    /// Whether a silence is over at this time. Then all that was held for long is to be given
    /// before the number that is expected is looked at.
    pub fn is_silent(&self, time: u64) -> bool
        ensures { result ≡ is_silent (beginning_seen self.now) time }
    {
        match self.last {
            Some(last) => self.kept.is_empty() && time.saturating_sub(last) > self.wait,
            None => false,
        }
    }

    /// A burst is handed on, where the number `expected`, 0 to 8191, is expected and the window has
    /// this width. It is kept, or given back to be handed in. Where memory ran out it is given back
    /// as an error, and all is as it was.
    pub fn hand_on(
        &mut self,
        one: HandedOn<T>,
        expected: u16,
        window: u16,
    ) -> Result<Option<HandedOn<T>>, AllocFailed<HandedOn<T>>>
        requires { expected < modulus }
        ensures given { IfOk result (λ given.
            given ≡ to_hand_in (beginning_seen self.old) expected window one) }
        ensures after { IfOk result (λ _. beginning_seen self.new
            ≡ after_hand_on (beginning_seen self.old) expected window one) }
        ensures failed { IfErr result (λ back. back.value ≡ one) }
        ensures unchanged { OnErr result (beginning_seen self.new ≡ beginning_seen self.old) }
    {
        let time = one.time;
        if !self.is_kept(&one, expected, window) {
            self.last = Some(time);
            return Ok(Some(one));
        }
        self.kept.push(one)?;
        self.last = Some(time);
        Ok(None)
    }

    /// Ends the beginning, if the flow is beginning and that is over at this time.
    pub fn end_at(&mut self, alloc: Global, time: u64) -> Option<Begun<T>>
        ensures over { is_some result ≡ is_over (beginning_seen self.old).kept time }
        ensures ended { IfSome result (IsEnded (beginning_seen self.old)) }
        ensures after { OnSome result
            (beginning_seen self.new ≡ after_end (beginning_seen self.old)) }
        ensures unchanged { IfNone result (beginning_seen self.new ≡ beginning_seen self.old) }
    {
        let first = self.kept.first()?;
        if time.saturating_sub(first.time) <= BEGINNING && self.kept.len() < MOST_WAITING {
            return None;
        }
        self.end(alloc)
    }

    /// Ends the beginning, if the flow is beginning.
    pub fn end(&mut self, alloc: Global) -> Option<Begun<T>>
        ensures beginning { is_some result ≡ is_beginning (beginning_seen self.old).kept }
        ensures ended { IfSome result (IsEnded (beginning_seen self.old)) }
        ensures after { OnSome result
            (beginning_seen self.new ≡ after_end (beginning_seen self.old)) }
        ensures unchanged { IfNone result (beginning_seen self.new ≡ beginning_seen self.old) }
    {
        let first = first_number(&self.kept)?;
        let is_anew = self.is_begun;
        self.is_begun = true;
        let kept = mem::replace(&mut self.kept, Vec::new(alloc));
        Some(Begun {
            first,
            is_anew,
            kept,
        })
    }

    /// Whether a burst that is handed on is kept.
    fn is_kept(&self, one: &HandedOn<T>, expected: u16, window: u16) -> bool
        requires { expected < modulus }
        ensures { result ≡ is_kept (beginning_seen self.now) expected window one.now }
    {
        !self.kept.is_empty()
            || !self.is_begun
            || self.is_silent(one.time) && offset(expected, one.arrival.number) >= window
    }
}

/// The least number of what is kept, going by that of the first one.
fn first_number<T>(kept: &[HandedOn<T>]) -> Option<u16>
    ensures some { is_some result ≡ is_beginning kept.now }
    ensures number { IfSome result (IsFirstNumber kept.now) }
{
    let first = kept.first()?.arrival.number;
    let mut least = first;
    for one in kept {
        if place_from(first, one.arrival.number) < place_from(first, least) {
            least = one.arrival.number;
        }
    }
    Some(least)
}

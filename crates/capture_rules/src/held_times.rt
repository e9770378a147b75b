//! How long the segments of one flow are held.
ghost use Rattle.std.specs.Prelude.{◌≡◌, ◌<◌, ◌≤◌, ◌⊎◌, ◌↔◌, ◌++◌, ◌∷◌, [], true, Some, IfSome};
ghost use Rattle.std.specs.Prelude.{OnOk, OnErr};
ghost use Rattle.reorder.specs.Limits.{modulus};
ghost use Rattle.reorder.specs.Number.{offset};
ghost use Rattle.capture_rules.specs.Held.{held_by, wait_of, still_ahead, IsSkip};

use crate::held_time::HeldTime;
use reorder::{NUMBERS_AHEAD, offset};
use std::alloc::{AllocError, Global};

/// Numbers and times of what one flow has kept while something is missing before it, and the number
/// up to which the flow skips, once something has been held for longer than `wait` nanoseconds.
///
/// It holds as many as lie ahead of the expected number: at most as many as the window is wide,
/// where [`HeldTimes::pass`] is called whenever the flow has come further.
#[derive(Drop)]
pub struct HeldTimes {
    wait: u64,
    /// In the order in which they were kept.
    held: Vec<HeldTime>,
}

impl HeldTimes {
    /// Nothing is held.
    pub fn new(alloc: Global, wait: u64) -> HeldTimes
        ensures none { held_by result ≡ [] }
        ensures wait { wait_of result ≡ wait }
    {
        HeldTimes {
            wait,
            held: Vec::new(alloc),
        }
    }

    /// A segment was kept, and isn't given yet. Where memory ran out all is as it was.
    pub fn keep(&mut self, one: HeldTime) -> Result<(), AllocError>
        ensures kept { OnOk result (held_by self.new ≡ held_by self.old ++ one ∷ []) }
        ensures unchanged { OnErr result (held_by self.new ≡ held_by self.old) }
        ensures wait { wait_of self.new ≡ wait_of self.old }
    {
        self.held.push(one)?;
        Ok(())
    }

    /// The flow has come further, and expects this number, 0 to 8191: what doesn't lie ahead of it
    /// is dropped. It looks once at each that is held.
    pub fn pass(&mut self, expected: u16)
        requires { expected < modulus }
        ensures ahead { held_by self.new ≡ still_ahead expected (held_by self.old) }
        ensures wait { wait_of self.new ≡ wait_of self.old }
    {
        self.held
            .retain(|one| offset(expected, one.number) < NUMBERS_AHEAD);
    }

    /// The number to which a flow skips that expects this number, 0 to 8191: of those that have
    /// been held for longer than `wait` at this time the last one, going from the expected one on.
    /// It is none where there is none. It looks once at each that is held.
    pub fn skip_to(&self, now: u64, expected: u16) -> Option<u16>
        requires { expected < modulus }
        ensures number { IsSkip (wait_of self.now) now expected (held_by self.now) result }
        ensures in_range { IfSome result (λ number. number < modulus) }
    {
        let mut last = None;
        for one in &self.held {
            if now.saturating_sub(one.time) > self.wait {
                last = Some(later(expected, last, *one));
            }
        }
        let HeldTime { number, .. } = last?;
        Some(number)
    }

    /// The flow begins anew: nothing is held.
    pub fn clear(&mut self)
        ensures none { held_by self.new ≡ [] }
        ensures wait { wait_of self.new ≡ wait_of self.old }
    {
        self.held.clear();
    }

    /// Whether nothing is held.
    pub fn is_empty(&self) -> bool
        ensures { result ≡ true ↔ (held_by self.now ≡ []) }
    {
        self.held.is_empty()
    }
}

/// Of the last one so far, if there is one, and another one that which lies further ahead.
fn later(expected: u16, last: Option<HeldTime>, one: HeldTime) -> HeldTime
    requires { expected < modulus }
    ensures which { (result ≡ one) ⊎ (last ≡ Some result) }
    ensures one { offset expected one.number ≤ offset expected result.number }
    ensures last { IfSome last (λ last.
        offset expected last.number ≤ offset expected result.number) }
{
    match last {
        Some(last) if offset(expected, one.number) <= offset(expected, last.number) => last,
        _ => one,
    }
}

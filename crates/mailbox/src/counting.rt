//! Counting what is left in the queue.
ghost use Rattle.std.specs.Prelude.{◌≡◌, ◌<◌, ◌+◌, ◌^◌, true, slice_index};
ghost use Rattle.crossbeam_queue.specs.Passes.{view, IsPassOf};
ghost use Rattle.mailbox.specs.Inside.Counting.{Counts, AddsOne};

use crate::entry::{Entry, Stamped};
use crate::port::Queue;
use crate::rule::Takes;
use crate::view::View;
use crossbeam_queue::Pass;
use std::sync::Wait;

/// Takes all that is left, and counts the items of each sender.
pub fn count_left<T: Drop, R: Wait>(
    rt: &R,
    queue: &Queue<T>,
    pass: &mut Pass<Stamped<T>, View<T>>,
) -> [usize; 5]
    requires of_queue { IsPassOf queue.now pass.old }
    requires taker { (view pass.old).takes ≡ true }
    ensures { Counts (view pass.old) result }
{
    let mut left = [0; 5];
    for _ in rt.forever() {
        let Some(stamped) = queue.pop_as::<Takes, R>(rt, pass) else {
            return left;
        };
        count(&mut left, stamped);
    }
    unreachable!()
}

// Counts the entry if it is an item.
fn count<T: Drop>(left: &mut [usize; 5], stamped: Stamped<T>)
    requires { slice_index left.old stamped.from + 1 < 2 ^ 64 }
    ensures { AddsOne stamped left.old left.new }
{
    let Stamped { from, entry } = stamped;
    if let Entry::Item(_) = entry {
        left[usize::from(from)] += 1;
    }
}

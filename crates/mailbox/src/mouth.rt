//! The end that takes.
ghost use Rattle.std.specs.Prelude.{◌≡◌, []};
ghost use Rattle.std.specs.Arc.{arc_value};
ghost use Rattle.crossbeam_queue.specs.Passes.{view, IsPassOf};
ghost use Rattle.mailbox.specs.Inside.Ends.{ends_in};
ghost use Rattle.mailbox.specs.Inside.Delivers.{mouth, got_by};

use crate::entry::{Entry, Stamped};
use crate::port::Queue;
use crate::rule::Takes;
use crate::taken::Taken;
use crate::view::View;
use crossbeam_queue::Pass;
use std::alloc::Global;
use std::sync::{Arc, Wait};

/// The one taker of a mailbox.
#[derive(Drop)]
pub struct Mouth<T> {
    pub(crate) queue: Arc<Queue<T>, Global>,
    pub(crate) pass: Pass<Stamped<T>, View<T>>,
    pub(crate) ends: [bool; 5],
    ghost of_queue: { IsPassOf (arc_value queue) pass },
    ghost knows: { view pass ≡ mouth [] 5 (got_by (view pass)) },
    ghost marks: { ends ≡ ends_in (got_by (view pass)) },
}

impl<T: Drop> Mouth<T> {
    ghost use Rattle.std.specs.Prelude.{◌≡◌, ◌<◌, ℕ, true, IsTrue, ◌↔◌};
    ghost use Rattle.mailbox.specs.Mouths.{places, ended, mouth_capacity, TakesOne};

    /// Takes the oldest entry, which of its sender is the oldest too. `Empty` only where the
    /// mailbox was empty at one moment of the call.
    pub fn next<R: Wait>(&mut self, rt: &R) -> Taken<T>
        ensures places { places self.new ≡ places self.old }
        ensures takes { TakesOne result self.old self.new }
        ensures capacity { mouth_capacity self.new ≡ mouth_capacity self.old }
    {
        let queue: &Queue<T> = &self.queue;
        let Some(stamped) = queue.pop_as::<Takes, R>(rt, &mut self.pass) else {
            return Taken::Empty;
        };
        let Stamped { from, entry } = stamped;
        match entry {
            Entry::Item(item) => Taken::Item { from, item },
            Entry::End => {
                self.ends[usize::from(from)] = true;
                Taken::End { from }
            }
        }
    }

    /// Whether the end marks of all five senders were taken.
    pub fn all_ended(&self) -> bool
        ensures { IsTrue result ↔ ((k : ℕ) → k < 5 → ended self.now k ≡ true) }
    {
        let [e0, e1, e2, e3, e4] = self.ends;
        e0 && e1 && e2 && e3 && e4
    }
}

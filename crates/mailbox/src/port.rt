//! The end that posts.
ghost use Rattle.std.specs.Prelude.{◌≡◌, ◌<◌, true, false};
ghost use Rattle.std.specs.Arc.{arc_value};
ghost use Rattle.crossbeam_queue.specs.Passes.{view, IsPassOf};
ghost use Rattle.mailbox.specs.Entries.{own, has_end};
ghost use Rattle.mailbox.specs.Inside.Ends.{ends_once};
ghost use Rattle.mailbox.specs.Inside.Delivers.{port};

use crate::entry::{Entry, Stamped};
use crate::rule::{InOrder, Posts};
use crate::view::View;
use crossbeam_queue::{Pass, RuledArrayQueue};
use std::alloc::Global;
use std::sync::{Arc, Wait};

/// The queue of one mailbox.
pub type Queue<T> = RuledArrayQueue<Stamped<T>, View<T>, InOrder>;

/// One of the five senders of a mailbox.
#[derive(Drop)]
pub struct Port<T> {
    pub(crate) queue: Arc<Queue<T>, Global>,
    pub(crate) pass: Pass<Stamped<T>, View<T>>,
    pub(crate) from: u8,
    ghost sender: { from < 5 },
    ghost of_queue: { IsPassOf (arc_value queue) pass },
    ghost knows: { view pass ≡ port from (own (view pass)) },
    ghost unended: { has_end (own (view pass)) ≡ false },
}

/// A sender whose end mark is posted. It posts nothing more.
#[derive(Drop)]
pub struct ClosedPort<T> {
    pub(crate) queue: Arc<Queue<T>, Global>,
    pub(crate) pass: Pass<Stamped<T>, View<T>>,
    pub(crate) from: u8,
    ghost sender: { from < 5 },
    ghost of_queue: { IsPassOf (arc_value queue) pass },
    ghost knows: { view pass ≡ port from (own (view pass)) },
    ghost closed: { ends_once (own (view pass)) ≡ true },
}

/// The mailbox was full at one moment of the call. The item comes back.
#[derive(Debug, PartialEq, Eq, Drop)]
pub struct Full<T>(pub T);

impl<T: Drop> Port<T> {
    ghost use Rattle.std.specs.Prelude.{◌≡◌, [], ◌∷◌, ◌++◌, OnOk, OnErr, IfOk, IfErr};
    ghost use Rattle.mailbox.specs.Ports.{address, posted, closed_address, closed_posted};
    ghost use Rattle.mailbox.specs.Ports.{port_capacity, closed_capacity};

    /// Posts an item. [`Full`] gives it back where the mailbox held as many entries as it has room
    /// for; nothing is posted then.
    #[tactic(auto, using(crate::proofs::EntryLists::pushes))]
    pub fn post<R: Wait>(&mut self, rt: &R, item: T) -> Result<(), Full<T>>
        ensures address { address self.new ≡ address self.old }
        ensures posted { OnOk result (posted self.new ≡ posted self.old ++ item ∷ []) }
        ensures item_back { IfErr result (λ full. full.0 ≡ item) }
        ensures full { OnErr result (posted self.new ≡ posted self.old) }
        ensures capacity { port_capacity self.new ≡ port_capacity self.old }
    {
        let from = self.from;
        let stamped = Stamped {
            from,
            entry: Entry::Item(item),
        };
        let queue: &Queue<T> = &self.queue;
        let Err(back) = queue.push_as::<Posts, R>(rt, &mut self.pass, stamped) else {
            return Ok(());
        };
        let Stamped { from: _, entry } = back;
        match entry {
            Entry::Item(item) => Err(Full(item)),
            Entry::End => unreachable!(),
        }
    }

    /// Posts the end mark, which takes the room of one entry. The port comes back where the mailbox
    /// held as many entries as it has room for; nothing is posted then.
    #[tactic(auto, using(crate::proofs::EntryLists::pushes))]
    pub fn close<R: Wait>(self, rt: &R) -> Result<ClosedPort<T>, Port<T>>
        ensures closed { IfOk result (λ closed.
            (closed_address closed ≡ address self) × (closed_posted closed ≡ posted self)) }
        ensures full { IfErr result (λ port.
            (address port ≡ address self) × (posted port ≡ posted self)) }
        ensures capacity { IfOk result (λ closed. closed_capacity closed ≡ port_capacity self) }
        ensures full_capacity { IfErr result (λ port. port_capacity port ≡ port_capacity self) }
    {
        let Port {
            queue,
            mut pass,
            from,
        } = self;
        let stamped = Stamped {
            from,
            entry: Entry::End,
        };
        let shared: &Queue<T> = &queue;
        match shared.push_as::<Posts, R>(rt, &mut pass, stamped) {
            Ok(()) => Ok(ClosedPort { queue, pass, from }),
            Err(_) => Err(Port { queue, pass, from }),
        }
    }
}

//! What is left once the threads have returned.
ghost use Rattle.std.specs.Prelude.{◌≡◌, ◌<◌, ◌≤◌, ℕ, true, slice_index};
ghost use Rattle.crossbeam_queue.specs.Passes.{view, IsPassOf, IsSamePass};
ghost use Rattle.mailbox.specs.Inside.Delivers.{joined};
ghost use Rattle.mailbox.specs.Ports.{closed_posted};
ghost use Rattle.mailbox.specs.Mouths.{taken, ended, ends_taken, places};
ghost use Rattle.mailbox.specs.Settling.{closed_addresses, Leaves};

use crate::counting::count_left;
use crate::entry::Stamped;
use crate::mouth::Mouth;
use crate::port::{ClosedPort, Queue};
use crate::rule::Joins;
use crate::view::View;
use crossbeam_queue::Pass;
use std::sync::Wait;

/// The five senders of one mailbox once they are closed. Sender k is `pk`.
#[derive(Drop)]
pub struct ClosedPorts<T> {
    pub p0: ClosedPort<T>,
    pub p1: ClosedPort<T>,
    pub p2: ClosedPort<T>,
    pub p3: ClosedPort<T>,
    pub p4: ClosedPort<T>,
}

/// How many items of each sender were posted and not taken, by the sender's number. End marks are
/// not counted.
#[derive(Debug, PartialEq, Eq, Drop)]
pub struct Settled {
    pub left: [usize; 5],
}

// The pass of a port is joined to the mouth's.
fn join<T: Drop>(queue: &Queue<T>, pass: &mut Pass<Stamped<T>, View<T>>, closed: ClosedPort<T>)
    requires of_queue { IsPassOf queue.now pass.old }
    requires taker { (view pass.old).takes ≡ true }
    requires same { closed.pass.table_id ≡ pass.old.table_id }
    ensures same_pass { IsSamePass pass.old pass.new }
    ensures joined { view pass.new ≡ joined (view pass.old) (view closed.pass) }
{
    let ClosedPort {
        queue: _,
        pass: theirs,
        from: _,
    } = closed;
    queue.absorb::<Joins>(pass, theirs);
}

/// Counts of each sender the items that were posted and not taken, and drops them. Called once the
/// threads have returned; the condition is that all six came from one [`open`](crate::open), each
/// port in its own place.
pub fn settle<T: Drop, R: Wait>(rt: &R, ports: ClosedPorts<T>, mouth: Mouth<T>) -> Settled
    requires { closed_addresses ports ≡ places mouth }
    ensures p0 { Leaves (closed_posted ports.p0) (taken mouth 0) (ended mouth 0)
        (slice_index result.left 0) }
    ensures p1 { Leaves (closed_posted ports.p1) (taken mouth 1) (ended mouth 1)
        (slice_index result.left 1) }
    ensures p2 { Leaves (closed_posted ports.p2) (taken mouth 2) (ended mouth 2)
        (slice_index result.left 2) }
    ensures p3 { Leaves (closed_posted ports.p3) (taken mouth 3) (ended mouth 3)
        (slice_index result.left 3) }
    ensures p4 { Leaves (closed_posted ports.p4) (taken mouth 4) (ended mouth 4)
        (slice_index result.left 4) }
    ensures once { (k : ℕ) → k < 5 → ends_taken mouth k ≤ 1 }
{
    let Mouth {
        queue,
        mut pass,
        ends: _,
    } = mouth;
    let ClosedPorts { p0, p1, p2, p3, p4 } = ports;
    let queue: &Queue<T> = &queue;
    join(queue, &mut pass, p0);
    join(queue, &mut pass, p1);
    join(queue, &mut pass, p2);
    join(queue, &mut pass, p3);
    join(queue, &mut pass, p4);
    Settled {
        left: count_left(rt, queue, &mut pass),
    }
}

//! Five workers post a list each into a mailbox, and their caller takes what they post.
//!
//! What comes out is the five lists in some order of their items: of each sender all of its items,
//! in its order, whatever the schedule.
ghost use Rattle.std.specs.Prelude.{◌≡◌, ◌↔◌, Err, IfOk};
ghost use Rattle.uses.specs.FiveSenders.{IsMergeOf, lists_of};

use mailbox::{OpenFault, open, settle};
use std::alloc::Global;
use std::sync::Wait;
use std::thread::Threads;

mod gathered;
mod taker;
mod team;
mod worker;

pub use gathered::Gathered;
use taker::take_all;
use team::start_all;

/// What each of the five senders posts.
#[derive(Drop)]
pub struct Lists<T> {
    pub l0: Vec<T>,
    pub l1: Vec<T>,
    pub l2: Vec<T>,
    pub l3: Vec<T>,
    pub l4: Vec<T>,
}

/// Posts each list from a thread of its own into one mailbox with room for `capacity` entries, and
/// takes the items in the order in which they come. `NoCapacity`: the capacity is 0. `OutOfMemory`:
/// an allocation failed, or a thread could not be started.
pub fn gather<T, R>(
    rt: R,
    alloc: Global,
    capacity: u16,
    lists: Lists<T>,
) -> Result<Gathered<T>, OpenFault>
where
    T: Drop + Send + 'static,
    R: Threads + Wait + Copy + Send + 'static,
    ensures no_capacity { (result ≡ Err OpenFault.NoCapacity) ↔ (capacity ≡ 0) }
    ensures merge { IfOk result (λ gathered.
        IsMergeOf (lists_of lists) gathered.order.items gathered.items.items) }
{
    let (ports, mouth) = open(alloc, capacity)?;
    let (team, mouth) = start_all(&rt, ports, lists, mouth)?;
    let (mouth, gathered) = take_all(&rt, alloc, mouth);
    settle(&rt, team.join(&rt), mouth);
    let Some(gathered) = gathered else {
        return Err(OpenFault::OutOfMemory);
    };
    Ok(gathered)
}

//! The close of a receiver.
ghost use Rattle.std.specs.Prelude.{◌≡◌, ◌<◌, suc, [], IfOk, IfErr, length};
ghost use Rattle.receiver.specs.Received.{AreTalliesOf, IsBeingClosed, ClosesMore, ClosesAll};

use crate::tallied_lane::TalliedLane;
use crate::tally::LaneTally;
use bonded_flows::FlowTable;
use consumer::Consumer;
use docsis_wire::HeaderCheck;
use flow_core::FlowCounts;
use std::alloc::{AllocError, Global};

/// What a receiver answers that was closed.
#[derive(Debug, Drop)]
pub struct Closed {
    /// Of each flow what was counted since it was begun or began anew, in the order of the records.
    pub flows: Vec<FlowCounts>,
    /// Of each channel how many inputs were admitted and refused.
    pub lanes: Vec<LaneTally>,
}

/// A receiver whose close was begun, and is to be gone on with.
#[derive(Drop)]
pub struct Closing<C> {
    lanes: Vec<TalliedLane>,
    flows: FlowTable<C>,
    counts: Vec<FlowCounts>,
}

impl<C: HeaderCheck + Drop> Closing<C> {
    /// Begins a close: nothing is closed yet.
    pub(crate) fn begin(alloc: Global, lanes: Vec<TalliedLane>, flows: FlowTable<C>) -> Closing<C>
        ensures lanes { result.lanes ≡ lanes }
        ensures flows { result.flows ≡ flows }
        ensures none { result.counts.items ≡ [] }
    {
        Closing {
            lanes,
            flows,
            counts: Vec::new(alloc),
        }
    }

    /// Closes the flows that aren't closed yet, in the order of their records, and gives what each
    /// has left to give. Where an allocation failed it is to be gone on with again.
    pub fn go_on<O: Consumer>(mut self, alloc: Global, out: &mut O) -> Result<Closed, Closing<C>>
        requires closing { IsBeingClosed C.accepts self }
        ensures closes { IfOk result (λ closed.
            ClosesAll O.after C.accepts self out.old closed out.new) }
        ensures goes_on { IfErr result (λ closing.
            ClosesMore O.after C.accepts self out.old closing out.new) }
        ensures closing { IfErr result (λ closing. IsBeingClosed C.accepts closing) }
    {
        if self.close_flows(alloc, out).is_err() {
            return Err(self);
        }
        match tallies_of(alloc, &self.lanes) {
            Ok(lanes) => Ok(Closed {
                flows: self.counts,
                lanes,
            }),
            Err(_) => Err(self),
        }
    }

    /// Closes the flows that aren't closed yet.
    fn close_flows<O: Consumer>(&mut self, alloc: Global, out: &mut O) -> Result<(), AllocError>
        requires closing { IsBeingClosed C.accepts self.old }
        ensures closes { ClosesMore O.after C.accepts self.old out.old self.new out.new }
        ensures all { IfOk result (λ _.
            length self.new.counts.items ≡ length self.new.flows.slots.items) }
        ensures closing { IsBeingClosed C.accepts self.new }
    {
        for _ in self.counts.len()..self.flows.flow_count() {
            self.close_next(alloc, out)?;
        }
        Ok(())
    }

    /// Closes the next flow.
    fn close_next<O: Consumer>(&mut self, alloc: Global, out: &mut O) -> Result<(), AllocError>
        requires closing { IsBeingClosed C.accepts self.old }
        requires more { length self.old.counts.items < length self.old.flows.slots.items }
        ensures closes { ClosesMore O.after C.accepts self.old out.old self.new out.new }
        ensures one { IfOk result (λ _.
            length self.new.counts.items ≡ suc (length self.old.counts.items)) }
        ensures flows { length self.new.flows.slots.items ≡ length self.old.flows.slots.items }
        ensures closing { IsBeingClosed C.accepts self.new }
    {
        self.counts.reserve(1)?;
        let counts = self.flows.restart(alloc, self.counts.len(), 0, out)?;
        self.counts.push_reserved(counts);
        Ok(())
    }
}

/// The tallies of these lanes.
fn tallies_of(alloc: Global, lanes: &[TalliedLane]) -> Result<Vec<LaneTally>, AllocError>
    ensures count { IfOk result (λ tallies. length tallies.items ≡ length lanes.now) }
    ensures each { IfOk result (λ tallies. AreTalliesOf lanes.now tallies.items) }
{
    let mut tallies = Vec::with_capacity(alloc, lanes.len())?;
    for one in lanes {
        tallies.push(one.tally)?;
    }
    Ok(tallies)
}

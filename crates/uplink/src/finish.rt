//! What a run gave, once all threads have returned.
ghost use Rattle.std.specs.Prelude.{◌≡◌, ◌<◌, IsTrue, IfOk, IfSome, Some, length, slice_get};
ghost use Rattle.lane.specs.Limits.{channel_limit};
ghost use Rattle.uplink.specs.Inside.Running.{CanSettle, HasConcluded};
ghost use Rattle.uplink.specs.Inside.Collected.{AreFlowsOf, CanBeMade, IsMadeOf};

use crate::assembler::Assembled;
use consumer::{Collected, FrameList};
use delivery::ClosedFeeder;
use flow_core::{FlowCounts, FlowRecord};
use lane::{CHANNELS, LaneReport, Request};
use mailbox::{ClosedPort, ClosedPorts, Mouth, settle};
use receiver::{FlowOutcome, Outcome};
use std::alloc::{AllocError, Global};
use std::sync::Wait;
use workers::{Consumers, Done, Item, SourceNotes, both_done, settle_rings};

/// What all threads handed on.
#[derive(Drop)]
pub struct Ended<N> {
    pub done: Done<N>,
    /// The fifth port of the requests, which posted nothing.
    pub unused_port: ClosedPort<Request>,
    pub mouth: Mouth<Item>,
    pub feeders: Vec<ClosedFeeder>,
    /// Nothing where an allocation failed.
    pub assembled: Option<Assembled>,
}

/// What a run comes to: what was counted of each flow, what was noted of the inputs of the
/// sources, and the order of the items, if it was kept.
#[derive(Drop)]
pub struct Concluded<N> {
    pub counts: Vec<FlowCounts>,
    pub lanes: FourNotes<N>,
    pub order: Option<Vec<u8>>,
}

/// What was noted of the inputs of the four sources.
#[derive(Drop)]
pub struct FourNotes<N> {
    pub n0: SourceNotes<N>,
    pub n1: SourceNotes<N>,
    pub n2: SourceNotes<N>,
    pub n3: SourceNotes<N>,
}

/// Who took what a run gave, whether its threads began, and what it came to, unless an allocation
/// failed.
#[derive(Drop)]
pub struct Ran<F, Q, N> {
    pub consumers: Consumers<F, Q>,
    pub began: bool,
    pub concluded: Option<Concluded<N>>,
}

/// What a run came to, unless an allocation failed. Both mailboxes and all rings are settled, and
/// nothing is left in them.
pub fn conclude<N: Drop, R: Wait>(rt: &R, end: Ended<N>) -> Option<Concluded<N>>
    requires { CanSettle end }
    ensures { HasConcluded end result }
{
    let done = end.done;
    let (l0, l1, l2, l3) = (done.l0, done.l1, done.l2, done.l3);
    let arrivals = ClosedPorts {
        p0: l0.arrivals,
        p1: l1.arrivals,
        p2: l2.arrivals,
        p3: l3.arrivals,
        p4: done.decided,
    };
    let requests = ClosedPorts {
        p0: l0.requests,
        p1: l1.requests,
        p2: l2.requests,
        p3: l3.requests,
        p4: end.unused_port,
    };
    let first = both_done(l0.notes, l1.notes);
    let second = both_done(l2.notes, l3.notes);
    let noted = both_done(first, second);
    let mut feeders = end.feeders;
    let mut takers = done.takers;
    settle(rt, arrivals, end.mouth);
    settle(rt, requests, done.mouth);
    settle_rings(&mut feeders, &mut takers);
    concluded_of(end.assembled, noted)
}

/// What was noted of the inputs of two sources.
type TwoNotes<N> = (SourceNotes<N>, SourceNotes<N>);

/// What was counted and noted, if all was.
fn concluded_of<N: Drop>(
    assembled: Option<Assembled>,
    noted: Option<(TwoNotes<N>, TwoNotes<N>)>,
) -> Option<Concluded<N>>
    ensures assembled { IfSome result (λ concluded. (made : _) × (assembled ≡ Some made)
        × (concluded.counts ≡ made.counts) × (concluded.order ≡ made.order)) }
    ensures noted { IfSome result (λ concluded. (notes : _) × (noted ≡ Some notes)
        × (concluded.lanes ≡ record {
          n0 = notes.0.0;
          n1 = notes.0.1;
          n2 = notes.1.0;
          n3 = notes.1.1;
        })) }
{
    let Some(made) = assembled else {
        return None;
    };
    let Some(notes) = noted else {
        return None;
    };
    let ((n0, n1), (n2, n3)) = notes;
    Some(Concluded {
        counts: made.counts,
        lanes: FourNotes { n0, n1, n2, n3 },
        order: made.order,
    })
}

/// The outcome of a run that collected what it gave, and kept its order. `AllocError`: an
/// allocation failed on the way, or fails here.
pub fn outcome_of(
    alloc: Global,
    records: &[FlowRecord],
    frames: Collected,
    requests: Collected,
    concluded: Option<Concluded<LaneReport>>,
) -> Result<Outcome, AllocError>
    requires { CanBeMade (length records.now) frames requests concluded }
    ensures { IfOk result (IsMadeOf records.now frames requests concluded) }
{
    let Some(concluded) = concluded else {
        return Err(AllocError);
    };
    let Concluded {
        counts,
        lanes,
        order,
    } = concluded;
    let FourNotes { n0, n1, n2, n3 } = lanes;
    let Some(order) = order else {
        return Err(AllocError);
    };
    if !frames.whole || !requests.whole {
        return Err(AllocError);
    }
    Ok(Outcome {
        flows: flows_of(alloc, records, frames.frames, &counts)?,
        requests: four_lists(requests.requests),
        lanes: [
            report_on(n0, 0),
            report_on(n1, 1),
            report_on(n2, 2),
            report_on(n3, 3),
        ],
        order,
    })
}

/// What a source's worker noted of this channel.
fn report_on(notes: SourceNotes<LaneReport>, channel: usize) -> LaneReport
    requires { channel < length notes.lanes.items }
    ensures { slice_get notes.lanes.items channel ≡ Some result }
{
    let mut lanes = notes.lanes;
    lanes.swap_remove(channel)
}

/// What each flow gave: its frames, and its counts.
fn flows_of(
    alloc: Global,
    records: &[FlowRecord],
    frames: Vec<FrameList>,
    counts: &[FlowCounts],
) -> Result<Vec<FlowOutcome>, AllocError>
    requires frames { length frames.items ≡ length records.now }
    requires counts { length counts.now ≡ length records.now }
    ensures { IfOk result (λ flows. AreFlowsOf records.now frames.items counts.now flows.items) }
{
    let mut flows = Vec::with_capacity(alloc, records.len())?;
    for own in frames {
        let k = flows.len();
        flows.push_reserved(FlowOutcome {
            sfid: records[k].sfid,
            frames: own,
            counts: counts[k],
        });
    }
    Ok(flows)
}

/// The lists of the four channels.
fn four_lists<T: Drop>(lists: Vec<Vec<T>>) -> [Vec<T>; CHANNELS]
    requires { length lists.items ≡ channel_limit }
    ensures { result ≡ lists.items }
{
    let mut lists = lists.into_iter();
    let (Some(l0), Some(l1), Some(l2), Some(l3)) = (
        lists.next(),
        lists.next(),
        lists.next(),
        lists.next(),
    ) else {
        unreachable!()
    };
    [l0, l1, l2, l3]
}

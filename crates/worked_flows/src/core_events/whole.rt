//! Segments that are one whole frame by themselves, given as they are.
ghost use Rattle.docsis_wire.specs.Ready.{IsReady};

use super::*;
use docsis_wire::Bytes;
use flow_core::{Flow, StepAsItIs};
use std::cell::Cell;

/// A flow that has taken a segment, which is the next one.
fn with_next(alloc: Global, next: Segment) -> Result<Flow, Fail>
    requires { IsReady next }
{
    let record = FlowRecord {
        sfid: 0,
        first: 0,
        window: 16,
        clusters: 1,
        ring: 1,
    };
    let mut flow = Flow::new(alloc, &record)?;
    if flow.is_drained() {
        flow.arrive(next);
    }
    Ok(flow)
}

#[test]
fn gives_a_whole_frame_as_it_is(rt: HostRuntime) -> Result<(), Fail> {
    let mut flow = with_next(rt.alloc(), segment(rt.alloc(), Part(0, Some(0), FRAME_0))?)?;
    let step = flow.advance_as_it_is(rt.alloc(), &NoCheck)?;
    let whole = matches!(step, StepAsItIs::Whole(ref frame) if frame.as_slice() == FRAME_0);
    assert!(rt; whole, "the frame: {step:?}");
    let step = flow.advance_as_it_is(rt.alloc(), &NoCheck)?;
    assert!(rt;
        matches!(step, StepAsItIs::Nothing),
        "nothing is next: {step:?}"
    );
    assert!(rt; flow.counts() == counts([1, 0, 0, 0, 0, 1, 0]));
    assert!(rt; flow.expected() == 1);
    Ok(())
}

#[test]
fn joins_a_part_of_a_frame(rt: HostRuntime) -> Result<(), Fail> {
    let mut flow = with_next(rt.alloc(), segment(rt.alloc(), FIRST)?)?;
    let step = flow.advance_as_it_is(rt.alloc(), &NoCheck)?;
    let joined = matches!(step, StepAsItIs::Frames(ref frames) if frames.is_empty());
    assert!(rt; joined, "the part is joined: {step:?}");
    assert!(rt; flow.held() == 0);
    Ok(())
}

/// A check that says no of each header, and counts its calls.
#[derive(Drop)]
struct Refusing {
    calls: Cell<usize>,
}

impl HeaderCheck for Refusing {
    ghost use Rattle.std.specs.Prelude.{false};

    ghost accepts = { λ _ _. false };

    fn passes(&self, _header: &[u8]) -> bool {
        self.calls.set(self.calls.get().wrapping_add(1));
        false
    }
}

#[test]
fn checks_a_spoiled_whole_frame_once(rt: HostRuntime) -> Result<(), Fail> {
    let check = Refusing {
        calls: Cell::new(0),
    };
    let mut flow = with_next(rt.alloc(), segment(rt.alloc(), Part(0, Some(0), FRAME_0))?)?;
    let step = flow.advance_as_it_is(rt.alloc(), &check)?;
    let joined = matches!(step, StepAsItIs::Frames(ref frames) if frames.is_empty());
    assert!(rt; joined, "nothing is given: {step:?}");
    assert!(rt; check.calls.get() == 1);
    assert!(rt; flow.counts() == counts([1, 0, 0, 0, 0, 0, 7]));
    let mut flow = with_next(rt.alloc(), segment(rt.alloc(), Part(0, Some(0), FRAME_0))?)?;
    flow.advance(rt.alloc(), &check)?;
    assert!(rt; check.calls.get() == 2);
    assert!(rt; flow.counts() == counts([1, 0, 0, 0, 0, 0, 7]));
    Ok(())
}

/// A burst of a segment that is one whole frame, in memory for so many bytes.
fn burst_in_room_for(alloc: Global, room: usize) -> Result<Bytes, Fail> {
    let mut bytes = Vec::with_capacity(alloc, room)?;
    bytes.extend_from_slice(&[0x80, 0, 0, 0, 0, 0, 0, 0])?;
    bytes.extend_from_slice(FRAME_0)?;
    Ok(Bytes::from(bytes))
}

/// The room of the memory in which the frame of such a burst is given.
fn given_in_room_for(rt: &impl Abort, alloc: Global, room: usize) -> Result<usize, Fail> {
    let Ok(next) = Segment::from_burst(burst_in_room_for(alloc, room)?) else {
        return Err("the burst is a segment".into());
    };
    let mut flow = with_next(alloc, next)?;
    let StepAsItIs::Whole(frame) = flow.advance_as_it_is(alloc, &NoCheck)? else {
        return Err("a whole frame is next".into());
    };
    assert!(rt; frame.as_slice() == FRAME_0, "the frame: {frame:?}");
    Ok(frame.into_vec().capacity())
}

#[test]
fn copies_a_frame_out_of_much_larger_memory(rt: HostRuntime) -> Result<(), Fail> {
    assert!(rt; given_in_room_for(&rt, rt.alloc(), 4096)? == FRAME_0.len());
    assert!(rt; given_in_room_for(&rt, rt.alloc(), 79)? == FRAME_0.len());
    Ok(())
}

#[test]
fn leaves_a_frame_in_memory_that_is_not_much_larger(rt: HostRuntime) -> Result<(), Fail> {
    assert!(rt; given_in_room_for(&rt, rt.alloc(), 78)? == 78);
    assert!(rt; given_in_room_for(&rt, rt.alloc(), 15)? == 15);
    Ok(())
}

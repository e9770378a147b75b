//! Traces that are replayed besides, with the same answer.
use crate::handing_in::{close, hand_in_all, receiver_of};
use consumer::{Collected, FrameList};
use docsis_wire::NoCheck;
use receiver::{Closed, LaneTally, Outcome, admitted_order, replay};
use std::alloc::Global;
use std::process::Abort;
use std::test::Fail;
use worked_traces::cases::{CASES, Case};
use worked_traces::traces::{FLOW, ROWS, Trace, tags_of, trace_of};

/// Ends the test if the same frames weren't given of the flow, the same requests on each channel,
/// or if other numbers were counted than by a replay.
fn expect_replayed(
    rt: &impl Abort,
    name: &str,
    place: usize,
    closed: &Closed,
    out: &Collected,
    outcome: &Outcome,
) {
    assert!(rt; out.whole, "{name}");
    for (flow, (counts, frames)) in outcome
        .flows
        .iter()
        .zip(closed.flows.iter().zip(&out.frames))
    {
        assert!(rt; *counts == flow.counts, "{name}, {place}");
        assert!(rt; same_frames(frames, &flow.frames), "{name}");
    }
    for (wanted, found) in outcome.requests.iter().zip(&out.requests) {
        assert!(rt; found.as_slice() == wanted.as_slice(), "{name}");
    }
    for (report, tally) in outcome.lanes.iter().zip(&closed.lanes) {
        let refused = report.refused.len() as u64;
        let admitted = report.admitted;
        assert!(rt;
            *tally == LaneTally { admitted, refused },
            "{name}, {place}"
        );
    }
}

fn same_frames(frames: &FrameList, wanted: &FrameList) -> bool {
    frames.len() == wanted.len()
        && (0..wanted.len()).all(|index| frames.get(index) == wanted.get(index))
}

/// Takes the lines of a case before this place one at a time and closes; and replays them.
fn expect_prefix(rt: &impl Abort, alloc: Global, case: &Case, place: usize) -> Result<(), Fail> {
    let Some(lines) = case.lines.get(..place) else {
        return Err(Fail::new(format_args!("no place {place}")));
    };
    let Trace { setup, lists } = trace_of(alloc, &[FLOW], &ROWS, lines)?;
    let tags = tags_of(alloc, lines)?;
    let order = admitted_order(alloc, &setup, &lists, &tags)?;
    let outcome = replay(alloc, &setup, &lists, &order, NoCheck)?;
    let (mut receiver, mut out) = receiver_of(alloc, &setup)?;
    hand_in_all(alloc, &mut receiver, lines, &mut out)?;
    let closed = close(alloc, receiver, &mut out)?;
    expect_replayed(rt, case.name, place, &closed, &out, &outcome);
    Ok(())
}

#[test]
fn a_close_at_each_place_gives_what_a_replay_gives(rt: HostRuntime) -> Result<(), Fail> {
    for case in &CASES {
        for place in 0..=case.lines.len() {
            expect_prefix(&rt, rt.alloc(), case, place)?;
        }
    }
    Ok(())
}

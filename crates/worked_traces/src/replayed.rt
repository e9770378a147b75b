//! Traces whose one-thread answers were worked out by hand.
mod failed_allocations;

use crate::cases::{CASES, Case};
use crate::outcomes::*;
use crate::traces::*;
use docsis_wire::NoCheck;
use flow_core::{FlowCounts, FlowRecord, SetupFault};
use lane::{Input, LaneFault, SidRow};
use receiver::{Decision, Lists, ReplayFault, Setup, admitted_order, replay};
use std::alloc::{AllocError, Global};
use std::process::Abort;
use std::test::Fail;

/// Replays a case in the order that is admitted of its lines.
fn expect_case(rt: &impl Abort, alloc: Global, case: &Case) -> Result<(), ReplayFault> {
    let Trace { setup, lists } = trace_of(alloc, &[FLOW], &ROWS, case.lines)?;
    let tags = tags_of(alloc, case.lines)?;
    let order = admitted_order(alloc, &setup, &lists, &tags)?;
    assert!(rt; order.as_slice() == case.expected.order, "{}", case.name);
    let outcome = replay(alloc, &setup, &lists, &order, NoCheck)?;
    let amiss = part_amiss(&outcome, &case.expected, case.expected.order);
    assert!(rt; amiss.is_none(), "{}: {amiss:?}", case.name);
    Ok(())
}

#[test]
fn replays_in_the_admitted_order(rt: HostRuntime) -> Result<(), Fail> {
    for case in &CASES {
        expect_case(&rt, rt.alloc(), case)?;
    }
    Ok(())
}

/// Orders of the three segments, and the first place of each that is bad.
const BAD_ORDERS: [(&[u8], usize); 6] = [
    (&[0, 0], 2),
    (&[0, 0, 0], 2),
    (&[5], 0),
    (&[], 0),
    (&[1, 0, 0, 4], 3),
    (&[1, 0, 0, 2, 5], 3),
];

/// Tags of their lines, and the first place.
const BAD_TAGS: [(&[u8], usize); 5] = [
    (&[1, 0, 0], 3),
    (&[0, 1, 0, 1, 0, 0, 0], 6),
    (&[0, 1, 0, 1, 0, 4], 5),
    (&[0, 7], 1),
    (&[2], 0),
];

/// Ends the test if an order or tags have another fault than this first bad place.
fn expect_bad_place(rt: &impl Abort, senders: &[u8], fault: Option<ReplayFault>, place: usize) {
    assert!(rt; fault == Some(ReplayFault::BadOrder(place)), "{senders:?}");
}

fn expect_bad_orders(rt: &impl Abort, alloc: Global, trace: &Trace) {
    for (order, place) in &BAD_ORDERS {
        let replayed = replay(alloc, &trace.setup, &trace.lists, order, NoCheck);
        expect_bad_place(rt, order, replayed.err(), *place);
    }
}

fn expect_bad_tags(rt: &impl Abort, alloc: Global, trace: &Trace) {
    for (tags, place) in &BAD_TAGS {
        let admitted = admitted_order(alloc, &trace.setup, &trace.lists, tags);
        expect_bad_place(rt, tags, admitted.err(), *place);
    }
}

#[test]
fn finds_the_first_bad_place(rt: HostRuntime) -> Result<(), Fail> {
    let trace = trace_of(rt.alloc(), &[FLOW], &ROWS, &SECOND_FIRST)?;
    expect_bad_orders(&rt, rt.alloc(), &trace);
    expect_bad_tags(&rt, rt.alloc(), &trace);
    Ok(())
}

/// A flow without a window.
const CLOSED: FlowRecord = FlowRecord { window: 0, ..FLOW };

/// The same service identifier twice.
const REPEATED: [SidRow; 2] = [ROW_0, ROW_0];

const FAULTS: [(&[FlowRecord], &[SidRow], ReplayFault); 5] = [
    (&[CLOSED], &ROWS, ReplayFault::Setup(SetupFault::BadFlow(0))),
    (
        &[CLOSED],
        &REPEATED,
        ReplayFault::Setup(SetupFault::BadFlow(0)),
    ),
    (
        &[FLOW, FLOW],
        &ROWS,
        ReplayFault::Setup(SetupFault::SameSfid(1)),
    ),
    (&[FLOW], &REPEATED, ReplayFault::Lane(LaneFault::SameSid(1))),
    (&[], &ROWS, ReplayFault::Lane(LaneFault::UnknownFlow(0))),
];

/// Ends the test if another fault of a setup is reported, by a replay or of tags.
fn expect_fault(
    rt: &impl Abort,
    alloc: Global,
    setup: &Setup,
    lists: &Lists,
    senders: &[u8],
    fault: ReplayFault,
) {
    let replayed = replay(alloc, setup, lists, senders, NoCheck).err();
    let admitted = admitted_order(alloc, setup, lists, senders).err();
    assert!(rt; [replayed, admitted] == [Some(fault), Some(fault)]);
}

/// Faults of the flows come before those of the lanes, and these before those of an order.
#[test]
fn finds_the_first_fault(rt: HostRuntime) -> Result<(), Fail> {
    let lists = lists_of(rt.alloc(), &SECOND_FIRST)?;
    for (flows, sids, fault) in &FAULTS {
        let setup = setup_of(rt.alloc(), flows, sids)?;
        expect_fault(&rt, rt.alloc(), &setup, &lists, &[5], *fault);
    }
    Ok(())
}

/// How many segments make long lists.
const MANY: u32 = 70_000;

/// That many without a frame, one after another.
fn many_segments(alloc: Global) -> Result<Vec<Input>, AllocError> {
    let mut inputs = Vec::new(alloc);
    for number in 0..MANY {
        let [_, _, high, low] = (number % 8192 << 3).to_be_bytes();
        let header = [0, 0, high, low, 0, 0, 0, 0];
        push_segment(alloc, &mut inputs, number, 1, &header)?;
    }
    Ok(inputs)
}

/// Each of them has a decision behind it that changes nothing.
fn long_lists(alloc: Global) -> Result<Lists, AllocError> {
    let nothing = Decision {
        flow: 0,
        upto: None,
    };
    let decisions = vec![in alloc; nothing; MANY as usize]?;
    let none = || Vec::new(alloc);
    Ok(Lists {
        inputs: [many_segments(alloc)?, none(), none(), none()],
        decisions,
    })
}

/// A grant, its burst and a decision, again and again.
fn long_tags(alloc: Global) -> Result<Vec<u8>, AllocError> {
    let mut tags = Vec::new(alloc);
    for _ in 0..MANY {
        tags.extend_from_slice(&[0, 0, 4])?;
    }
    Ok(tags)
}

/// What comes of long lists.
const MANY_KEPT: Gives = Gives {
    counts: FlowCounts {
        kept: 70_000,
        ..NO_COUNTS
    },
    ..NOTHING
};

/// Many segments, each with a decision behind it that changes nothing.
#[test]
fn replays_long_lists(rt: HostRuntime) -> Result<(), Fail> {
    let setup = setup_of(rt.alloc(), &[FLOW], &ROWS)?;
    let lists = long_lists(rt.alloc())?;
    let tags = long_tags(rt.alloc())?;
    let order = admitted_order(rt.alloc(), &setup, &lists, &tags)?;
    assert!(rt; order.len() == 140_000);
    let outcome = replay(rt.alloc(), &setup, &lists, &order, NoCheck)?;
    assert!(rt; all_gave(&outcome.flows, &[MANY_KEPT]));
    Ok(())
}

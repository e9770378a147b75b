//! What no clause says: that a running receiver ends, at little room too, and that its workers run
//! beside each other.
mod backlogs;
mod consumers;
mod count;
mod failed_allocations;
mod held_up;
mod late;
mod living;
mod meeting;
mod numbered;
mod receivers;
mod repeated;
mod request_first;
mod stopped;
mod told_flows;
mod wide;

use docsis_wire::NoCheck;
use flow_core::FlowCounts;
use held_up::{Calls, Counting, HeldUp};
use meeting::{Arriving, Attending, Meeting};
use receivers::{Four, no_taps, receive, receive_on_channel_0, sources_of};
use std::alloc::{AllocError, Global};
use std::sync::{Arc, Wait};
use std::test::Fail;
use std::thread::Threads;
use uplink::{
    Input, ListDecisions, ListSource, Lists, NoTap, Outcome, Request, RunFault, Sources, Taps, run,
};
use worked_frames::samples::{FIRST, SECOND, THIRD};
use worked_traces::outcomes::*;
use worked_traces::traces::*;

/// Four segments on four channels, whose sources come to the meeting before they give anything.
fn attending(
    inputs: [Vec<Input>; 4],
    meeting: &Arc<Meeting, Global>,
) -> Result<Four<Attending<ListSource>>, AllocError> {
    let Sources { s0, s1, s2, s3 } = sources_of(inputs);
    Ok(Sources {
        s0: Attending::new(s0, 0, meeting)?,
        s1: Attending::new(s1, 0, meeting)?,
        s2: Attending::new(s2, 0, meeting)?,
        s3: Attending::new(s3, 0, meeting)?,
    })
}

/// Receives four segments on four channels. Each source, and the decisions, comes to the meeting
/// before it gives its first item, and goes on once all five are there.
fn receive_in_company<R>(
    alloc: Global,
    rt: R,
    meeting: &Arc<Meeting, Global>,
) -> Result<Outcome, RunFault>
where
    R: Threads + Wait + Copy + Send + 'static,
{
    let Lists { inputs, decisions } = numbered::lists(alloc, 4)?;
    let sources = attending(inputs, meeting)?;
    let decisions = Attending::new(ListDecisions::new(decisions), 0, meeting)?;
    let setup = numbered::narrow(alloc, 16)?;
    run(alloc, rt, setup, sources, decisions, no_taps(), NoCheck)
}

#[test]
fn all_senders_run_at_once(rt: HostRuntime) -> Result<(), Fail> {
    let meeting = Meeting::of(rt.alloc(), 5)?;
    let outcome = receive_in_company(rt.alloc(), rt, &meeting)?;
    numbered::expect_all(&rt, &outcome, 4);
    meeting.expect_met(&rt);
    Ok(())
}

/// Segments with the numbers 0 and 1, each with a frame, the first with a request of seven units.
const TWO_FRAMES: [Line; 4] = [
    Line::Grant(0, 1, 1, 15),
    Line::Burst(
        0,
        1,
        &[0x80, 0, 0, 0, 0, 7, 0, 0, 0, 0, 0, 1, 0x11, 0x11, 0],
    ),
    Line::Grant(0, 2, 1, 15),
    Line::Burst(
        0,
        2,
        &[0x80, 0, 0, 8, 0, 0, 0, 0, 0, 0, 0, 1, 0x11, 0x11, 1],
    ),
];

const SEVEN_UNITS: Request = Request {
    channel: 0,
    flow: 0,
    cluster: 0,
    units: 7,
    sequence: 0,
};

/// What comes of the two frames.
const TOOK_BOTH: Expected = Expected {
    flows: &[Gives {
        counts: FlowCounts {
            kept: 2,
            frames: 2,
            ..NO_COUNTS
        },
        frames: &[&[0, 0, 0, 1, 0x11, 0x11, 0], &[0, 0, 0, 1, 0x11, 0x11, 1]],
        ..NOTHING
    }],
    requests: [&[SEVEN_UNITS], &[], &[], &[]],
    lanes: [(2, &[]), (0, &[]), (0, &[]), (0, &[])],
    order: &[0, 0],
};

/// Receives the two frames. The source comes to the meeting before it gives what follows the first
/// two inputs, and each tap when it is first shown an item.
fn receive_two_frames<R>(
    alloc: Global,
    rt: R,
    meeting: &Arc<Meeting, Global>,
) -> Result<Outcome, RunFault>
where
    R: Threads + Wait + Copy + Send + 'static,
{
    let inputs = inputs_of(alloc, &TWO_FRAMES, 0)?;
    let source = Attending::new(ListSource::new(inputs), 2, meeting)?;
    let taps = Taps {
        frames: Arriving::new(meeting)?,
        requests: Arriving::new(meeting)?,
    };
    receive_on_channel_0(alloc, rt, source, taps)
}

/// A source gives no more inputs until a frame and a request that it gave were taken.
#[test]
fn takes_while_a_source_still_gives(rt: HostRuntime) -> Result<(), Fail> {
    let meeting = Meeting::of(rt.alloc(), 3)?;
    let outcome = receive_two_frames(rt.alloc(), rt, &meeting)?;
    let amiss = part_amiss(&outcome, &TOOK_BOTH, TOOK_BOTH.order);
    assert!(rt; amiss.is_none(), "{amiss:?}");
    meeting.expect_met(&rt);
    Ok(())
}

/// Eight segments without a frame, each with a request of one unit.
fn eight_requests(alloc: Global) -> Result<Vec<Input>, AllocError> {
    let mut inputs = Vec::new(alloc);
    for number in 0_u8..8 {
        let header = [0, 0, 0, number << 3, 0, 1, 0, 0];
        push_segment(alloc, &mut inputs, u32::from(number), 1, &header)?;
    }
    Ok(inputs)
}

/// Receives them, and counts how often the source is asked, while the scheduler is held up.
fn receive_held_up<R>(alloc: Global, rt: R, calls: &Arc<Calls, Global>) -> Result<Outcome, RunFault>
where
    R: Threads + Wait + Copy + Send + 'static,
{
    let inputs = eight_requests(alloc)?;
    let source = Counting::new(ListSource::new(inputs), calls)?;
    let taps = Taps {
        frames: NoTap,
        requests: HeldUp::new(calls)?,
    };
    receive_on_channel_0(alloc, rt, source, taps)
}

/// A source is asked for no more than there is room for: two inputs for each request that was
/// taken, lies in the mailbox, or waits for room.
#[test]
fn asks_for_no_more_than_there_is_room_for(rt: HostRuntime) -> Result<(), Fail> {
    let calls = Calls::none(rt.alloc())?;
    let outcome = receive_held_up(rt.alloc(), rt, &calls)?;
    let seen = calls.seen();
    assert!(rt; 2 <= seen, "{seen}");
    assert!(rt; seen <= 6, "{seen}");
    assert!(rt; all_gave(&outcome.flows, &[EIGHT_KEPT]));
    let [requests, ..] = &outcome.requests;
    assert!(rt; are_eight(requests));
    Ok(())
}

/// What comes of the eight segments.
const EIGHT_KEPT: Gives = Gives {
    counts: FlowCounts {
        kept: 8,
        ..NO_COUNTS
    },
    ..NOTHING
};

/// Whether these are the requests of the eight segments, in order.
fn are_eight(requests: &[Request]) -> bool {
    requests.len() == 8
        && (0_u16..8).zip(requests).all(|(sequence, request)| {
            let units = 1;
            *request
                == Request {
                    units,
                    sequence,
                    ..SEVEN_UNITS
                }
        })
}

#[test]
fn ends_with_little_room(rt: HostRuntime) -> Result<(), Fail> {
    let setup = numbered::narrow(rt.alloc(), 4096)?;
    let lists = numbered::lists(rt.alloc(), 1024)?;
    let outcome = receive(rt.alloc(), rt, Trace { setup, lists })?;
    numbered::expect_all(&rt, &outcome, 1024);
    Ok(())
}

#[test]
fn runs_without_a_flow(rt: HostRuntime) -> Result<(), Fail> {
    let lines = [Line::Gap(0, None), Line::Gap(5, None)];
    let mut trace = trace_of(rt.alloc(), &[], &[], &lines)?;
    trace.setup.mailbox = 1;
    let outcome = receive(rt.alloc(), rt, trace)?;
    let amiss = part_amiss(&outcome, &NO_FLOW, &[]);
    assert!(rt; amiss.is_none(), "{amiss:?}");
    Ok(())
}

/// The second of three segments first, and decisions that name no flow, or no number.
const NAMING_NOTHING: [Line; 8] = [
    Line::Grant(0, 1, 1, 13),
    Line::Grant(1, 1, 2, 15),
    Line::Grant(0, 2, 1, 13),
    Line::Gap(1, Some(2)),
    Line::Burst(1, 1, SECOND),
    Line::Burst(0, 1, FIRST),
    Line::Gap(0, Some(8192)),
    Line::Burst(0, 2, THIRD),
];

/// Decisions that name no flow, or no number, are passed over.
#[test]
fn passes_over_decisions_that_name_nothing(rt: HostRuntime) -> Result<(), Fail> {
    let trace = trace_of(rt.alloc(), &[FLOW], &ROWS, &NAMING_NOTHING)?;
    let outcome = receive(rt.alloc(), rt, trace)?;
    let amiss = part_amiss_in_any_order(&outcome, &BOTH_FRAMES);
    assert!(rt; amiss.is_none(), "{amiss:?}");
    Ok(())
}

//! Tests to be run with the Nth request for memory or for a thread refused, and the one whose name
//! ends in `without_memory` with all later ones refused too. Each says `refused` when a call was.
use super::living::{Living, LivingTap, Watch};
use super::meeting::Meeting;
use super::numbered::{expect_all, segment_of};
use super::receive_in_company;
use super::receivers::{Four, no_decisions, receive};
use docsis_wire::{Bytes, NoCheck};
use flow_core::{FlowRecord, SetupFault};
use std::alloc::{AllocError, Global};
use std::process::Abort;
use std::sync::{Arc, Wait};
use std::test::Fail;
use std::thread::Threads;
use uplink::{Input, LaneFault, ListSource, Outcome, RunFault, Setup, SidRow, Sources, Taps, run};
use worked_frames::refused::{expect_refused, say_refused, say_whether_refused};
use worked_traces::outcomes::{SECOND_FRAME, part_amiss_in_any_order, same_lanes};
use worked_traces::traces::*;

/// Receives four segments whose senders meet. If no memory was refused, they all met.
fn try_to_meet<R>(alloc: Global, rt: R) -> Result<Outcome, RunFault>
where
    R: Abort + Threads + Wait + Copy + Send + 'static,
{
    let meeting = Meeting::of(alloc, 5)?;
    let outcome = receive_in_company(alloc, rt, &meeting)?;
    meeting.expect_met(&rt);
    Ok(outcome)
}

#[test]
fn run_refused(rt: HostRuntime) -> Result<(), Fail> {
    let outcome = match try_to_meet(rt.alloc(), rt) {
        Ok(outcome) => outcome,
        Err(fault) => {
            expect_refused(&rt, fault, RunFault::OutOfMemory)?;
            try_to_meet(rt.alloc(), rt)?
        }
    };
    expect_all(&rt, &outcome, 4);
    Ok(())
}

/// Receives what is left of a flow that lost its first segment.
fn try_without_the_first<R>(alloc: Global, rt: R) -> Result<Outcome, RunFault>
where
    R: Threads + Wait + Copy + Send + 'static,
{
    receive(alloc, rt, trace_of(alloc, &[FLOW], &ROWS, &FIRST_LOST)?)
}

#[test]
fn run_without_the_first_refused(rt: HostRuntime) -> Result<(), Fail> {
    let outcome = match try_without_the_first(rt.alloc(), rt) {
        Ok(outcome) => outcome,
        Err(fault) => {
            expect_refused(&rt, fault, RunFault::OutOfMemory)?;
            try_without_the_first(rt.alloc(), rt)?
        }
    };
    let amiss = part_amiss_in_any_order(&outcome, &SECOND_FRAME);
    assert!(rt; amiss.is_none(), "{amiss:?}");
    Ok(())
}

/// A burst without a grant, whose refusal is noted, then a grant, and a burst with a frame and a
/// request.
fn refused_and_admitted(alloc: Global, channel: u8) -> Result<Vec<Input>, AllocError> {
    let mut inputs = Vec::new(alloc);
    inputs.push(Input::Burst {
        grant: 9,
        hcs_ok: true,
        bytes: Bytes::from(Vec::new(alloc)),
    })?;
    let number = u16::from(channel);
    let segment = segment_of(number, 1);
    push_segment(alloc, &mut inputs, 1, number + 1, &segment)?;
    Ok(inputs)
}

/// A source that gives these inputs of a channel, and is counted.
fn living(
    alloc: Global,
    channel: u8,
    watch: &Arc<Watch, Global>,
) -> Result<Living<ListSource>, AllocError> {
    let inputs = refused_and_admitted(alloc, channel)?;
    Living::new(ListSource::new(inputs), watch)
}

/// Such a source of each channel.
fn four_living(
    alloc: Global,
    watch: &Arc<Watch, Global>,
) -> Result<Four<Living<ListSource>>, AllocError> {
    Ok(Sources {
        s0: living(alloc, 0, watch)?,
        s1: living(alloc, 1, watch)?,
        s2: living(alloc, 2, watch)?,
        s3: living(alloc, 3, watch)?,
    })
}

/// A ring with room for all frames, and mailboxes with room for four entries.
fn watched_setup(alloc: Global) -> Result<Setup, AllocError> {
    let flow = FlowRecord { ring: 16, ..FLOW };
    let mut setup = setup_of(alloc, &[flow], &FOUR_ROWS)?;
    setup.mailbox = 4;
    Ok(setup)
}

/// Receives those inputs on four channels while both taps are held up. The frames have room in the
/// ring, so that the assembler ends all the same, and the requests and one end mark fill their
/// mailbox, so that the lanes of three channels still wait for room then.
fn receive_watched<R>(alloc: Global, rt: R, watch: &Arc<Watch, Global>) -> Result<Outcome, RunFault>
where
    R: Threads + Wait + Copy + Send + 'static,
{
    let sources = four_living(alloc, watch)?;
    let decisions = Living::new(no_decisions(alloc), watch)?;
    let taps = Taps {
        frames: LivingTap::new(watch)?,
        requests: LivingTap::new(watch)?,
    };
    let setup = watched_setup(alloc)?;
    run(alloc, rt, setup, sources, decisions, taps, NoCheck)
}

/// Each of the four sources was asked four times, but that of a worker whose allocation failed,
/// which was asked for no more, or none was asked.
fn expect_asked(rt: &impl Abort, asked: u64, has_failed: bool) {
    let lawful = asked == 16 || has_failed && (asked == 0 || 12 <= asked && asked < 16);
    assert!(rt; lawful, "asked {asked} times");
}

/// When a run has returned, no source and no tap is in use any more.
fn try_to_outlive<R>(alloc: Global, rt: R) -> Result<Outcome, RunFault>
where
    R: Abort + Threads + Wait + Copy + Send + 'static,
{
    let watch = Watch::new(alloc)?;
    let answer = receive_watched(alloc, rt, &watch);
    assert!(rt; watch.alive() == 0, "still in use");
    watch.has_returned();
    expect_asked(&rt, watch.asked(), answer.is_err());
    answer
}

#[test]
fn run_leaves_nothing_in_use_refused(rt: HostRuntime) -> Result<(), Fail> {
    let outcome = match try_to_outlive(rt.alloc(), rt) {
        Ok(outcome) => outcome,
        Err(fault) => {
            expect_refused(&rt, fault, RunFault::OutOfMemory)?;
            try_to_outlive(rt.alloc(), rt)?
        }
    };
    expect_all(&rt, &outcome, 4);
    assert!(rt; same_lanes(&outcome.lanes, &[(1, &[6]); 4]));
    Ok(())
}

const CLOSED: FlowRecord = FlowRecord {
    sfid: 7,
    window: 0,
    ..FLOW
};

/// The first row comes again.
const REPEATED: [SidRow; 3] = [ROW_0, ROW_1, ROW_0];

const FAULTS: [(&[FlowRecord], &[SidRow], u16, RunFault); 5] = [
    (
        &[FLOW, CLOSED],
        &REPEATED,
        0,
        RunFault::Setup(SetupFault::BadFlow(1)),
    ),
    (
        &[FLOW, FLOW],
        &REPEATED,
        0,
        RunFault::Setup(SetupFault::SameSfid(1)),
    ),
    (&[FLOW], &REPEATED, 0, RunFault::Lane(LaneFault::SameSid(2))),
    (&[], &ROWS, 1, RunFault::Lane(LaneFault::UnknownFlow(0))),
    (&[FLOW], &ROWS, 0, RunFault::NoCapacity),
];

/// Ends the test if another fault of a setup is reported.
fn expect_fault<R>(alloc: Global, rt: R, trace: Trace, fault: RunFault)
where
    R: Abort + Threads + Wait + Copy + Send + 'static,
{
    assert!(rt; receive(alloc, rt, trace).err() == Some(fault));
}

/// Faults of the flows come before those of the lanes, and these before that of the mailboxes. Each
/// is reported before any memory is taken.
#[test]
fn faults_without_memory(rt: HostRuntime) -> Result<(), Fail> {
    for (flows, sids, mailbox, fault) in &FAULTS {
        let Ok(mut trace) = trace_of(rt.alloc(), flows, sids, &[]) else {
            return say_refused(&rt);
        };
        trace.setup.mailbox = *mailbox;
        expect_fault(rt.alloc(), rt, trace, *fault);
    }
    say_whether_refused(&rt, rt.alloc())
}

//! Tests to be run with the Nth request for memory refused, and those whose names end in
//! `without_memory` with all later ones refused too. Each says `refused` when a call was.
use super::{CLOSED, REPEATED, expect_fault};
use crate::outcomes::{BOTH_FRAMES, part_amiss};
use crate::traces::*;
use docsis_wire::NoCheck;
use flow_core::SetupFault;
use lane::LaneFault;
use receiver::{Lists, Outcome, ReplayFault, Setup, admitted_order, replay};
use std::alloc::{AllocError, Global};
use std::test::Fail;
use worked_frames::refused::{expect_refused, say_refused, say_whether_refused};
use worked_frames::samples::{FIRST, SECOND, THIRD};

/// The second of three segments comes first, and a decision names no flow.
const LINES: [Line; 7] = [
    Line::Grant(0, 1, 1, 13),
    Line::Grant(1, 1, 2, 15),
    Line::Grant(0, 2, 1, 13),
    Line::Gap(1, None),
    Line::Burst(1, 1, SECOND),
    Line::Burst(0, 1, FIRST),
    Line::Burst(0, 2, THIRD),
];

/// Makes the trace, and once more where memory was refused.
fn made_again(rt: &impl Print, alloc: Global) -> Result<Trace, Fail> {
    if let Ok(first) = trace_of(alloc, &[FLOW], &ROWS, &LINES) {
        return Ok(first);
    }
    say_refused(rt)?;
    Ok(trace_of(alloc, &[FLOW], &ROWS, &LINES)?)
}

fn try_replay(alloc: Global, trace: &Trace) -> Result<Outcome, ReplayFault> {
    let order = BOTH_FRAMES.order;
    replay(alloc, &trace.setup, &trace.lists, order, NoCheck)
}

#[test]
fn replay_refused(rt: HostRuntime) -> Result<(), Fail> {
    let trace = made_again(&rt, rt.alloc())?;
    let outcome = match try_replay(rt.alloc(), &trace) {
        Ok(outcome) => outcome,
        Err(fault) => {
            expect_refused(&rt, fault, ReplayFault::OutOfMemory)?;
            try_replay(rt.alloc(), &trace)?
        }
    };
    let amiss = part_amiss(&outcome, &BOTH_FRAMES, BOTH_FRAMES.order);
    assert!(rt; amiss.is_none(), "{amiss:?}");
    Ok(())
}

fn try_order(alloc: Global, trace: &Trace) -> Result<Vec<u8>, ReplayFault> {
    let tags = [0, 1, 0, 4, 1, 0, 0];
    admitted_order(alloc, &trace.setup, &trace.lists, &tags)
}

#[test]
fn admitted_order_refused(rt: HostRuntime) -> Result<(), Fail> {
    let trace = made_again(&rt, rt.alloc())?;
    let order = match try_order(rt.alloc(), &trace) {
        Ok(order) => order,
        Err(fault) => {
            expect_refused(&rt, fault, ReplayFault::OutOfMemory)?;
            try_order(rt.alloc(), &trace)?
        }
    };
    assert!(rt; order.as_slice() == BOTH_FRAMES.order);
    Ok(())
}

/// A setup with a fault of its flows, one with a fault of its lanes, and lists for both.
#[derive(Drop)]
struct Faulty {
    flows: Setup,
    lanes: Setup,
    lists: Lists,
}

fn make_faulty(alloc: Global) -> Result<Faulty, AllocError> {
    Ok(Faulty {
        flows: setup_of(alloc, &[CLOSED], &ROWS)?,
        lanes: setup_of(alloc, &[FLOW], &REPEATED)?,
        lists: lists_of(alloc, &SECOND_FIRST)?,
    })
}

/// Faults of a setup are reported before any memory is taken.
#[test]
fn faults_without_memory(rt: HostRuntime) -> Result<(), Fail> {
    let Ok(
        Faulty {
            flows,
            lanes,
            lists,
        },
    ) = make_faulty(rt.alloc())
    else {
        return say_refused(&rt);
    };
    let fault = ReplayFault::Setup(SetupFault::BadFlow(0));
    expect_fault(&rt, rt.alloc(), &flows, &lists, &[], fault);
    let fault = ReplayFault::Lane(LaneFault::SameSid(1));
    expect_fault(&rt, rt.alloc(), &lanes, &lists, &[], fault);
    say_whether_refused(&rt, rt.alloc())
}

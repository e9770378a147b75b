//! Traces that are run a hundred times, and each time compared with the one-thread answer.
use super::receivers::receive;
use docsis_wire::NoCheck;
use flow_core::FlowRecord;
use std::alloc::{AllocError, Global};
use std::process::Abort;
use std::sync::Wait;
use std::test::Fail;
use std::thread::Threads;
use uplink::{Outcome, ReplayFault, SidRow, replay};
use worked_traces::outcomes::*;
use worked_traces::traces::*;

/// A trace, and what each run of it gives, its items in any order.
#[derive(Drop)]
struct Case {
    name: &'static str,
    replayed: &'static str,
    flows: &'static [FlowRecord],
    sids: &'static [SidRow],
    lines: &'static [Line],
    expected: Expected,
}

/// A flow whose only segment number has room in its window.
const ONE_PLACE: FlowRecord = FlowRecord {
    sfid: 1,
    window: 1,
    clusters: 1,
    ..FLOW
};

const CASES: [Case; 3] = [
    Case {
        name: "nothing",
        replayed: "nothing, replayed",
        flows: &[],
        sids: &[],
        lines: &[],
        expected: NO_FLOW,
    },
    Case {
        name: "a decision alone",
        replayed: "a decision alone, replayed",
        flows: &[ONE_PLACE],
        sids: &[],
        lines: &[Line::Gap(0, None)],
        expected: Expected {
            flows: &[Gives { sfid: 1, ..NOTHING }],
            order: &[4],
            ..NO_FLOW
        },
    },
    Case {
        name: "the first segment lost",
        replayed: "the first segment lost, replayed",
        flows: &[FLOW],
        sids: &ROWS,
        lines: &FIRST_LOST,
        expected: SECOND_FRAME,
    },
];

fn trace(alloc: Global, case: &Case) -> Result<Trace, AllocError> {
    trace_of(alloc, case.flows, case.sids, case.lines)
}

/// What one thread gives for a case in this order.
fn replay_case(alloc: Global, case: &Case, order: &[u8]) -> Result<Outcome, ReplayFault> {
    let Trace { setup, lists } = trace(alloc, case)?;
    replay(alloc, &setup, &lists, order, NoCheck)
}

/// A run gives what was worked out by hand, and one thread gives the same in the run's order.
fn expect_case<R>(alloc: Global, rt: R, case: &Case) -> Result<(), Fail>
where
    R: Abort + Threads + Wait + Copy + Send + 'static,
{
    let outcome = receive(alloc, rt, trace(alloc, case)?)?;
    let amiss = part_amiss_in_any_order(&outcome, &case.expected);
    assert!(rt; amiss.is_none(), "{}: {amiss:?}", case.name);
    let order = outcome.order.as_slice();
    let replayed = replay_case(alloc, case, order)?;
    let amiss = part_amiss(&replayed, &case.expected, order);
    assert!(rt; amiss.is_none(), "{}: {amiss:?}", case.replayed);
    Ok(())
}

#[test]
fn runs_a_hundred_times_as_on_one_thread(rt: HostRuntime) -> Result<(), Fail> {
    for case in &CASES {
        for _ in 0..100_u8 {
            expect_case(rt.alloc(), rt, case)?;
        }
    }
    Ok(())
}

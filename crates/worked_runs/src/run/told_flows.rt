//! Taps that count by the flow that they are told.
use super::receivers::receive_with;
use flow_core::FlowRecord;
use std::alloc::{AllocError, Global};
use std::process::Abort;
use std::sync::atomic::{AtomicU64, Ordering};
use std::sync::{Arc, Wait};
use std::test::Fail;
use std::thread::Threads;
use uplink::{FlowOutcome, Outcome, RunFault, SidRow, Tap, Taps};
use worked_traces::traces::{FLOW, Line, trace_of};

/// How many items a tap was shown of the flows 0 and 1, and of any other.
#[derive(Drop)]
struct ByFlow {
    shown: [AtomicU64; 3],
}

impl ByFlow {
    fn none(alloc: Global) -> Result<Arc<ByFlow, Global>, AllocError> {
        let shown = [AtomicU64::new(0), AtomicU64::new(0), AtomicU64::new(0)];
        match Arc::new(alloc, ByFlow { shown }) {
            Ok(counts) => Ok(counts),
            Err(_) => Err(AllocError),
        }
    }

    fn add(&self, flow: usize) {
        self.shown[flow.min(2)].fetch_add(1, Ordering::SeqCst);
    }

    fn values(&self) -> [u64; 3] {
        let [first, second, others] = &self.shown;
        [
            first.load(Ordering::SeqCst),
            second.load(Ordering::SeqCst),
            others.load(Ordering::SeqCst),
        ]
    }

    /// Ends the test if other items than so many were shown.
    fn expect_shown(&self, rt: &impl Abort, items: &str, wanted: [u64; 3]) {
        assert!(rt; self.values() == wanted, "{items}");
    }
}

/// Counts what it is shown of each flow.
#[derive(Drop)]
struct CountingFlows {
    counts: Arc<ByFlow, Global>,
}

impl CountingFlows {
    fn new(counts: &Arc<ByFlow, Global>) -> Result<CountingFlows, AllocError> {
        let counts = Arc::try_clone(counts)?;
        Ok(CountingFlows { counts })
    }
}

impl<T> Tap<T> for CountingFlows {
    fn took(&mut self, flow: usize, _item: &T) {
        self.counts.add(flow);
    }
}

/// Flow 0 is sent on the channels 1 and 2, and flow 1 on channel 0.
const CROSSED: [SidRow; 3] = [
    SidRow {
        channel: 1,
        sid: 5,
        flow: 0,
    },
    SidRow {
        channel: 2,
        sid: 6,
        flow: 0,
    },
    SidRow {
        channel: 0,
        sid: 7,
        flow: 1,
    },
];

/// One frame and three requests of flow 0, of which one comes on channel 1, and two frames and one
/// request of flow 1.
const TWO_FLOWS: [Line; 10] = [
    Line::Grant(1, 1, 5, 8),
    Line::Burst(1, 1, &[0, 0, 0, 0, 0, 1, 0, 0]),
    Line::Grant(2, 1, 6, 8),
    Line::Burst(2, 1, &[0, 0, 0, 8, 0, 2, 0, 0]),
    Line::Grant(2, 2, 6, 15),
    Line::Burst(
        2,
        2,
        &[0x80, 0, 0, 16, 0, 3, 0, 0, 0, 0, 0, 1, 0x11, 0x11, 0],
    ),
    Line::Grant(0, 1, 7, 15),
    Line::Burst(
        0,
        1,
        &[0x80, 0, 0, 0, 0, 0, 0, 0, 0, 0, 0, 1, 0x11, 0x11, 1],
    ),
    Line::Grant(0, 2, 7, 15),
    Line::Burst(
        0,
        2,
        &[0x80, 0, 0, 8, 0, 4, 0, 0, 0, 0, 0, 1, 0x11, 0x11, 2],
    ),
];

const FLOWS: [FlowRecord; 2] = [FLOW, FlowRecord { sfid: 7, ..FLOW }];

/// Receives the two flows, and counts their frames and requests.
fn receive_counted<R>(
    alloc: Global,
    rt: R,
    frames: &Arc<ByFlow, Global>,
    requests: &Arc<ByFlow, Global>,
) -> Result<Outcome, RunFault>
where
    R: Threads + Wait + Copy + Send + 'static,
{
    let taps = Taps {
        frames: CountingFlows::new(frames)?,
        requests: CountingFlows::new(requests)?,
    };
    let trace = trace_of(alloc, &FLOWS, &CROSSED, &TWO_FLOWS)?;
    receive_with(alloc, rt, trace, taps)
}

/// Whether two flows gave one frame and two frames.
fn gave_one_and_two(flows: &[FlowOutcome]) -> bool {
    match flows {
        [first, second] => first.frames.len() == 1 && second.frames.len() == 2,
        _ => false,
    }
}

/// A tap that was told flow 0 each time, or the channel of a request, would count otherwise.
#[test]
fn taps_are_told_the_flow(rt: HostRuntime) -> Result<(), Fail> {
    let frames = ByFlow::none(rt.alloc())?;
    let requests = ByFlow::none(rt.alloc())?;
    let outcome = receive_counted(rt.alloc(), rt, &frames, &requests)?;
    frames.expect_shown(&rt, "frames", [1, 2, 0]);
    requests.expect_shown(&rt, "requests", [3, 1, 0]);
    assert!(rt; gave_one_and_two(&outcome.flows));
    Ok(())
}

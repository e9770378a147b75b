//! Each allocation is refused once: what was handed in and given until then is a front of what is
//! handed in and given in the end, and flows that are made anew give all of it.
use crate::flows_of_captures::{Seen, bursts_of_each_kind, given_of_each_kind, map_of, verdict_of};
use crate::some_flows::{bursts_of_two, map_of_two};
use capture_map::CaptureMap;
use capture_rules::Arrival;
use captured_flows::{CaptureConsumer, CapturedBurst, CapturedFlows, FlowFault, SoundBurst, Waits};
use consumer::Consumer;
use docsis_wire::{Bytes, NoCheck};
use flow_core::FlowCounts;
use flow_selection::{Selection, Shard};
use lane::Request;
use loss_rule::LossRule;
use receiver::{Reply, SegmentVerdict, SetupError};
use std::alloc::{AllocError, Global};
use std::process::Abort;
use std::test::Fail;

/// How much is seen at most.
const MOST: usize = 24;

/// Notes what is seen without an allocation.
#[derive(Drop)]
struct Log {
    seen: [Option<Seen>; MOST],
    count: usize,
}

impl Log {
    fn new() -> Log {
        Log {
            seen: [None; MOST],
            count: 0,
        }
    }

    fn note(&mut self, one: Seen) {
        if self.count < MOST {
            self.seen[self.count] = Some(one);
            self.count += 1;
        }
    }

    /// Whether what was seen is the front of this, which is as long.
    fn is_front_of(&self, wanted: &[Seen]) -> bool {
        let mut given = self.seen.iter().flatten();
        let is_same = wanted
            .iter()
            .zip(&mut given)
            .all(|(wanted, given)| *wanted == *given);
        is_same && self.count <= wanted.len()
    }
}

impl Consumer for Log {
    ghost after = { λ _ _ _. Unit {0} };

    fn frame(&mut self, flow: usize, frame: Bytes) {
        let last = frame.as_slice().last().copied();
        self.note(Seen::Frame(flow, last.unwrap_or(0)));
    }

    fn request(&mut self, request: Request) {
        self.note(Seen::Request(request.channel));
    }
}

impl CaptureConsumer for Log {
    ghost saw = { λ _ _ _. Unit {0} };

    ghost begins = { λ _. tt };

    ghost sees = { λ _ _ _ _ _ _ _. tt };

    fn hand_in(&mut self, flow: usize, burst: &Arrival<SoundBurst>) {
        self.note(Seen::HandedIn(flow, burst.time, burst.item.burst_id));
    }

    fn replied(&mut self, flow: usize, burst_id: Option<u64>, reply: Reply) {
        self.note(Seen::Replied(flow, burst_id, verdict_of(reply)));
    }

    fn begin_anew(&mut self, flow: usize, counts: FlowCounts) {
        self.note(Seen::BeganAnew(flow, counts.kept, counts.lost));
    }
}

/// What is handed in, and whose frames are joined.
#[derive(Drop)]
struct Capture {
    map: CaptureMap,
    bursts: Vec<CapturedBurst>,
    selected: Selection,
}

/// Bursts of each kind of one flow.
fn of_one_flow(alloc: Global) -> Result<Capture, AllocError> {
    Ok(Capture {
        map: map_of(alloc, Some(5), 16, 1)?,
        bursts: bursts_of_each_kind(alloc)?,
        selected: Selection::All,
    })
}

/// Bursts of two flows, of which the first alone is selected.
fn of_two_flows(alloc: Global) -> Result<Capture, AllocError> {
    let mut bursts = bursts_of_two(alloc, false)?;
    bursts.append(&mut bursts_of_two(alloc, true)?)?;
    Ok(Capture {
        map: map_of_two(alloc)?,
        bursts,
        selected: Selection::Shard(Shard {
            remainder: 0,
            count: 2,
        }),
    })
}

/// What is kept of the first flow since it began last, where all bursts come to flows that are made
/// for them, wait no more and are closed.
fn kept_of_capture(alloc: Global, capture: Capture, log: &mut Log) -> Result<u64, FlowFault> {
    let waits = Waits {
        reorder: 0,
        wait: 20,
    };
    let Capture {
        map,
        bursts,
        selected,
    } = capture;
    let mut captured = match CapturedFlows::new(
        alloc,
        map,
        LossRule::Decided,
        waits,
        selected,
        NoCheck,
    ) {
        Ok(captured) => captured,
        Err(SetupError::OutOfMemory) => return Err(FlowFault::OutOfMemory),
        Err(_) => return Err(FlowFault::NotThere),
    };
    captured.take_all(alloc, bursts, log)?;
    captured.end_waiting(alloc, log)?;
    let (_, closed) = captured.into_receiver().close(alloc, log);
    match closed {
        Ok(closed) => Ok(closed.flows.first().map_or(0, |counts| counts.kept)),
        Err(_) => Err(FlowFault::OutOfMemory),
    }
}

/// The same of one flow, or of two, of which the first alone is selected.
fn kept_of_flows(alloc: Global, flows: usize, log: &mut Log) -> Result<u64, FlowFault> {
    let capture = if flows == 1 {
        of_one_flow(alloc)
    } else {
        of_two_flows(alloc)
    };
    match capture {
        Ok(capture) => kept_of_capture(alloc, capture, log),
        Err(AllocError) => Err(FlowFault::OutOfMemory),
    }
}

/// What is seen of two flows, of which the first alone is selected: of the second each burst, what
/// became of it and its request, but no frame, nor that it begins anew.
fn seen_of_two_flows() -> [Seen; 20] {
    let kept = Some(SegmentVerdict::Kept);
    [
        Seen::HandedIn(1, 2, Some(2)),
        Seen::Replied(1, Some(2), kept),
        Seen::HandedIn(0, 1, Some(1)),
        Seen::Request(0),
        Seen::Frame(0, 51),
        Seen::Replied(0, Some(1), kept),
        Seen::HandedIn(1, 3, Some(3)),
        Seen::Request(0),
        Seen::Replied(1, Some(3), kept),
        Seen::HandedIn(1, 35, Some(35)),
        Seen::Replied(1, Some(35), kept),
        Seen::HandedIn(0, 4, Some(4)),
        Seen::Frame(0, 52),
        Seen::Replied(0, Some(4), kept),
        Seen::BeganAnew(0, 2, 0),
        Seen::HandedIn(0, 215, Some(215)),
        Seen::Frame(0, 53),
        Seen::Replied(0, Some(215), kept),
        Seen::HandedIn(1, 125, Some(125)),
        Seen::Replied(1, Some(125), kept),
    ]
}

/// Hands the bursts of so many flows in, and once more where the first time an allocation was
/// refused; what was seen until then is the front of what is seen at last.
fn expect_seen(
    rt: &(impl Print + Abort),
    alloc: Global,
    flows: usize,
    wanted: &[Seen],
) -> Result<(), Fail> {
    let mut log = Log::new();
    let mut kept = kept_of_flows(alloc, flows, &mut log);
    if kept == Err(FlowFault::OutOfMemory) {
        println!(rt; "refused")?;
        assert!(rt; log.is_front_of(wanted));
        log = Log::new();
        kept = kept_of_flows(alloc, flows, &mut log);
    }
    assert!(rt; kept == Ok(1));
    assert!(rt; log.is_front_of(wanted));
    assert!(rt; log.count == wanted.len());
    Ok(())
}

#[test]
fn bursts_come_to_their_flow(rt: HostRuntime) -> Result<(), Fail> {
    expect_seen(&rt, rt.alloc(), 1, &given_of_each_kind())
}

#[test]
fn bursts_come_to_the_selected_flow(rt: HostRuntime) -> Result<(), Fail> {
    expect_seen(&rt, rt.alloc(), 2, &seen_of_two_flows())
}

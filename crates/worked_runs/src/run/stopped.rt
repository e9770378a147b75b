//! Receivers of endless sources that are told to stop.
use super::count::Count;
use super::numbered::segment_of;
use docsis_wire::{Bytes, NoCheck};
use flow_core::{FlowCounts, FlowRecord};
use std::alloc::{AllocError, Global};
use std::process::Abort;
use std::sync::{Arc, Wait};
use std::test::Fail;
use std::thread;
use std::thread::Threads;
use std::time::{Clock, Duration};
use uplink::{
    ChannelInput, Consumer, Decision, Forgets, Input, LaneTally, LiveDecisions, LiveSource,
    LossRule, ReceiveError, Received, Request, Setup, SidRow, Sources, Stoppable, Stopper, Width,
    receive,
};
use worked_traces::outcomes::NO_COUNTS;
use worked_traces::traces::{FLOW, setup_of};

/// Segments with a frame each without end on one channel, each in a grant of its size. It counts
/// those that it gave.
#[derive(Drop)]
struct Endless {
    alloc: Global,
    channel: u8,
    number: u16,
    is_granted: bool,
    given: Arc<Count, Global>,
}

impl Endless {
    fn new(
        alloc: Global,
        channel: u8,
        given: &Arc<Count, Global>,
        stopper: &Stopper,
    ) -> Result<Stoppable<Endless>, AllocError> {
        let endless = Endless {
            alloc,
            channel,
            number: 0,
            is_granted: false,
            given: Arc::try_clone(given)?,
        };
        Ok(Stoppable::new(endless, stopper.try_clone()?))
    }

    /// The grant of the next segment. The channel's service identifier is one more than its number.
    fn grant(&self) -> Input {
        Input::Grant {
            number: u32::from(self.number),
            sid: u16::from(self.channel).saturating_add(1),
            bytes: 15,
        }
    }

    /// The burst of the grant that it gave last.
    fn burst(&mut self) -> Option<Input> {
        let segment = segment_of(self.number, 0);
        let bytes = Vec::from_slice(self.alloc, &segment).ok()?;
        let grant = u32::from(self.number);
        self.number = self.number.wrapping_add(1) % 8192;
        self.given.add();
        Some(Input::Burst {
            grant,
            hcs_ok: true,
            bytes: Bytes::from(bytes),
        })
    }
}

impl LiveSource for Endless {
    ghost gave = { λ _ _ _. Unit {0} };

    ghost is_over = { λ _. Unit {0} };

    fn next(&mut self) -> Option<ChannelInput> {
        self.is_granted = !self.is_granted;
        let input = if self.is_granted {
            self.grant()
        } else {
            self.burst()?
        };
        Some(ChannelInput {
            channel: self.channel,
            input,
        })
    }
}

/// Decisions without end, none of which names a flow.
#[derive(Drop)]
struct EndlessDecisions;

impl LiveDecisions for EndlessDecisions {
    ghost gave = { λ _ _ _. Unit {0} };

    ghost is_over = { λ _. Unit {0} };

    fn next(&mut self) -> Option<Decision> {
        thread::yield_now();
        Some(Decision {
            flow: 99,
            upto: None,
        })
    }
}

/// Looks whether the frames of each of four flows come in order, and tells the sources to stop when
/// so many came.
#[derive(Drop)]
struct StopsAfter {
    left: u64,
    stopper: Stopper,
    came: [u64; 4],
    are_in_order: bool,
}

impl StopsAfter {
    fn new(left: u64, stopper: &Stopper) -> Result<StopsAfter, AllocError> {
        Ok(StopsAfter {
            left,
            stopper: stopper.try_clone()?,
            came: [0; 4],
            are_in_order: true,
        })
    }

    /// Whether this is the next frame of its flow, which is one that is there.
    fn is_next(&mut self, flow: usize, frame: &Bytes) -> bool {
        let Some(came) = self.came.get_mut(flow) else {
            return false;
        };
        let [low, ..] = came.to_le_bytes();
        *came = came.saturating_add(1);
        frame.as_slice().last() == Some(&low)
    }
}

impl Consumer for StopsAfter {
    ghost after = { λ _ _ _. Unit {0} };

    fn frame(&mut self, flow: usize, frame: Bytes) {
        if !self.is_next(flow, &frame) {
            self.are_in_order = false;
        }
        self.left = self.left.saturating_sub(1);
        if self.left == 0 {
            self.stopper.stop();
        }
    }

    fn request(&mut self, _request: Request) {}
}

const fn flow(sfid: u32) -> FlowRecord {
    FlowRecord { sfid, ..FLOW }
}

const fn row(channel: u8, sid: u16, flow: usize) -> SidRow {
    SidRow { channel, sid, flow }
}

/// Four flows, one on each channel, with little room.
fn four_flows(alloc: Global) -> Result<Setup, AllocError> {
    let flows = [flow(1), flow(2), flow(3), flow(4)];
    let rows = [row(0, 1, 0), row(1, 2, 1), row(2, 3, 2), row(3, 4, 3)];
    let mut setup = setup_of(alloc, &flows, &rows)?;
    setup.mailbox = 1;
    Ok(setup)
}

/// How many segments each of four sources gave.
#[derive(Drop)]
struct Given {
    counts: [Arc<Count, Global>; 4],
}

impl Given {
    fn nothing(alloc: Global) -> Result<Given, AllocError> {
        Ok(Given {
            counts: [
                Count::shared(alloc)?,
                Count::shared(alloc)?,
                Count::shared(alloc)?,
                Count::shared(alloc)?,
            ],
        })
    }

    fn each(&self) -> [u64; 4] {
        let [c0, c1, c2, c3] = &self.counts;
        [c0.value(), c1.value(), c2.value(), c3.value()]
    }
}

type Answer = Result<Received<StopsAfter, Forgets>, ReceiveError<StopsAfter, Forgets>>;

/// Receives what four endless sources give until they are stopped.
fn receive_until_stopped<R>(
    alloc: Global,
    rt: R,
    given: &Given,
    stopper: &Stopper,
    consumer: StopsAfter,
) -> Result<Answer, AllocError>
where
    R: Threads + Wait + Copy + Send + 'static,
{
    let [g0, g1, g2, g3] = &given.counts;
    let sources = Sources {
        s0: Endless::new(alloc, 0, g0, stopper)?,
        s1: Endless::new(alloc, 1, g1, stopper)?,
        s2: Endless::new(alloc, 2, g2, stopper)?,
        s3: Endless::new(alloc, 3, g3, stopper)?,
    };
    let decisions = Stoppable::new(EndlessDecisions, stopper.try_clone()?);
    Ok(receive(
        alloc,
        rt,
        Width::PROFILE,
        four_flows(alloc)?,
        LossRule::Decided,
        sources,
        decisions,
        consumer,
        Forgets,
        NoCheck,
    ))
}

/// Whether so many segments of each flow were kept, and as many frames given.
fn are_counted(flows: &[FlowCounts], came: &[u64]) -> bool {
    let counted = |(counts, count): (&FlowCounts, &u64)| {
        *counts
            == FlowCounts {
                kept: *count,
                frames: *count,
                ..NO_COUNTS
            }
    };
    flows.len() == came.len() && flows.iter().zip(came).all(counted)
}

/// All segments that the sources gave were admitted and kept, and all their frames came in order.
fn expect_nothing_lost(rt: &impl Abort, answer: Answer, given: &Given) {
    let Ok(received) = answer else {
        assert!(rt; false, "not received");
        return;
    };
    let came = given.each();
    let admitted = |(lane, count): (&LaneTally, &u64)| lane.admitted == *count;
    assert!(rt; received.lanes.len() == 4, "lanes");
    assert!(rt; received.lanes.iter().zip(&came).all(admitted), "admitted");
    assert!(rt; are_counted(&received.flows, &came), "counts");
    assert!(rt; received.consumer.came == came, "frames");
    assert!(rt; received.consumer.are_in_order, "order");
}

/// Enough that each source gave something, as a rule, and more than any mailbox has room for.
const FRAMES: u64 = 1000;

#[test]
fn consumer_stops_a_receiver(rt: HostRuntime) -> Result<(), Fail> {
    let alloc = rt.alloc();
    let given = Given::nothing(alloc)?;
    let stopper = Stopper::new(alloc)?;
    let consumer = StopsAfter::new(FRAMES, &stopper)?;
    let answer = receive_until_stopped(alloc, rt, &given, &stopper, consumer)?;
    expect_nothing_lost(&rt, answer, &given);
    Ok(())
}

/// Looks each millisecond, for a minute at most, until a source gave enough, and stops it.
fn stop_at<R: Clock>(rt: &R, stopper: &Stopper, given: &Count) {
    for _ in 0..60_000 {
        if given.value() >= FRAMES {
            break;
        }
        thread::sleep(rt, Duration::from_millis(1));
    }
    stopper.stop();
}

#[test]
fn another_thread_stops_a_receiver(rt: HostRuntime) -> Result<(), Fail> {
    let alloc = rt.alloc();
    let given = Given::nothing(alloc)?;
    let stopper = Stopper::new(alloc)?;
    let [_, _, _, last] = &given.counts;
    let (theirs, count) = (stopper.try_clone()?, Arc::try_clone(last)?);
    let teller = thread::spawn(&rt, move || stop_at(&rt, &theirs, &count))?;
    let consumer = StopsAfter::new(u64::MAX, &stopper)?;
    let answer = receive_until_stopped(alloc, rt, &given, &stopper, consumer)?;
    teller.join(&rt);
    expect_nothing_lost(&rt, answer, &given);
    assert!(rt; last.value() >= FRAMES, "segments");
    Ok(())
}

/// Whether it gives something, if it is asked.
fn gives<S: LiveSource>(source: &mut S) -> bool {
    source.next().is_some()
}

fn decides<D: LiveDecisions>(decisions: &mut D) -> bool {
    decisions.next().is_some()
}

/// A grant and a burst are given, and from then on the source isn't asked.
#[test]
fn stopped_source_is_asked_no_more(rt: HostRuntime) -> Result<(), Fail> {
    let alloc = rt.alloc();
    let given = Count::shared(alloc)?;
    let stopper = Stopper::new(alloc)?;
    let mut source = Endless::new(alloc, 1, &given, &stopper)?;
    let mut decisions = Stoppable::new(EndlessDecisions, stopper.try_clone()?);
    let before = [
        gives(&mut source),
        gives(&mut source),
        decides(&mut decisions),
    ];
    assert!(rt; before == [true; 3]);
    assert!(rt; !stopper.is_stopped());
    stopper.stop();
    let after = [
        gives(&mut source),
        gives(&mut source),
        decides(&mut decisions),
    ];
    assert!(rt; after == [false; 3]);
    assert!(rt; stopper.is_stopped());
    assert!(rt; given.value() == 1);
    Ok(())
}

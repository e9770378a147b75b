//! Events of flows: that the definitions give the answers that were worked out by hand.
ghost use Rattle.std.specs.Prelude.{◌<◌, length, IfOk};
ghost use Rattle.docsis_wire.specs.Ready.{IsReady};
ghost use Rattle.flow_core.specs.Flows.{IsDrainedAt};

mod drained_flows;
mod failed_allocations;
mod gaps;
mod gaps_to;
mod records;
mod segment_order;
mod skips;
mod verdicts;
mod whole;

use docsis_wire::{HeaderCheck, NoCheck, Segment};
use flow_core::{Applied, Core, Event, FlowCounts, FlowRecord, Step};
use reorder::{Declared, Verdict};
use std::alloc::Global;
use std::process::Abort;
use std::test::Fail;
use worked_frames::samples::same_bytes;

/// Sequence numbers are 0 to 8191.
const SEQUENCE_NUMBERS: u16 = 8192;

/// Frames of seven bytes, which differ in their last one.
const FRAME_0: &[u8] = &[0, 0, 0, 1, 0x11, 0x11, 0];

const FRAME_1: &[u8] = &[0, 0, 0, 1, 0x11, 0x11, 1];

const FRAME_2: &[u8] = &[0, 0, 0, 1, 0x11, 0x11, 2];

const FRAME_3: &[u8] = &[0, 0, 0, 1, 0x11, 0x11, 3];

const FRAME_4: &[u8] = &[0, 0, 0, 1, 0x11, 0x11, 4];

/// A segment's number, its pointer, if a frame begins in it, and its payload.
#[derive(Clone, Copy)]
struct Part(u16, Option<u16>, &'static [u8]);

/// The first two frames, cut inside both of their headers.
const FIRST: Part = Part(0, Some(0), &[0, 0, 0, 2, 0x11]);

const SECOND: Part = Part(1, Some(3), &[0x11, 0xaa, 0xbb, 1, 1, 0, 3]);

const THIRD: Part = Part(2, None, &[0xe0, 0x22, 0x22, 0xcc, 0xdd]);

/// What is expected of a segment that arrives.
#[derive(Clone, Copy, Debug, PartialEq, Eq)]
enum Answer {
    Kept,
    Late,
    Repeat,
    Beyond,
}

/// A call on a flow, with the expected answer.
#[derive(Clone, Copy)]
enum Call {
    Arrive(Part, Answer),
    Gap(Declared),
    GapTo(u16, bool),
    SkipTo(u16, bool),
    CloseGap(bool),
    /// A step gives these frames.
    Frames(&'static [&'static [u8]]),
    /// No segment is next.
    Nothing,
    /// Kept, late, repeat, beyond, lost, frames, skipped.
    Counts([u64; 7]),
}

const fn record(sfid: u32, first: u16, window: u16) -> FlowRecord {
    FlowRecord {
        sfid,
        first,
        window,
        clusters: 1,
        ring: 1,
    }
}

const fn counts([kept, late, repeat, beyond, lost, frames, skipped]: [u64; 7]) -> FlowCounts {
    FlowCounts {
        kept,
        late,
        repeat,
        beyond,
        lost,
        frames,
        skipped,
    }
}

/// A core of one flow.
fn one_flow(alloc: Global, first: u16, window: u16) -> Result<Core<NoCheck>, Fail> {
    Ok(Core::new(alloc, &[record(0, first, window)], NoCheck)?)
}

/// The segment with these fields, and all others 0.
fn segment(alloc: Global, part: Part) -> Result<Segment, Fail>
    ensures { IfOk result IsReady }
{
    let Part(number, pointer, payload) = part;
    let first = match pointer {
        Some(pointer) => 0x8000 | pointer,
        None => 0,
    };
    let [b0, b1] = first.to_be_bytes();
    let [b2, b3] = (number << 3).to_be_bytes();
    let mut bytes = Vec::from_slice(alloc, &[b0, b1, b2, b3, 0, 0, 0, 0])?;
    bytes.extend_from_slice(payload)?;
    Ok(Segment::read(alloc, &bytes)?)
}

/// Every answer but `Kept` hands the segment back.
fn answer_of(verdict: &Verdict<Segment>, Part(number, _, payload): Part) -> Option<Answer> {
    let (answer, back) = match verdict {
        Verdict::Kept => return Some(Answer::Kept),
        Verdict::Late(back) => (Answer::Late, back),
        Verdict::Repeat(back) => (Answer::Repeat, back),
        Verdict::Beyond(back) => (Answer::Beyond, back),
    };
    let same = back.head.sequence == number && back.payload.as_slice() == payload;
    same.then_some(answer)
}

/// Ends the test if the core has no such flow, or one that isn't drained.
fn expect_drained<C: HeaderCheck + Drop>(rt: &impl Abort, core: &Core<C>, flow: usize)
    ensures exists { flow < length core.now.flows.items }
    ensures drained { IsDrainedAt core.now flow }
{
    assert!(rt; flow < core.flow_count());
    assert!(rt; core.is_drained(flow), "flow {flow} is not drained");
}

/// Calls a drained flow: an event or the close.
fn takes(
    rt: &impl Abort,
    alloc: Global,
    core: &mut Core<NoCheck>,
    flow: usize,
    call: Call,
) -> Result<bool, Fail> {
    expect_drained(rt, core, flow);
    Ok(match call {
        Call::Arrive(part, wanted) => {
            let segment = segment(alloc, part)?;
            match core.apply(Event::Arrive { flow, segment }) {
                Applied::Arrival(verdict) => answer_of(&verdict, part) == Some(wanted),
                _ => false,
            }
        }
        Call::Gap(wanted) => match core.apply(Event::Gap { flow }) {
            Applied::Decision(declared) => declared == wanted,
            _ => false,
        },
        Call::GapTo(number, wanted) => {
            assert!(rt; number < SEQUENCE_NUMBERS);
            match core.apply(Event::GapTo { flow, number }) {
                Applied::DecisionTo(declared) => declared == wanted,
                _ => false,
            }
        }
        Call::SkipTo(number, wanted) => {
            assert!(rt; number < SEQUENCE_NUMBERS);
            match core.apply(Event::SkipTo { flow, number }) {
                Applied::DecisionSkip(skipped) => skipped == wanted,
                _ => false,
            }
        }
        Call::CloseGap(wanted) => core.close_gap(flow) == wanted,
        _ => false,
    })
}

/// Makes one call, and says whether the answer is the expected one.
fn answers(
    rt: &impl Abort,
    alloc: Global,
    core: &mut Core<NoCheck>,
    flow: usize,
    call: Call,
) -> Result<bool, Fail> {
    assert!(rt; flow < core.flow_count());
    Ok(match call {
        Call::Frames(wanted) => match core.advance(alloc, flow)? {
            Step::Frames(frames) => same_bytes(&frames, wanted),
            Step::Nothing => false,
        },
        Call::Nothing => match core.advance(alloc, flow)? {
            Step::Frames(_) => false,
            Step::Nothing => core.is_drained(flow),
        },
        Call::Counts(wanted) => core.counts(flow) == counts(wanted),
        _ => takes(rt, alloc, core, flow, call)?,
    })
}

/// Makes the calls on one flow, and compares the answers.
fn play(
    rt: &impl Abort,
    alloc: Global,
    core: &mut Core<NoCheck>,
    flow: usize,
    calls: &[Call],
) -> Result<(), Fail> {
    for (place, call) in calls.iter().enumerate() {
        let right = answers(rt, alloc, core, flow, *call)?;
        assert!(rt; right, "call {place} on flow {flow}");
    }
    Ok(())
}

/// Makes the calls on a new flow that begins with the number 0 and has a window of 16.
fn play_new(rt: &impl Abort, alloc: Global, calls: &[Call]) -> Result<(), Fail> {
    play(rt, alloc, &mut one_flow(alloc, 0, 16)?, 0, calls)
}

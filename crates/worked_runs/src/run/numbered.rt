//! Segments with a frame each, every fourth of which comes on one channel.
use flow_core::{FlowCounts, FlowRecord};
use std::alloc::{AllocError, Global};
use std::process::Abort;
use uplink::{FlowOutcome, FrameList, Input, Lists, Outcome, Setup};
use worked_traces::outcomes::{NO_COUNTS, senders_of};
use worked_traces::traces::{FLOW, FOUR_ROWS, push_segment, setup_of};

/// A setup of one flow with this window on four channels. Its ring and its mailboxes have room for
/// one entry.
pub fn narrow(alloc: Global, window: u16) -> Result<Setup, AllocError> {
    let flow = FlowRecord { window, ..FLOW };
    let mut setup = setup_of(alloc, &[flow], &FOUR_ROWS)?;
    setup.mailbox = 1;
    Ok(setup)
}

/// The frame of a segment.
fn frame_of(number: u16) -> [u8; 7] {
    let [_, low] = number.to_be_bytes();
    [0, 0, 0, 1, 0x11, 0x11, low]
}

/// A segment that holds its whole frame, with a request of so many units.
pub fn segment_of(number: u16, units: u8) -> [u8; 15] {
    let [high, low] = (number << 3).to_be_bytes();
    let [f0, f1, f2, f3, f4, f5, f6] = frame_of(number);
    [
        0x80, 0, high, low, 0, units, 0, 0, f0, f1, f2, f3, f4, f5, f6,
    ]
}

/// So many segments on channel 0, each in a grant of its size and with a request of so many units.
pub fn inputs_on_channel_0(alloc: Global, all: u16, units: u8) -> Result<Vec<Input>, AllocError> {
    let mut inputs = Vec::new(alloc);
    for number in 0..all {
        let grant = u32::from(number);
        push_segment(alloc, &mut inputs, grant, 1, &segment_of(number, units))?;
    }
    Ok(inputs)
}

/// The first segment of a channel and every fourth behind it, each in a grant of its size.
fn inputs_of(alloc: Global, sid: u16, first: u16, all: u16) -> Result<Vec<Input>, AllocError> {
    let mut inputs = Vec::new(alloc);
    for number in (first..all).step_by(4) {
        let grant = u32::from(number);
        push_segment(alloc, &mut inputs, grant, sid, &segment_of(number, 0))?;
    }
    Ok(inputs)
}

/// So many segments, a fourth of them on each channel.
pub fn lists(alloc: Global, all: u16) -> Result<Lists, AllocError> {
    Ok(Lists {
        inputs: [
            inputs_of(alloc, 1, 0, all)?,
            inputs_of(alloc, 2, 1, all)?,
            inputs_of(alloc, 3, 2, all)?,
            inputs_of(alloc, 4, 3, all)?,
        ],
        decisions: Vec::new(alloc),
    })
}

/// Whether these are all frames, in the order of their numbers.
fn are_numbered(frames: &FrameList, all: u16) -> bool {
    frames.len() == usize::from(all) && are_first(frames, all)
}

/// Whether these are the first of so many frames, in the order of their numbers.
pub fn are_first(frames: &FrameList, all: u16) -> bool {
    let is_its_own = |number: u16| match frames.get(usize::from(number)) {
        Some(frame) => frame == frame_of(number).as_slice(),
        None => true,
    };
    frames.len() <= usize::from(all) && (0..all).all(is_its_own)
}

/// Whether the one flow gave all frames.
fn gave_all(flows: &[FlowOutcome], all: u16) -> bool {
    let count = u64::from(all);
    let counts = FlowCounts {
        kept: count,
        frames: count,
        ..NO_COUNTS
    };
    match flows {
        [flow] => flow.counts == counts && are_numbered(&flow.frames, all),
        _ => false,
    }
}

/// All frames came in the order of their numbers, whatever the order of the segments.
pub fn expect_frames(rt: &impl Abort, outcome: &Outcome, all: u16) {
    assert!(rt; gave_all(&outcome.flows, all));
    assert!(rt; outcome.order.len() == usize::from(all));
}

/// All frames came, and a fourth of the segments on each channel.
pub fn expect_all(rt: &impl Abort, outcome: &Outcome, all: u16) {
    expect_frames(rt, outcome, all);
    let each = usize::from(all / 4);
    assert!(rt; senders_of(&outcome.order) == [each, each, each, each, 0]);
}

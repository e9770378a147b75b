//! What comes of traces, and whether an outcome is that.
use crate::traces::FLOW;
use flow_core::FlowCounts;
use lane::{LaneReport, Request};
use receiver::{FlowOutcome, FrameList, Outcome};
use worked_frames::samples::{EXTENDED, PLAIN};

pub const NO_COUNTS: FlowCounts = FlowCounts {
    kept: 0,
    late: 0,
    repeat: 0,
    beyond: 0,
    lost: 0,
    frames: 0,
    skipped: 0,
};

pub const ONLY_EXTENDED: FlowCounts = FlowCounts {
    kept: 2,
    lost: 1,
    frames: 1,
    skipped: 3,
    ..NO_COUNTS
};

/// What a flow gives.
#[derive(Drop)]
pub struct Gives {
    pub sfid: u32,
    pub counts: FlowCounts,
    pub frames: &'static [&'static [u8]],
}

/// The flow of most traces gives nothing.
pub const NOTHING: Gives = Gives {
    sfid: FLOW.sfid,
    counts: NO_COUNTS,
    frames: &[],
};

/// What comes of a trace.
#[derive(Drop)]
pub struct Expected {
    pub flows: &'static [Gives],
    pub requests: [&'static [Request]; 4],
    /// How many bursts each channel admitted, and the numbers of its refusals.
    pub lanes: [(u64, &'static [u8]); 4],
    pub order: &'static [u8],
}

/// What comes of no flow.
pub const NO_FLOW: Expected = Expected {
    flows: &[],
    requests: [&[]; 4],
    lanes: [(0, &[]); 4],
    order: &[],
};

/// What comes of a flow without its first segment.
pub const SECOND_FRAME: Expected = Expected {
    flows: &[Gives {
        counts: ONLY_EXTENDED,
        frames: &[EXTENDED],
        ..NOTHING
    }],
    lanes: [(1, &[]), (1, &[]), (0, &[]), (0, &[])],
    order: &[1, 0],
    ..NO_FLOW
};

/// What comes of the second segment first.
pub const BOTH_FRAMES: Expected = Expected {
    flows: &[Gives {
        counts: FlowCounts {
            kept: 3,
            frames: 2,
            ..NO_COUNTS
        },
        frames: &[PLAIN, EXTENDED],
        ..NOTHING
    }],
    lanes: [(2, &[]), (1, &[]), (0, &[]), (0, &[])],
    order: &[1, 0, 0],
    ..NO_FLOW
};

/// Whether these are the wanted frames.
fn same_frames(frames: &FrameList, wanted: &[&[u8]]) -> bool {
    frames.len() == wanted.len()
        && wanted
            .iter()
            .enumerate()
            .all(|(index, want)| frames.get(index) == Some(*want))
}

fn gave(flow: &FlowOutcome, want: &Gives) -> bool {
    flow.sfid == want.sfid && flow.counts == want.counts && same_frames(&flow.frames, want.frames)
}

/// Whether there are as many flows, and each gave what is wanted of it.
pub fn all_gave(flows: &[FlowOutcome], wanted: &[Gives]) -> bool {
    flows.len() == wanted.len()
        && flows
            .iter()
            .zip(wanted)
            .all(|(flow, want)| gave(flow, want))
}

fn same_requests(requests: &[Vec<Request>; 4], wanted: &[&[Request]; 4]) -> bool {
    requests
        .iter()
        .zip(wanted)
        .all(|(came, want)| came.as_slice() == *want)
}

/// Whether each channel admitted so many bursts, and refused for these numbers.
pub fn same_lanes(lanes: &[LaneReport; 4], wanted: &[(u64, &[u8]); 4]) -> bool {
    lanes.iter().zip(wanted).all(|(lane, (admitted, refused))| {
        lane.admitted == *admitted && lane.refused.as_slice() == *refused
    })
}

/// How many items of an order came from each sender, 4 the decisions.
pub fn senders_of(order: &[u8]) -> [usize; 5] {
    let mut counts = [0; 5];
    for (sender, count) in counts.iter_mut().enumerate() {
        *count = order
            .iter()
            .filter(|from| usize::from(**from) == sender)
            .count();
    }
    counts
}

fn part_amiss_but_order(outcome: &Outcome, expected: &Expected) -> Option<&'static str> {
    if !all_gave(&outcome.flows, expected.flows) {
        return Some("flows");
    }
    if !same_requests(&outcome.requests, &expected.requests) {
        return Some("requests");
    }
    if !same_lanes(&outcome.lanes, &expected.lanes) {
        return Some("lanes");
    }
    None
}

/// What part of an outcome isn't as expected, if its items are to come in this order.
pub fn part_amiss(outcome: &Outcome, expected: &Expected, order: &[u8]) -> Option<&'static str> {
    let other = part_amiss_but_order(outcome, expected);
    if other.is_none() && outcome.order.as_slice() != order {
        return Some("order");
    }
    other
}

/// What part of an outcome isn't as expected, if its items may come in any order.
pub fn part_amiss_in_any_order(outcome: &Outcome, expected: &Expected) -> Option<&'static str> {
    let other = part_amiss_but_order(outcome, expected);
    if other.is_some() {
        return other;
    }
    let order = outcome.order.as_slice();
    if order.len() != expected.order.len() {
        return Some("length of the order");
    }
    if senders_of(order) != senders_of(expected.order) {
        return Some("senders of the order");
    }
    None
}

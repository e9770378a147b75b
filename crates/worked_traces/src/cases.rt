//! Traces of the one flow, and what one thread gives for them.
use crate::outcomes::*;
use crate::traces::*;
use flow_core::FlowCounts;
use lane::Request;
use worked_frames::samples::{EXTENDED, FIRST, SECOND, THIRD};

/// A trace of the one flow, its admitted order and what comes of it in that order.
#[derive(Drop)]
pub struct Case {
    pub name: &'static str,
    pub lines: &'static [Line],
    pub expected: Expected,
}

/// A request of the second SID cluster in the segment with number 1.
const SEVEN_UNITS: Request = Request {
    channel: 0,
    flow: 0,
    cluster: 1,
    units: 7,
    sequence: 1,
};

const FIVE_UNITS: Request = Request {
    units: 5,
    ..SEVEN_UNITS
};

pub const CASES: [Case; 6] = [
    Case {
        name: "nothing",
        lines: &[],
        expected: Expected {
            flows: &[NOTHING],
            ..NO_FLOW
        },
    },
    Case {
        name: "the second segment first",
        lines: &SECOND_FIRST,
        expected: BOTH_FRAMES,
    },
    Case {
        name: "a close without the first segment",
        lines: &FIRST_LOST,
        expected: SECOND_FRAME,
    },
    Case {
        name: "decisions that name no flow before one that does",
        lines: &[
            Line::Gap(1, None),
            Line::Grant(1, 1, 2, 15),
            Line::Burst(1, 1, SECOND),
            Line::Gap(0, Some(8192)),
            Line::Gap(0, None),
            Line::Gap(1, Some(0)),
            Line::Grant(0, 1, 1, 13),
            Line::Burst(0, 1, FIRST),
            Line::Grant(0, 2, 1, 13),
            Line::Burst(0, 2, THIRD),
        ],
        expected: Expected {
            flows: &[Gives {
                counts: FlowCounts {
                    late: 1,
                    ..ONLY_EXTENDED
                },
                frames: &[EXTENDED],
                ..NOTHING
            }],
            lanes: [(2, &[]), (1, &[]), (0, &[]), (0, &[])],
            order: &[1, 4, 0, 0],
            ..NO_FLOW
        },
    },
    Case {
        name: "a decision up to a number",
        lines: &[
            Line::Grant(0, 1, 1, 13),
            Line::Burst(0, 1, FIRST),
            Line::Gap(0, Some(2)),
            Line::Grant(0, 2, 1, 13),
            Line::Burst(0, 2, THIRD),
        ],
        expected: Expected {
            flows: &[Gives {
                counts: FlowCounts {
                    kept: 2,
                    lost: 1,
                    skipped: 10,
                    ..NO_COUNTS
                },
                ..NOTHING
            }],
            lanes: [(2, &[]), (0, &[]), (0, &[]), (0, &[])],
            order: &[0, 4, 0],
            ..NO_FLOW
        },
    },
    Case {
        name: "requests and refusals",
        lines: &[
            Line::Burst(3, 9, &[]),
            Line::Grant(0, 1, 1, 8),
            Line::Grant(3, 1, 1, 7),
            Line::Burst(0, 1, &[0; 8]),
            Line::Grant(0, 2, 1, 8),
            Line::Burst(0, 2, &[0, 0, 0, 9, 0, 7, 0, 0]),
            Line::Grant(3, 1, 1, 8),
            Line::Grant(0, 3, 1, 8),
            Line::Burst(0, 3, &[0, 0, 0, 0x12, 0, 9, 0, 0]),
            Line::Grant(0, 4, 1, 8),
            Line::Burst(0, 4, &[0, 0, 0, 9, 0, 5, 0, 0]),
        ],
        expected: Expected {
            flows: &[Gives {
                counts: FlowCounts {
                    kept: 3,
                    late: 1,
                    ..NO_COUNTS
                },
                ..NOTHING
            }],
            requests: [&[SEVEN_UNITS, FIVE_UNITS], &[], &[], &[]],
            lanes: [(4, &[]), (0, &[]), (0, &[]), (0, &[6, 1, 3])],
            order: &[0, 0, 0, 0],
        },
    },
];

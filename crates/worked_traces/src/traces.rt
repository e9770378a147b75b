//! Traces that tests replay, hand in and run.
ghost use Rattle.std.specs.Prelude.{◌<◌, length};

use docsis_wire::Bytes;
use flow_core::FlowRecord;
use lane::{Input, SidRow};
use receiver::{Decision, Lists, Setup};
use std::alloc::{AllocError, Global};
use worked_frames::samples::{FIRST, SECOND, THIRD};

/// A line of a trace.
#[derive(Clone, Copy)]
pub enum Line {
    /// On this channel a grant of this number, to this service identifier and of so many bytes.
    Grant(u8, u32, u16, u32),
    /// On this channel a burst in the grant of this number, with a right check.
    Burst(u8, u32, &'static [u8]),
    /// A decision on this flow, and the number up to which its segments are lost.
    Gap(usize, Option<u16>),
}

/// The flow of all traces.
pub const FLOW: FlowRecord = FlowRecord {
    sfid: 100,
    first: 0,
    window: 16,
    clusters: 2,
    ring: 1,
};

/// Its service identifier on channel 0.
pub const ROW_0: SidRow = SidRow {
    channel: 0,
    sid: 1,
    flow: 0,
};

/// That on channel 1.
pub const ROW_1: SidRow = SidRow {
    channel: 1,
    sid: 2,
    flow: 0,
};

pub const ROWS: [SidRow; 2] = [ROW_0, ROW_1];

/// Those of all channels: each is one more than the channel's index.
pub const FOUR_ROWS: [SidRow; 4] = [
    ROW_0,
    ROW_1,
    SidRow {
        channel: 2,
        sid: 3,
        flow: 0,
    },
    SidRow {
        channel: 3,
        sid: 4,
        flow: 0,
    },
];

/// The second of three segments comes first.
pub const SECOND_FIRST: [Line; 6] = [
    Line::Grant(0, 1, 1, 13),
    Line::Grant(1, 1, 2, 15),
    Line::Grant(0, 2, 1, 13),
    Line::Burst(1, 1, SECOND),
    Line::Burst(0, 1, FIRST),
    Line::Burst(0, 2, THIRD),
];

/// The first of the three segments doesn't come.
pub const FIRST_LOST: [Line; 4] = [
    Line::Grant(0, 2, 1, 13),
    Line::Grant(1, 1, 2, 15),
    Line::Burst(1, 1, SECOND),
    Line::Burst(0, 2, THIRD),
];

/// A setup, and what comes in.
#[derive(Drop)]
pub struct Trace {
    pub setup: Setup,
    pub lists: Lists,
}

/// The setup of these flows, and the inputs and decisions of these lines.
pub fn trace_of(
    alloc: Global,
    flows: &[FlowRecord],
    sids: &[SidRow],
    lines: &[Line],
) -> Result<Trace, AllocError> {
    Ok(Trace {
        setup: setup_of(alloc, flows, sids)?,
        lists: lists_of(alloc, lines)?,
    })
}

pub fn setup_of(alloc: Global, flows: &[FlowRecord], sids: &[SidRow]) -> Result<Setup, AllocError> {
    Ok(Setup {
        flows: Vec::from_slice(alloc, flows)?,
        sids: Vec::from_slice(alloc, sids)?,
        mailbox: 16,
    })
}

/// The grants and bursts of a channel.
pub fn inputs_of(alloc: Global, lines: &[Line], channel: u8) -> Result<Vec<Input>, AllocError> {
    let mut inputs = Vec::new(alloc);
    for line in lines {
        match *line {
            Line::Grant(at, number, sid, bytes) if at == channel => {
                inputs.push(Input::Grant { number, sid, bytes })?;
            }
            Line::Burst(at, grant, bytes) if at == channel => {
                let bytes = Bytes::from(Vec::from_slice(alloc, bytes)?);
                let hcs_ok = true;
                inputs.push(Input::Burst {
                    grant,
                    hcs_ok,
                    bytes,
                })?;
            }
            _ => {}
        }
    }
    Ok(inputs)
}

/// A grant to this service identifier of as many bytes as the segment has, and then its burst.
pub fn push_segment(
    alloc: Global,
    inputs: &mut Vec<Input>,
    number: u32,
    sid: u16,
    segment: &[u8],
) -> Result<(), AllocError>
    requires { length segment.now < 65536 }
{
    inputs.push(Input::Grant {
        number,
        sid,
        bytes: segment.len() as u32,
    })?;
    inputs.push(Input::Burst {
        grant: number,
        hcs_ok: true,
        bytes: Bytes::from(Vec::from_slice(alloc, segment)?),
    })?;
    Ok(())
}

/// The inputs of all channels and the decisions.
pub fn lists_of(alloc: Global, lines: &[Line]) -> Result<Lists, AllocError> {
    let mut decisions = Vec::new(alloc);
    for line in lines {
        if let Line::Gap(flow, upto) = *line {
            decisions.push(Decision { flow, upto })?;
        }
    }
    Ok(Lists {
        inputs: [
            inputs_of(alloc, lines, 0)?,
            inputs_of(alloc, lines, 1)?,
            inputs_of(alloc, lines, 2)?,
            inputs_of(alloc, lines, 3)?,
        ],
        decisions,
    })
}

/// The sender of each line.
pub fn tags_of(alloc: Global, lines: &[Line]) -> Result<Vec<u8>, AllocError> {
    let mut tags = Vec::new(alloc);
    for line in lines {
        tags.push(match *line {
            Line::Grant(channel, ..) | Line::Burst(channel, ..) => channel,
            Line::Gap(..) => 4,
        })?;
    }
    Ok(tags)
}

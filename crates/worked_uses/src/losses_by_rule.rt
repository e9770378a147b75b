//! Recorded inputs with a segment that is lost.
use docsis_wire::{Bytes, NoCheck};
use flow_core::FlowRecord;
use std::alloc::{AllocError, Global};
use std::test::Fail;
use uplink::{Input, Setup, SidRow};
use uses::losses_by_rule::receive_without_waiting;

/// The first half of a frame, its second half, half of a frame whose first half is lost, and
/// two frames: the segments 0, 1, 3, 4 and 5.
const SEGMENTS: [(u8, &[u8]); 5] = [
    (0, &[0x80, 0, 0, 0x00, 0, 0, 0, 0, 0, 0, 0, 2, 0x11]),
    (1, &[0, 0, 0, 0x08, 0, 0, 0, 0, 0x11, 0xaa, 0xbb]),
    (0, &[0, 0, 0, 0x18, 0, 0, 0, 0, 0x22, 0xaa, 0xbb]),
    (
        1,
        &[0x80, 0, 0, 0x20, 0, 0, 0, 0, 0, 0, 0, 1, 0x33, 0x33, 0xcc],
    ),
    (
        0,
        &[0x80, 0, 0, 0x28, 0, 0, 0, 0, 0, 0, 0, 1, 0x44, 0x44, 0xdd],
    ),
];

const FRAMES: [&[u8]; 3] = [
    &[0, 0, 0, 2, 0x11, 0x11, 0xaa, 0xbb],
    &[0, 0, 0, 1, 0x33, 0x33, 0xcc],
    &[0, 0, 0, 1, 0x44, 0x44, 0xdd],
];

/// A grant to the one service identifier, and the burst that comes in it.
fn push_granted(alloc: Global, inputs: &mut Vec<Input>, bytes: &[u8]) -> Result<(), AllocError> {
    inputs.push(Input::Grant {
        number: 1,
        sid: 1,
        bytes: 64,
    })?;
    inputs.push(Input::Burst {
        grant: 1,
        hcs_ok: true,
        bytes: Bytes::from(Vec::from_slice(alloc, bytes)?),
    })?;
    Ok(())
}

fn row(channel: u8) -> SidRow {
    SidRow {
        channel,
        sid: 1,
        flow: 0,
    }
}

#[test]
fn gives_the_frames_of_which_no_segment_is_lost(rt: HostRuntime) -> Result<(), Fail> {
    let alloc = rt.alloc();
    let flow_record = FlowRecord {
        sfid: 1,
        first: 0,
        window: 16,
        clusters: 1,
        ring: 1,
    };
    let setup = Setup {
        flows: Vec::from_slice(alloc, &[flow_record])?,
        sids: Vec::from_slice(alloc, &[row(0), row(1)])?,
        mailbox: 1,
    };
    let (mut i0, mut i1) = (Vec::new(alloc), Vec::new(alloc));
    let mut tags = Vec::new(alloc);
    for (channel, bytes) in SEGMENTS {
        if channel == 0 {
            push_granted(alloc, &mut i0, bytes)?;
        } else {
            push_granted(alloc, &mut i1, bytes)?;
        }
        tags.push(channel)?;
        tags.push(channel)?;
    }
    let inputs = [i0, i1, Vec::new(alloc), Vec::new(alloc)];
    let flows = receive_without_waiting(alloc, &setup, inputs, &tags, NoCheck)?;
    assert!(rt; flows.len() == 1);
    assert!(rt; flows[0].counts.lost == 1);
    assert!(rt; flows[0].frames.len() == FRAMES.len());
    for (index, wanted) in FRAMES.iter().enumerate() {
        assert!(rt; flows[0].frames.get(index) == Some(*wanted));
    }
    Ok(())
}

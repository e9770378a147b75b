//! A flow that begins in the midst.
use docsis_wire::{NoCheck, ReadySegment, Segment};
use flow_core::FlowRecord;
use lane::SidRow;
use loss_rule::LossRule;
use receiver::Setup;
use std::test::Fail;
use uses::midstream::{OnChannel, receive_from};

/// The segments 100, 101 and 99, with a frame in each.
const SEGMENTS: [&[u8]; 3] = [
    &[
        0x80, 0, 0x03, 0x20, 0, 0, 0, 0, 0, 0, 0, 1, 0x11, 0x11, 0xaa,
    ],
    &[
        0x80, 0, 0x03, 0x28, 0, 0, 0, 0, 0, 0, 0, 1, 0x22, 0x22, 0xbb,
    ],
    &[
        0x80, 0, 0x03, 0x18, 0, 0, 0, 0, 0, 0, 0, 1, 0x33, 0x33, 0xcc,
    ],
];

const FRAMES: [&[u8]; 2] = [
    &[0, 0, 0, 1, 0x11, 0x11, 0xaa],
    &[0, 0, 0, 1, 0x22, 0x22, 0xbb],
];

#[test]
fn gives_what_was_sent_from_a_number_far_ahead_on(rt: HostRuntime) -> Result<(), Fail> {
    let alloc = rt.alloc();
    let flow_record = FlowRecord {
        sfid: 1,
        first: 0,
        window: 4,
        clusters: 1,
        ring: 1,
    };
    let row = SidRow {
        channel: 0,
        sid: 1,
        flow: 0,
    };
    let setup = Setup {
        flows: Vec::from_slice(alloc, &[flow_record])?,
        sids: Vec::from_slice(alloc, &[row])?,
        mailbox: 1,
    };
    let mut came = Vec::new(alloc);
    for bytes in SEGMENTS {
        let segment = Segment::read(alloc, bytes)?;
        came.push(OnChannel {
            channel: 0,
            segment: ReadySegment { segment },
        })?;
    }
    let flows = receive_from(alloc, LossRule::Decided, &setup, 0, 100, came, NoCheck)?;
    assert!(rt; flows.len() == 1);
    assert!(rt; flows[0].counts.kept == 2);
    assert!(rt; flows[0].counts.late == 1);
    assert!(rt; flows[0].counts.beyond == 0);
    assert!(rt; flows[0].counts.lost == 100);
    assert!(rt; flows[0].frames.len() == FRAMES.len());
    for (index, wanted) in FRAMES.iter().enumerate() {
        assert!(rt; flows[0].frames.get(index) == Some(*wanted));
    }
    Ok(())
}

//! A flow that is played to its close.
use docsis_wire::{NoCheck, Segment};
use flow_core::{FlowRecord, SetupFault};
use std::alloc::Global;
use std::test::Fail;
use uses::one_flow::play;

/// Plays segments with these bytes, and answers how many frames come.
fn played(alloc: Global, first: u16, all: &[&[u8]]) -> Result<Result<usize, SetupFault>, Fail> {
    let mut segments = Vec::new(alloc);
    for bytes in all {
        segments.push(Segment::read(alloc, bytes)?)?;
    }
    let flow_record = FlowRecord {
        sfid: 1,
        first,
        window: 16,
        clusters: 1,
        ring: 1,
    };
    let frames = play(alloc, flow_record, NoCheck, segments);
    Ok(frames.map(|frames| frames.len()))
}

#[test]
fn gives_the_frames_whose_segments_came(rt: HostRuntime) -> Result<(), Fail> {
    let alloc = rt.alloc();
    let front: &[u8] = &[0x80, 0, 0, 0, 0, 0, 0, 0, 0, 0, 0, 2, 0x11];
    let last: &[u8] = &[0, 0, 0, 8, 0, 0, 0, 0, 0x11, 0xaa, 0xbb];
    let whole: &[u8] = &[
        0x80, 0, 0, 24, 0, 0, 0, 0, 0, 0, 0, 2, 0x22, 0x22, 0xaa, 0xbb,
    ];
    assert!(rt; played(alloc, 0, &[last, front])? == Ok(1));
    assert!(rt; played(alloc, 0, &[front, front, whole, last])? == Ok(2));
    assert!(rt; played(alloc, 0, &[whole, front])? == Ok(1));
    assert!(rt; played(alloc, 8192, &[front])? == Err(SetupFault::BadFlow(0)));
    Ok(())
}

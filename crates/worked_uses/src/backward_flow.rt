//! Segments of a flow that come backwards.
use docsis_wire::{NoCheck, ReadySegment, Segment};
use std::alloc::Global;
use std::test::Fail;
use uses::flow::frames_in_order;

fn ready(alloc: Global, bytes: &[u8]) -> Result<ReadySegment, Fail> {
    let segment = Segment::read(alloc, bytes)?;
    Ok(ReadySegment { segment })
}

#[test]
fn joins_segments_that_come_backwards(rt: HostRuntime) -> Result<(), Fail> {
    let alloc = rt.alloc();
    let last = ready(alloc, &[0, 0, 0, 8, 0, 0, 0, 0, 0x11, 0xaa, 0xbb])?;
    let front = ready(alloc, &[0x80, 0, 0, 0, 0, 0, 0, 0, 0, 0, 0, 2, 0x11])?;
    let offers = vec![in alloc; (1, last), (0, front)]?;
    let frames = frames_in_order(alloc, 0, 16, offers, &NoCheck)?;
    assert!(rt; frames.len() == 1);
    let frame: &[u8] = &[0, 0, 0, 2, 0x11, 0x11, 0xaa, 0xbb];
    assert!(rt; frames.iter().all(|one| one.as_slice() == frame));
    Ok(())
}

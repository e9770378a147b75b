//! Bursts and frames with right and wrong check sequences.
use ccf::Joiner;
use std::test::Fail;
use uses::header_check::feed_checked_burst;

/// A wrong sequence of a segment header keeps the segment out; one of a frame's header ends the
/// walk of its segment, and the frame before it stands.
#[test]
fn joins_what_has_right_sequences(rt: HostRuntime) -> Result<(), Fail> {
    let alloc = rt.alloc();
    let mut bytes = [
        0x80, 0, 0, 0, 0, 0, 0x2d, 0xf2, 0, 0, 0, 2, 0xcc, 0xdf, 0xaa, 0xbb, 0, 0, 0, 2, 0xcc,
        0xde, 0xaa, 0xbb,
    ];
    let mut joiner = Joiner::new(alloc);
    let fed = feed_checked_burst(&mut joiner, alloc, &bytes)?.ok_or("a right header")?;
    assert!(rt; fed.frames.len() == 1);
    assert!(rt; fed.skipped == 8);
    bytes[3] = 8;
    assert!(rt; feed_checked_burst(&mut joiner, alloc, &bytes)?.is_none());
    assert!(rt; feed_checked_burst(&mut joiner, alloc, &bytes[..7])?.is_none());
    Ok(())
}

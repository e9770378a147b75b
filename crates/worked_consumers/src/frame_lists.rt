//! Lists of frames, short ones and long ones by turns.
mod failed_allocations;

use consumer::FrameList;
use docsis_wire::Bytes;
use std::alloc::{AllocError, Global};
use std::process::Abort;
use std::test::Fail;

/// From 64 bytes on a frame keeps memory of its own.
const LENGTHS: [usize; 8] = [7, 64, 0, 63, 65, 1, 64, 6];

/// A frame of so many bytes, each of which is its place.
fn frame(alloc: Global, place: u8, len: usize) -> Result<Bytes, AllocError> {
    let mut bytes = Vec::with_capacity(alloc, len)?;
    for _ in 0..len {
        bytes.push(place)?;
    }
    Ok(Bytes::from(bytes))
}

/// A list of frames of these lengths.
fn listed(alloc: Global, lengths: &[usize]) -> Result<FrameList, AllocError> {
    let mut frames = FrameList::new(alloc);
    for (place, len) in (0..).zip(lengths) {
        frames.push(frame(alloc, place, *len)?)?;
    }
    Ok(frames)
}

/// Compares the frames of a list: of these lengths, and each of its place.
fn expect_listed(rt: &impl Abort, frames: &FrameList, lengths: &[usize]) {
    assert!(rt; frames.len() == lengths.len());
    for (index, (place, len)) in (0_u8..).zip(lengths).enumerate() {
        let Some(found) = frames.get(index) else {
            assert!(rt; false, "no frame {index}");
            return;
        };
        assert!(rt; found.len() == *len);
        assert!(rt; found.iter().all(|byte| *byte == place));
    }
    assert!(rt; frames.get(lengths.len()).is_none());
    let mut count = 0;
    for frame in frames {
        assert!(rt; frames.get(count) == Some(frame));
        count += 1;
    }
    assert!(rt; count == lengths.len());
    assert!(rt; frames.iter().size_hint() == (count, Some(count)));
}

#[test]
fn frames_stay_in_order(rt: HostRuntime) -> Result<(), Fail> {
    let none = FrameList::new(rt.alloc());
    assert!(rt; none.is_empty());
    expect_listed(&rt, &none, &[]);
    let frames = listed(rt.alloc(), &LENGTHS)?;
    assert!(rt; !frames.is_empty());
    expect_listed(&rt, &frames, &LENGTHS);
    Ok(())
}

#[test]
fn list_is_filled_again(rt: HostRuntime) -> Result<(), Fail> {
    let mut frames = listed(rt.alloc(), &LENGTHS)?;
    frames.clear();
    expect_listed(&rt, &frames, &[]);
    frames.push(frame(rt.alloc(), 0, 5)?)?;
    frames.push(frame(rt.alloc(), 1, 70)?)?;
    expect_listed(&rt, &frames, &[5, 70]);
    Ok(())
}

#[test]
fn frames_are_printed_as_their_bytes(rt: HostRuntime) -> Result<(), Fail> {
    let frames = listed(rt.alloc(), &[2, 0, 1])?;
    let mut text = String::new(rt.alloc());
    write!(text, "{frames:?}")?;
    assert!(rt; text.as_str() == "[[0, 0], [], [2]]");
    Ok(())
}

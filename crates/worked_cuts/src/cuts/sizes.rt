//! Cuts of great sizes.
use super::{named, owned};
use docsis_wire::{Bytes, Cutter, FillByte, NoCheck, Piece, Segment, cut};
use std::alloc::{AllocError, Global};
use std::process::Abort;
use std::test::Fail;
use worked_frames::samples::PLAIN;

/// Frames without payload end to end.
fn many_frames(alloc: Global) -> Result<Vec<Bytes>, AllocError> {
    let mut frames = Vec::new(alloc);
    for number in 0..23_400_u32 {
        let mark = 1 + (number % 255) as u8;
        let frame = Vec::from_slice(alloc, &[0, mark, 0, 0, 0, 0])?;
        frames.push(Bytes::from(frame))?;
    }
    Ok(frames)
}

/// Ends the test if the segment in this place is another: two bytes of a frame, which begins in
/// every third segment.
fn expect_third_of_a_frame(rt: &impl Abort, place: usize, segment: &Segment) {
    let starts = place % 3 == 0;
    let mark = if starts {
        1 + (place / 3 % 255) as u8
    } else {
        0
    };
    let head = segment.head;
    let found = (head.pfi, head.pointer, usize::from(head.sequence));
    let number = (8000 + place % 8192) % 8192;
    assert!(rt; found == (starts, 0, number), "{place}");
    let has_payload = segment.payload.as_slice() == [0, mark].as_slice();
    assert!(rt; has_payload, "{place}");
}

/// Ends the test if these are two segments.
fn expect_same_segment(rt: &impl Abort, place: usize, made: &Segment, wanted: &Segment) {
    let is_payload = made.payload.as_slice() == wanted.payload.as_slice();
    assert!(rt; made.head == wanted.head, "{place}");
    assert!(rt; is_payload, "{place}");
}

/// Ends the test if the frames are cut into other segments one by one.
fn expect_one_by_one(
    rt: &impl Abort,
    alloc: Global,
    cutter: &mut Cutter<'_>,
    segments: &[Segment],
) -> Result<(), Fail> {
    for (place, segment) in segments.iter().enumerate() {
        let parts = cutter.next().ok_or("too few")?;
        let made = parts.to_segment(alloc)?;
        expect_same_segment(rt, place, &made, segment);
    }
    assert!(rt; cutter.next().is_none());
    Ok(())
}

/// Frames without payload end to end, in more than 70,000 pieces of two bytes: three pieces a
/// frame.
#[test]
fn cuts_into_many_pieces(rt: HostRuntime) -> Result<(), Fail> {
    let frames = many_frames(rt.alloc())?;
    let pieces = vec![in rt.alloc(); Piece { bytes: 2, fill: 0 }; 70_200]?;
    let segments = cut(rt.alloc(), &frames, &pieces, 8000, FillByte::Ones, &NoCheck)?;
    assert!(rt; segments.len() == 70_200);
    for (place, segment) in segments.iter().enumerate() {
        expect_third_of_a_frame(&rt, place, segment);
    }
    let mut cutter = Cutter::new(&frames, &pieces, 8000, FillByte::Ones, &NoCheck)?;
    expect_one_by_one(&rt, rt.alloc(), &mut cutter, &segments)
}

/// Fill is given 64 bytes at a time, and what is left of it.
#[test]
fn fill_comes_in_parts(rt: HostRuntime) -> Result<(), Fail> {
    let frames = owned(rt.alloc(), &[PLAIN])?;
    let pieces = named(rt.alloc(), &[(8, 150)])?;
    let mut cutter = Cutter::new(&frames, &pieces, 0, FillByte::Ones, &NoCheck)?;
    let mut parts = cutter.next().ok_or("too few")?;
    assert!(rt; parts.next_part() == Some(PLAIN));
    for (place, length) in [64, 64, 22].iter().enumerate() {
        let part = parts.next_part().ok_or("too few parts")?;
        assert!(rt; part.len() == *length, "{place}");
        let is_fill = part.iter().all(|byte| *byte == 0xFF);
        assert!(rt; is_fill, "{place}");
    }
    assert!(rt; parts.next_part().is_none());
    assert!(rt; parts.next_part().is_none());
    Ok(())
}

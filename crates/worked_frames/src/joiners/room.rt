//! The room in which a frame is given that came in parts: none for fill, and none beyond its size.
use super::feed_bytes;
use crate::expect::{expect_same, expect_true};
use ccf::Joiner;
use docsis_wire::NoCheck;
use std::alloc::{AllocError, Global};
use std::process::Abort;
use std::test::Fail;

/// The bytes of the frame that comes in parts, with LEN 1,500.
const FRAME: usize = 1506;

/// A frame that comes in parts: how many bytes of it in each segment, and how much fill behind it.
#[derive(Clone, Copy)]
struct Parts {
    name: &'static str,
    parts: &'static [usize],
    fill: u8,
}

const PARTS: [Parts; 8] = [
    Parts {
        name: "two parts",
        parts: &[700, 806],
        fill: 0,
    },
    Parts {
        name: "a byte of fill",
        parts: &[700, 806],
        fill: 1,
    },
    Parts {
        name: "200 bytes of fill",
        parts: &[700, 806],
        fill: 200,
    },
    Parts {
        name: "a short front, and fill",
        parts: &[300, 1206],
        fill: 200,
    },
    Parts {
        name: "a tail in two segments",
        parts: &[100, 300, 1106],
        fill: 1,
    },
    Parts {
        name: "a tail in three segments",
        parts: &[14, 200, 300, 992],
        fill: 200,
    },
    Parts {
        name: "a head of three bytes, and no more",
        parts: &[3, 1503],
        fill: 1,
    },
    Parts {
        name: "a head that comes byte by byte",
        parts: &[1, 1, 1, 1, 1502],
        fill: 200,
    },
];

/// The frame, and so much fill behind it.
fn frame_and_fill(alloc: Global, fill: u8) -> Result<Vec<u8>, AllocError> {
    let mut bytes = Vec::from_slice(alloc, &[0, 0, 5, 220])?;
    bytes.resize(FRAME, 0x11)?;
    bytes.resize(FRAME + usize::from(fill), 0xff)?;
    Ok(bytes)
}

/// A segment of these bytes, in which a header begins at this place, if one does.
fn segment(alloc: Global, pointer: Option<u16>, payload: &[u8]) -> Result<Vec<u8>, AllocError> {
    let first = pointer.map_or(0, |pointer: u16| 0x8000 | pointer);
    let [high, low] = first.to_be_bytes();
    let mut bytes = Vec::from_slice(alloc, &[high, low, 0, 0, 0, 0, 0, 0])?;
    bytes.extend_from_slice(payload)?;
    Ok(bytes)
}

/// Feeds the parts, and answers the room of the frame that the last of them completes.
fn room_of_parts(
    rt: &impl Abort,
    alloc: Global,
    joiner: &mut Joiner,
    parts: Parts,
) -> Result<usize, Fail> {
    let whole = frame_and_fill(alloc, parts.fill)?;
    let mut rest = whole.as_slice();
    let mut given = Vec::new(alloc);
    let mut skipped = 0;
    for (place, size) in parts.parts.iter().enumerate() {
        let last = place + 1 == parts.parts.len();
        let size = if last { rest.len() } else { *size };
        let (part, behind) = rest.split_at_checked(size).ok_or("parts of the frame")?;
        let pointer = if place == 0 { Some(0) } else { None };
        let bytes = segment(alloc, pointer, part)?;
        let fed = feed_bytes(rt, alloc, joiner, &bytes, &NoCheck)?;
        skipped = fed.skipped;
        given = fed.frames;
        rest = behind;
    }
    expect_same(
        rt,
        parts.name,
        (given.len(), skipped),
        (1, usize::from(parts.fill)),
    );
    let frame = given.pop().ok_or("a frame was given")?;
    expect_same(rt, parts.name, frame.len(), FRAME);
    Ok(frame.into_vec().capacity())
}

#[test]
fn is_the_frames_own_size(rt: HostRuntime) -> Result<(), Fail> {
    for parts in &PARTS {
        let mut joiner = Joiner::new(rt.alloc());
        let room = room_of_parts(&rt, rt.alloc(), &mut joiner, *parts)?;
        expect_same(&rt, parts.name, room, FRAME);
        expect_true(&rt, parts.name, joiner.is_idle());
    }
    Ok(())
}

/// Some bytes of another frame were unfinished, and were lost.
#[test]
fn is_the_frames_own_size_behind_a_gap(rt: HostRuntime) -> Result<(), Fail> {
    for parts in &PARTS {
        let mut joiner = Joiner::new(rt.alloc());
        let longer = segment(rt.alloc(), Some(0), &[0, 0, 0xff, 0xff, 0x11, 0x11])?;
        feed_bytes(&rt, rt.alloc(), &mut joiner, &longer, &NoCheck)?;
        expect_same(&rt, parts.name, joiner.gap(), 6);
        let room = room_of_parts(&rt, rt.alloc(), &mut joiner, *parts)?;
        expect_same(&rt, parts.name, room, FRAME);
    }
    Ok(())
}

/// The second segment's pointer says where the frame ends, and another one begins there.
#[test]
fn is_the_frames_own_size_before_another_one(rt: HostRuntime) -> Result<(), Fail> {
    for front in [14_usize, 376, 377, 1505] {
        let whole = frame_and_fill(rt.alloc(), 0)?;
        let (front, tail) = whole.split_at_checked(front).ok_or("a front of the frame")?;
        let mut joiner = Joiner::new(rt.alloc());
        let first = segment(rt.alloc(), Some(0), front)?;
        feed_bytes(&rt, rt.alloc(), &mut joiner, &first, &NoCheck)?;
        let pointer = u16::try_from(tail.len()).ok();
        let mut second = segment(rt.alloc(), pointer, tail)?;
        second.extend_from_slice(&[0, 0, 5, 220])?;
        let mut fed = feed_bytes(&rt, rt.alloc(), &mut joiner, &second, &NoCheck)?;
        let frame = fed.frames.pop().ok_or("a frame was given")?;
        expect_same(&rt, "the frame's room", frame.into_vec().capacity(), FRAME);
        expect_same(&rt, "the other one's front", joiner.gap(), 4);
    }
    Ok(())
}

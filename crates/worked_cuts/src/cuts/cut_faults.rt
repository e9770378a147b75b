//! What can be at fault with frames and pieces.
use super::{named, owned};
use docsis_wire::{Bytes, CutFault, FillByte, NoCheck, cut};
use std::alloc::{AllocError, Global};
use std::process::Abort;
use std::test::Fail;
use worked_frames::samples::{EXTENDED, NotEndingIn12, PLAIN, SPOILED};

pub(super) struct Fault {
    pub(super) name: &'static str,
    pub(super) frames: &'static [&'static [u8]],
    /// For each piece its bytes and its fill.
    pub(super) pieces: &'static [(u16, u16)],
    pub(super) fault: CutFault,
}

/// Six bytes whose first four are all zero.
const FILL: &[u8] = &[0, 0, 0, 0, 0x11, 0x11];

pub(super) const FAULTS: [Fault; 6] = [
    Fault {
        name: "a frame whose head is fill, and no pieces",
        frames: &[FILL],
        pieces: &[],
        fault: CutFault::BadFrame(0),
    },
    Fault {
        name: "the first of two bad frames, before fill inside a frame",
        frames: &[PLAIN, FILL, &[]],
        pieces: &[(5, 1)],
        fault: CutFault::BadFrame(1),
    },
    Fault {
        name: "fill after five of eight bytes",
        frames: &[PLAIN],
        pieces: &[(5, 1)],
        fault: CutFault::FillInsideFrame(0),
    },
    Fault {
        name: "fill inside a frame where no byte is taken",
        frames: &[PLAIN],
        pieces: &[(5, 0), (0, 1)],
        fault: CutFault::FillInsideFrame(1),
    },
    Fault {
        name: "the first of two pieces with fill inside a frame",
        frames: &[PLAIN],
        pieces: &[(0, 1), (5, 1), (1, 1)],
        fault: CutFault::FillInsideFrame(1),
    },
    Fault {
        name: "fill one byte before the end",
        frames: &[PLAIN],
        pieces: &[(7, 1), (1, 0)],
        fault: CutFault::FillInsideFrame(0),
    },
];

/// The fault of a cut of the frames into these pieces.
fn fault_of(
    alloc: Global,
    frames: &[Bytes],
    pieces: &[(u16, u16)],
) -> Result<Option<CutFault>, AllocError> {
    let pieces = named(alloc, pieces)?;
    Ok(cut(alloc, frames, &pieces, 0, FillByte::Zero, &NoCheck).err())
}

#[test]
fn reports_faults(rt: HostRuntime) -> Result<(), Fail> {
    for case in &FAULTS {
        let frames = owned(rt.alloc(), case.frames)?;
        let found = fault_of(rt.alloc(), &frames, case.pieces)?;
        assert!(rt; found == Some(case.fault), "{}", case.name);
    }
    Ok(())
}

/// A frame of `6 + len` bytes that are zero after LEN, and the plain frame.
pub(super) fn long_and_plain(alloc: Global, len: u16) -> Result<Vec<Bytes>, AllocError> {
    let mut long = vec![in alloc; 0, 0]?;
    long.extend_from_slice(&len.to_be_bytes())?;
    long.resize(6 + usize::from(len), 0)?;
    let mut frames = vec![in alloc; Bytes::from(long)]?;
    frames.push(Bytes::from(Vec::from_slice(alloc, PLAIN)?))?;
    Ok(frames)
}

/// A pointer of 16,384 is too far, which is found only where there is no fill inside a frame.
fn points_too_far(rt: &impl Abort, alloc: Global) -> Result<(), AllocError> {
    let frames = long_and_plain(alloc, 0x3ffb)?;
    let fault = fault_of(alloc, &frames, &[(1, 0), (16_392, 0)])?;
    assert!(rt; fault == Some(CutFault::PointerTooFar(1)));
    let fault = fault_of(alloc, &frames, &[(1, 0), (16_391, 1)])?;
    assert!(rt; fault == Some(CutFault::FillInsideFrame(1)));
    Ok(())
}

/// A pointer of 16,383 is not.
fn points_as_far_as_it_can(rt: &impl Abort, alloc: Global) -> Result<(), Fail> {
    let frames = long_and_plain(alloc, 0x3ffa)?;
    let pieces = named(alloc, &[(1, 0), (16_391, 0)])?;
    let segments = cut(alloc, &frames, &pieces, 0, FillByte::Zero, &NoCheck)?;
    let second = segments.get(1).ok_or("one segment")?;
    let found = (second.head.pfi, second.head.pointer, second.payload.len());
    assert!(rt; found == (true, 16_383, 16_391));
    Ok(())
}

#[test]
fn points_no_further_than_a_pointer_can(rt: HostRuntime) -> Result<(), Fail> {
    points_too_far(&rt, rt.alloc())?;
    points_as_far_as_it_can(&rt, rt.alloc())
}

#[test]
fn says_what_is_at_fault(rt: HostRuntime) -> Result<(), Fail> {
    let texts = [
        (CutFault::BadFrame(3), "frame 3 is not a frame"),
        (
            CutFault::FillInsideFrame(0),
            "piece 0 has fill inside a frame",
        ),
        (
            CutFault::PointerTooFar(12),
            "piece 12 has a pointer past 16383",
        ),
        (CutFault::OutOfMemory, "out of memory"),
    ];
    for (fault, text) in &texts {
        let said = fault.to_string(rt.alloc())?;
        assert!(rt; said.as_str() == *text, "{text}");
    }
    Ok(())
}

/// A cut of one frame into one piece reports this fault, or none, and without the check it has one
/// segment.
fn expect_checked(
    rt: &impl Abort,
    alloc: Global,
    (name, frame, bytes): (&str, &[u8], u16),
    fault: Option<CutFault>,
) -> Result<(), Fail> {
    let frames = owned(alloc, &[frame])?;
    let pieces = named(alloc, &[(bytes, 0)])?;
    let checked = cut(alloc, &frames, &pieces, 0, FillByte::Zero, &NotEndingIn12);
    assert!(rt; checked.err() == fault, "{name}");
    let unchecked = cut(alloc, &frames, &pieces, 0, FillByte::Zero, &NoCheck)?;
    assert!(rt; unchecked.len() == 1, "{name}");
    Ok(())
}

#[test]
fn cuts_only_frames_whose_header_passes(rt: HostRuntime) -> Result<(), Fail> {
    let bad = Some(CutFault::BadFrame(0));
    expect_checked(&rt, rt.alloc(), ("a spoiled header", SPOILED, 8), bad)?;
    let extended = ("a header of seven bytes that ends in 0x22", EXTENDED, 9);
    expect_checked(&rt, rt.alloc(), extended, None)?;
    expect_checked(&rt, rt.alloc(), ("a plain frame", PLAIN, 8), None)
}

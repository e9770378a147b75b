//! Tests to be run with the Nth request for memory refused, and the one whose name ends in
//! `without_memory` with all later ones refused too. Each says `refused` when a call was.
use super::cut_faults::{FAULTS, Fault, long_and_plain};
use super::worked::{INSIDE_PIECES, INSIDE_SEGMENTS};
use super::{expect_segment, expect_segments, named, owned};
use docsis_wire::{Bytes, CutFault, Cutter, FillByte, NoCheck, Piece, Segment, SegmentParts, cut};
use std::alloc::{AllocError, Global};
use std::process::Abort;
use std::test::Fail;
use worked_frames::refused::{expect_refused, say_refused, say_whether_refused};
use worked_frames::samples::{EXTENDED, PLAIN};

/// Makes the two frames, and once more where the first call was refused memory.
fn frames(rt: &impl Print, alloc: Global) -> Result<Vec<Bytes>, Fail> {
    if let Ok(frames) = owned(alloc, &[PLAIN, EXTENDED]) {
        return Ok(frames);
    }
    say_refused(rt)?;
    Ok(owned(alloc, &[PLAIN, EXTENDED])?)
}

/// Makes the three pieces, and once more where the first call was refused memory.
fn pieces(rt: &impl Print, alloc: Global) -> Result<Vec<Piece>, Fail> {
    if let Ok(pieces) = named(alloc, INSIDE_PIECES) {
        return Ok(pieces);
    }
    say_refused(rt)?;
    Ok(named(alloc, INSIDE_PIECES)?)
}

#[test]
fn cut_again(rt: HostRuntime) -> Result<(), Fail> {
    let frames = frames(&rt, rt.alloc())?;
    let pieces = pieces(&rt, rt.alloc())?;
    let mut answer = cut(rt.alloc(), &frames, &pieces, 0, FillByte::Zero, &NoCheck);
    if let Err(fault) = answer {
        expect_refused(&rt, fault, CutFault::OutOfMemory)?;
        answer = cut(rt.alloc(), &frames, &pieces, 0, FillByte::Zero, &NoCheck);
    }
    expect_segments(&rt, "cut again", &answer?, INSIDE_SEGMENTS);
    Ok(())
}

/// The segment of these parts, made once more where the first call was refused memory.
fn segment_of(rt: &impl Print, alloc: Global, parts: SegmentParts<'_>) -> Result<Segment, Fail> {
    if let Ok(segment) = parts.to_segment(alloc) {
        return Ok(segment);
    }
    say_refused(rt)?;
    Ok(parts.to_segment(alloc)?)
}

#[test]
fn segment_of_parts_again(rt: HostRuntime) -> Result<(), Fail> {
    let frames = frames(&rt, rt.alloc())?;
    let pieces = pieces(&rt, rt.alloc())?;
    let mut cutter = Cutter::new(&frames, &pieces, 0, FillByte::Zero, &NoCheck)?;
    for wanted in INSIDE_SEGMENTS {
        let parts = cutter.next().ok_or("too few")?;
        let segment = segment_of(&rt, rt.alloc(), parts)?;
        expect_segment(&rt, &segment, wanted);
    }
    Ok(())
}

/// Frames and pieces with a fault.
#[derive(Drop)]
struct Faulty {
    name: &'static str,
    frames: Vec<Bytes>,
    pieces: Vec<Piece>,
    fault: CutFault,
}

fn faulty_cut(alloc: Global, case: &Fault) -> Result<Faulty, AllocError> {
    Ok(Faulty {
        name: case.name,
        frames: owned(alloc, case.frames)?,
        pieces: named(alloc, case.pieces)?,
        fault: case.fault,
    })
}

/// The frame behind the long one would need a pointer of 16,384.
fn far_cut(alloc: Global) -> Result<Faulty, AllocError> {
    Ok(Faulty {
        name: "a pointer of 16,384",
        frames: long_and_plain(alloc, 0x3ffb)?,
        pieces: named(alloc, &[(1, 0), (16_392, 0)])?,
        fault: CutFault::PointerTooFar(1),
    })
}

fn faulty_cuts(alloc: Global) -> Result<Vec<Faulty>, AllocError> {
    let mut cuts = Vec::new(alloc);
    for case in &FAULTS {
        cuts.push(faulty_cut(alloc, case)?)?;
    }
    cuts.push(far_cut(alloc)?)?;
    Ok(cuts)
}

/// The fault is reported at once and a segment at a time.
fn expect_fault(rt: &impl Abort, alloc: Global, faulty: &Faulty) {
    let Faulty { frames, pieces, .. } = faulty;
    let answer = cut(alloc, frames, pieces, 0, FillByte::Zero, &NoCheck);
    assert!(rt; answer.err() == Some(faulty.fault), "{}", faulty.name);
    let cutter = Cutter::new(frames, pieces, 0, FillByte::Zero, &NoCheck);
    assert!(rt; cutter.err() == Some(faulty.fault), "{}", faulty.name);
}

/// How many bytes of a segment's payload come in its first eight parts.
fn part_bytes(parts: SegmentParts<'_>) -> usize {
    let mut parts = parts;
    let mut bytes = 0usize;
    for _ in 0..8 {
        if let Some(part) = parts.next_part() {
            bytes = bytes.saturating_add(part.len());
        }
    }
    bytes
}

/// How many bytes of payload a cut has, of whose segments none has more than eight parts.
fn payload_bytes(frames: &[Bytes], pieces: &[Piece]) -> Result<usize, CutFault> {
    let mut cutter = Cutter::new(frames, pieces, 0, FillByte::Zero, &NoCheck)?;
    let mut bytes = 0usize;
    for _ in pieces {
        if let Some(parts) = cutter.next() {
            bytes = bytes.saturating_add(part_bytes(parts));
        }
    }
    Ok(bytes)
}

/// Faults are looked for before any memory is taken, and a cutter takes none, nor do the parts of
/// its segments. In the end the test asks for memory itself, so that a run is known in which
/// nothing else did.
#[test]
fn faults_without_memory(rt: HostRuntime) -> Result<(), Fail> {
    let cuts = faulty_cuts(rt.alloc());
    let frames = owned(rt.alloc(), &[PLAIN, EXTENDED]);
    let pieces = named(rt.alloc(), INSIDE_PIECES);
    let (Ok(cuts), Ok(frames), Ok(pieces)) = (cuts, frames, pieces) else {
        return say_refused(&rt);
    };
    for faulty in &cuts {
        expect_fault(&rt, rt.alloc(), faulty);
    }
    let bytes = payload_bytes(&frames, &pieces);
    assert!(rt; bytes == Ok(17));
    say_whether_refused(&rt, rt.alloc())
}

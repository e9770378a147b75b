//! The definition of a lawful cut, decided by trying each length of each chunk.
use super::worked::{CUTTINGS, Cutting};
use super::{named, owned};
use docsis_wire::{Bytes, CutFault, FillByte, NoCheck, Segment, cut, well_formed};
use std::alloc::{AllocError, Global};
use std::process::Abort;
use std::test::Fail;
use worked_frames::samples::{EXTENDED, PLAIN};

/// The frames end to end, where each starts, and where there may be fill.
#[derive(Drop)]
struct Stream {
    bytes: Vec<u8>,
    starts: Vec<usize>,
    boundaries: Vec<usize>,
}

impl Stream {
    fn of(alloc: Global, frames: &[Bytes]) -> Result<Stream, AllocError> {
        let mut bytes = Vec::new(alloc);
        let mut starts = Vec::new(alloc);
        let mut boundaries = vec![in alloc; 0]?;
        for frame in frames {
            starts.push(bytes.len())?;
            bytes.extend_from_slice(frame.as_slice())?;
            boundaries.push(bytes.len())?;
        }
        Ok(Stream {
            bytes,
            starts,
            boundaries,
        })
    }

    /// Whether the segment carries the `length` bytes from `place` on, and then fill.
    fn carries(&self, segment: &Segment, place: usize, length: usize, fill: u8) -> bool {
        let end = place.saturating_add(length);
        let payload = segment.payload.as_slice();
        let (Some(chunk), Some(filled)) = (payload.get(..length), payload.get(length..)) else {
            return false;
        };
        let points = match self
            .starts
            .iter()
            .find(|start| place <= **start && **start < end)
        {
            Some(start) => {
                segment.head.pfi && usize::from(segment.head.pointer) == start.saturating_sub(place)
            }
            None => !segment.head.pfi,
        };
        points
            && self
                .bytes
                .get(place..end)
                .is_some_and(|bytes| bytes == chunk)
            && filled.iter().all(|byte| *byte == fill)
            && (filled.is_empty() || self.boundaries.contains(&end))
    }
}

/// Decides by the definition of a lawful cut, trying each length of each chunk, whether the
/// segments are one of these frames.
fn is_lawful_cut(
    alloc: Global,
    frames: &[Bytes],
    first: u16,
    fill: u8,
    segments: &[Segment],
) -> Result<bool, AllocError> {
    let stream = Stream::of(alloc, frames)?;
    let mut places = vec![in alloc; 0]?;
    let mut number = first;
    for segment in segments {
        let mut next = Vec::new(alloc);
        for place in &places {
            for length in 0..=segment.payload.len() {
                if segment.head.sequence == number
                    && stream.carries(segment, *place, length, fill)
                {
                    next.push(place.saturating_add(length))?;
                }
            }
        }
        places = next;
        number = number.wrapping_add(1) % 8192;
    }
    Ok(
        !places.is_empty()
            && frames
                .iter()
                .all(|frame| well_formed(frame.as_slice(), &NoCheck)),
    )
}

fn byte(fill: FillByte) -> u8 {
    match fill {
        FillByte::Zero => 0,
        FillByte::Ones => 255,
    }
}

/// A cut is lawful, and one by another first number is not, unless it has no segments.
fn expect_lawful(rt: &impl Abort, alloc: Global, cutting: &Cutting) -> Result<(), Fail> {
    let (frames, segments) = cutting.cut(rt, alloc)?;
    let fill = byte(cutting.fill);
    let lawful = is_lawful_cut(alloc, &frames, cutting.first, fill, &segments)?;
    let later = is_lawful_cut(alloc, &frames, cutting.first ^ 1, fill, &segments)?;
    let found = (lawful, later);
    assert!(rt; found == (true, segments.is_empty()), "{}", cutting.name);
    Ok(())
}

#[test]
fn cuts_lawfully(rt: HostRuntime) -> Result<(), Fail> {
    for cutting in &CUTTINGS {
        expect_lawful(&rt, rt.alloc(), cutting)?;
    }
    Ok(())
}

/// Whether the two frames, of eight and nine bytes, have neither a start nor an end here.
fn is_inside(place: u16) -> bool {
    ![0, 8, 17].contains(&place)
}

/// Fill is at fault in the first of the pieces whose end lies inside a frame.
fn fault_of(bytes: u16, more: u16, fills: u16) -> Option<CutFault> {
    if fills % 2 == 1 && is_inside(bytes) {
        return Some(CutFault::FillInsideFrame(0));
    }
    if fills / 2 == 1 && is_inside(bytes.saturating_add(more).min(17)) {
        return Some(CutFault::FillInsideFrame(1));
    }
    None
}

/// Cuts the frames into three pieces of which the first two have so many bytes and maybe fill.
fn expect_lawful_or_fault(
    rt: &impl Abort,
    alloc: Global,
    frames: &[Bytes],
    (bytes, more, fills): (u16, u16, u16),
) -> Result<(), Fail> {
    let pieces = named(alloc, &[(bytes, fills % 2), (more, fills / 2), (20, 1)])?;
    let answer = cut(alloc, frames, &pieces, 0, FillByte::Ones, &NoCheck);
    if let Some(fault) = fault_of(bytes, more, fills) {
        assert!(rt; answer.err() == Some(fault));
        return Ok(());
    }
    let segments = answer?;
    let lawful = is_lawful_cut(alloc, frames, 0, 255, &segments)?;
    assert!(rt; lawful, "{bytes} and {more}: {segments:?}");
    Ok(())
}

/// Two frames by each three pieces of up to nine bytes and one byte of fill.
#[test]
fn cuts_lawfully_wherever_there_may_be_fill(rt: HostRuntime) -> Result<(), Fail> {
    let frames = owned(rt.alloc(), &[PLAIN, EXTENDED])?;
    for bytes in 0..10u16 {
        for more in 0..10u16 {
            for fills in 0..4u16 {
                expect_lawful_or_fault(&rt, rt.alloc(), &frames, (bytes, more, fills))?;
            }
        }
    }
    Ok(())
}

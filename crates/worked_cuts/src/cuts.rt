//! Frames cut into segments: worked examples, the definition of a lawful cut tried on them, the
//! faults, and the greatest sizes.
mod cut_faults;
mod failed_allocations;
mod lawful;
mod sizes;
mod worked;

use docsis_wire::{Bytes, Piece, Segment, write_segment};
use std::alloc::{AllocError, Global};
use std::process::Abort;

fn owned(alloc: Global, frames: &[&[u8]]) -> Result<Vec<Bytes>, AllocError> {
    let mut all = Vec::new(alloc);
    for frame in frames {
        all.push(Bytes::from(Vec::from_slice(alloc, frame)?))?;
    }
    Ok(all)
}

fn named(alloc: Global, pieces: &[(u16, u16)]) -> Result<Vec<Piece>, AllocError> {
    let mut all = Vec::new(alloc);
    for (bytes, fill) in pieces {
        all.push(Piece {
            bytes: *bytes,
            fill: *fill,
        })?;
    }
    Ok(all)
}

/// Whether the segment, header and payload, has these bytes.
fn is(segment: &Segment, wanted: &[u8]) -> bool {
    wanted
        .strip_prefix(&write_segment(&segment.head))
        .is_some_and(|payload| segment.payload.as_slice() == payload)
}

/// Whether the segments have these bytes.
fn are(segments: &[Segment], wanted: &[&[u8]]) -> bool {
    segments.len() == wanted.len()
        && segments
            .iter()
            .zip(wanted)
            .all(|(segment, want)| is(segment, want))
}

/// Ends the test if the segments have other bytes.
fn expect_segments(rt: &impl Abort, name: &str, segments: &[Segment], wanted: &[&[u8]]) {
    assert!(rt; are(segments, wanted), "{name}: {segments:?}");
}

/// Ends the test if the segment has other bytes.
fn expect_segment(rt: &impl Abort, segment: &Segment, wanted: &[u8]) {
    assert!(rt; is(segment, wanted), "{segment:?}");
}

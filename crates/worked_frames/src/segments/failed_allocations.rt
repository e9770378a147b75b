//! Tests to be run with the Nth request for memory refused, and the one whose name ends in
//! `without_memory` with all later ones refused too. Each says `refused` when a call was.
use super::{
    POINTED, expect_faults, expect_pointings, expect_readings, expect_writings, pointing_segments,
};
use crate::expect::expect_same;
use crate::refused::{expect_refused, say_refused, say_whether_refused};
use docsis_wire::{Segment, SegmentFault};
use std::test::Fail;

/// Reads a segment, and once more where the first call was refused memory.
#[test]
fn reads_again(rt: HostRuntime) -> Result<(), Fail> {
    let mut answer = Segment::read(rt.alloc(), POINTED);
    if let Err(fault) = answer {
        expect_refused(&rt, fault, SegmentFault::OutOfMemory)?;
        answer = Segment::read(rt.alloc(), POINTED);
    }
    expect_same(&rt, "the payload", answer?.payload.len(), 3);
    Ok(())
}

/// In the end it asks for memory itself, so that a run is known in which nothing else did.
#[test]
fn headers_and_faults_without_memory(rt: HostRuntime) -> Result<(), Fail> {
    let Ok(segments) = pointing_segments(rt.alloc()) else {
        return say_refused(&rt);
    };
    expect_readings(&rt);
    expect_writings(&rt);
    expect_pointings(&rt, &segments);
    expect_faults(&rt, rt.alloc());
    say_whether_refused(&rt, rt.alloc())
}

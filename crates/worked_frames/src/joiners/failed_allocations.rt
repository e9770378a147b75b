//! Tests to be run with the Nth request for memory refused, and the one whose name ends in
//! `without_memory` with all later ones refused too. Each says `refused` when a call was.
ghost use Rattle.docsis_wire.specs.Ready.{IsReady};

use super::TWO_FRAMES;
use crate::expect::expect_same;
use crate::refused::{expect_refused, say_refused, say_whether_refused, segment_again};
use crate::samples::FIRST;
use ccf::{Fed, Joiner};
use docsis_wire::{NoCheck, Segment, SegmentFault};
use std::alloc::Global;
use std::process::Abort;
use std::test::Fail;

/// Feeds a segment, and once more where the first call was refused memory.
fn feed_twice(
    rt: &impl Print,
    alloc: Global,
    joiner: &mut Joiner,
    next: &Segment,
) -> Result<Fed, Fail>
    requires { IsReady next.now }
{
    if let Ok(fed) = joiner.feed(alloc, next, &NoCheck) {
        return Ok(fed);
    }
    say_refused(rt)?;
    Ok(joiner.feed(alloc, next, &NoCheck)?)
}

#[test]
fn feed_again(rt: HostRuntime) -> Result<(), Fail> {
    let mut joiner = Joiner::new(rt.alloc());
    for (place, bytes) in TWO_FRAMES.segments.iter().enumerate() {
        let next = segment_again(&rt, rt.alloc(), bytes)?;
        let fed = feed_twice(&rt, rt.alloc(), &mut joiner, &next)?;
        TWO_FRAMES.expect_answered(&rt, place, &fed);
    }
    expect_same(&rt, "idle in the end", joiner.is_idle(), true);
    Ok(())
}

/// A joiner in which the first five bytes of a frame wait for the rest.
fn waiting(alloc: Global) -> Result<Joiner, SegmentFault> {
    let mut joiner = Joiner::new(alloc);
    let first = Segment::read(alloc, FIRST)?;
    joiner.feed(alloc, &first, &NoCheck)?;
    Ok(joiner)
}

/// So many bytes are unfinished, and dropped by a gap.
fn expect_gap(rt: &impl Abort, joiner: &mut Joiner, unfinished: usize) {
    expect_same(rt, "idle before a gap", joiner.is_idle(), unfinished == 0);
    expect_same(rt, "dropped by a gap", joiner.gap(), unfinished);
    expect_same(rt, "idle behind a gap", joiner.is_idle(), true);
}

/// In the end it asks for memory itself, so that a run is known in which nothing else did.
#[test]
fn calls_without_memory(rt: HostRuntime) -> Result<(), Fail> {
    let mut joiner = match waiting(rt.alloc()) {
        Ok(joiner) => joiner,
        Err(fault) => return expect_refused(&rt, fault, SegmentFault::OutOfMemory),
    };
    expect_gap(&rt, &mut joiner, 5);
    expect_same(&rt, "a second gap", joiner.gap(), 0);
    expect_gap(&rt, &mut Joiner::new(rt.alloc()), 0);
    say_whether_refused(&rt, rt.alloc())
}

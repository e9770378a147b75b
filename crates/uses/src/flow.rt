//! One flow whose segments come out of order: the window puts them in order, and the joiner cuts
//! the frames out.
ghost use Rattle.std.specs.Prelude.{◌<◌, ◌≤◌, Some, [], List, ℕ, All, IfOk, map};
ghost use Rattle.ccf.specs.Join.{Joins};
ghost use Rattle.uses.specs.Flow.{ComesOutAs};

use crate::window::in_order;
use ccf::{Joiner, laws};
use docsis_wire::{Bytes, HeaderCheck, ReadySegment};
use std::alloc::{AllocError, Global};

/// Joins segments, in their order and none of them lost.
fn join_ready<C: HeaderCheck>(
    alloc: Global,
    segments: &[ReadySegment],
    check: &C,
) -> Result<Vec<Bytes>, AllocError>
    ensures { IfOk result (λ joined. (after : List ℕ) × Joins (C.accepts check.now) []
        (map (λ ready. Some ready.segment) segments.now) joined.items after) }
{
    laws::settled_lists_join_one_after_the_other();
    let mut joiner = Joiner::new(alloc);
    let mut joined = Vec::new(alloc);
    for ready in segments {
        let fed = joiner.feed(alloc, &ready.segment, check)?;
        let mut frames = fed.frames;
        joined.append(&mut frames)?;
    }
    Ok(joined)
}

/// The frames of segments that came in any order, each under its number. The numbers are 0 to 8191,
/// as is `first`, which is the first segment's; `width` is 1 to 4096. It stops at the first number
/// that is missing.
pub fn frames_in_order<C: HeaderCheck>(
    alloc: Global,
    first: u16,
    width: u16,
    offers: Vec<(u16, ReadySegment)>,
    check: &C,
) -> Result<Vec<Bytes>, AllocError>
    requires first_in_range { first < 8192 }
    requires width_positive { 1 ≤ width }
    requires width_in_range { width ≤ 4096 }
    requires numbers_in_range { All (λ offer. offer.0 < 8192) offers.items }
    ensures { IfOk result
        (λ frames. ComesOutAs (C.accepts check.now) first width offers.items frames.items) }
{
    let segments = in_order(alloc, first, width, offers)?;
    join_ready(alloc, &segments, check)
}

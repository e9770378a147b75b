//! Frames cut into segments and joined again.
ghost use Rattle.std.specs.Prelude.{◌<◌, ◌≤◌, ◌+◌, Some, [], List, ℕ, All, IfOk, length, map};
ghost use Rattle.docsis_wire.specs.Limits.{sequence_modulus};
ghost use Rattle.docsis_wire.specs.Ready.{IsReady};
ghost use Rattle.docsis_wire.specs.Stream.{place_of};
ghost use Rattle.docsis_wire.specs.Pieces.{chunks_of};
ghost use Rattle.ccf.specs.Filter.{FiltersTo};
ghost use Rattle.ccf.specs.Join.{Joins};

use ccf::{Joiner, laws};
use docsis_wire::{Bytes, CutFault, FillByte, HeaderCheck, Piece, Segment, cut};
use std::alloc::{AllocError, Global};

/// Joins segments, in their order and none of them lost.
fn join_all<C: HeaderCheck>(
    alloc: Global,
    segments: &[Segment],
    check: &C,
) -> Result<Vec<Bytes>, AllocError>
    requires { All IsReady segments.now }
    ensures { IfOk result (λ joined. (after : List ℕ)
        × Joins (C.accepts check.now) [] (map Some segments.now) joined.items after) }
{
    laws::settled_lists_join_one_after_the_other();
    let mut joiner = Joiner::new(alloc);
    let mut joined = Vec::new(alloc);
    for segment in segments {
        let fed = joiner.feed(alloc, segment, check)?;
        let mut frames = fed.frames;
        joined.append(&mut frames)?;
    }
    Ok(joined)
}

/// Cuts frames and joins the segments again: exactly the frames come back that lie wholly in the
/// bytes that the pieces take. `first` is 0 to 8191. The faults are those of a cut.
pub fn cut_and_join<C: HeaderCheck>(
    alloc: Global,
    frames: &[Bytes],
    pieces: &[Piece],
    first: u16,
    fill: FillByte,
    check: &C,
) -> Result<Vec<Bytes>, CutFault>
    requires { first < sequence_modulus }
    ensures { IfOk result (λ joined. FiltersTo
        (λ j. place_of frames.now (j + 1)
        ≤ place_of (chunks_of frames.now pieces.now) (length (chunks_of frames.now pieces.now)))
        frames.now joined.items) }
{
    laws::segments_of_a_lawful_cut_are_ready();
    laws::whole_cut_joins_to_the_frames_within_it();
    let segments = cut(alloc, frames, pieces, first, fill, check)?;
    match join_all(alloc, &segments, check) {
        Ok(joined) => Ok(joined),
        Err(_) => Err(CutFault::OutOfMemory),
    }
}

//! A burst whose header check sequences are looked at: its segment header's, and those of frames.
ghost use Rattle.std.specs.Prelude.{◌≡◌, IfOk, OnErr};
ghost use Rattle.uses.specs.HeaderCheck.{TakesCheckedBurst};

use crate::burst::feed_burst;
use ccf::{Fed, Joiner};
use docsis_wire::{HEADER_BYTES, HeaderSequence, segment_check};
use std::alloc::{AllocError, Global};

/// Feeds the segment of a burst to a joiner that asks frames' headers for their check sequences.
/// `None` where the segment header doesn't end with its own, or the burst has no segment. Where an
/// allocation fails nothing changes.
pub fn feed_checked_burst(
    joiner: &mut Joiner,
    alloc: Global,
    bytes: &[u8],
) -> Result<Option<Fed>, AllocError>
    ensures taken { IfOk result
        (λ fed. TakesCheckedBurst bytes.now joiner.old fed joiner.new) }
    ensures refused { OnErr result (joiner.new ≡ joiner.old) }
{
    let Some(header) = bytes.first_chunk::<HEADER_BYTES>() else {
        return Ok(None);
    };
    if !segment_check(header) {
        return Ok(None);
    }
    feed_burst(joiner, alloc, bytes, &HeaderSequence)
}

//! The bytes of a burst, read as a segment and fed to a joiner.
ghost use Rattle.std.specs.Prelude.{◌≡◌, IfOk, OnErr};
ghost use Rattle.uses.specs.Burst.{TakesBurst};

use ccf::{Fed, Joiner};
use docsis_wire::{HeaderCheck, Segment, SegmentFault};
use std::alloc::{AllocError, Global};

/// Feeds the segment of a burst, or answers `None` where the burst has none. Where an allocation
/// fails nothing changes.
pub fn feed_burst<C: HeaderCheck>(
    joiner: &mut Joiner,
    alloc: Global,
    bytes: &[u8],
    check: &C,
) -> Result<Option<Fed>, AllocError>
    ensures taken { IfOk result
        (λ fed. TakesBurst (C.accepts check.now) bytes.now joiner.old fed joiner.new) }
    ensures refused { OnErr result (joiner.new ≡ joiner.old) }
{
    match Segment::read(alloc, bytes) {
        Ok(segment) => Ok(Some(joiner.feed(alloc, &segment, check)?)),
        Err(SegmentFault::TooShort | SegmentFault::PointerPast) => Ok(None),
        Err(SegmentFault::OutOfMemory) => Err(AllocError),
    }
}

//! Why we haven't the frames that are listed of the analyser.
ghost use Rattle.std.specs.Prelude.{◌≡◌, slice_get};

use burst_fates::MissingReason;

/// Why we haven't the frame that is listed at a place, where that is known: the reason at the same
/// place.
pub fn reason_at(reasons: &[MissingReason], place: usize) -> Option<MissingReason>
    ensures { result ≡ slice_get reasons.now place }
{
    reasons.get(place).copied()
}

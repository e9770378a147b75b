//! What was counted of a flow, together.
ghost use Rattle.std.specs.Prelude.{◌≡◌};
ghost use Rattle.capture_summary.specs.Counting.{both_counts};

use flow_core::FlowCounts;

/// What was counted of a flow in two parts of its time together, as before it began anew and since.
/// Each count stays at its greatest value, 2^64 − 1.
pub fn both_counts(one: FlowCounts, other: FlowCounts) -> FlowCounts
    ensures { result ≡ both_counts one other }
{
    FlowCounts {
        kept: one.kept.saturating_add(other.kept),
        late: one.late.saturating_add(other.late),
        repeat: one.repeat.saturating_add(other.repeat),
        beyond: one.beyond.saturating_add(other.beyond),
        lost: one.lost.saturating_add(other.lost),
        frames: one.frames.saturating_add(other.frames),
        skipped: one.skipped.saturating_add(other.skipped),
    }
}

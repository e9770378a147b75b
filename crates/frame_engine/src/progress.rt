//! How far the reading of a capture is, and who is told.
ghost use Rattle.std.specs.Prelude.{◌≡◌, true, false, List, []};
ghost use Rattle.capture_summary.specs.Counting.{both_counts};
ghost use Rattle.frame_engine.specs.Progress.{KeepsTold, TakesProgress, with_since, AreCounted};
ghost use Rattle.frame_engine.specs.Progress.{TellsProgress};

use crate::frame_reading::FrameReading;
use crate::tally::CaptureTally;
use capture_summary::{FlowSummary, both_counts};
use flow_core::FlowCounts;

/// How far the reading of a capture is. Each count stays at its greatest value, 2^64 − 1.
#[derive(Clone, Copy, Debug, PartialEq, Eq)]
pub struct CaptureProgress {
    /// Bytes that were read.
    pub bytes: u64,
    /// Records that were read whole.
    pub records: u64,
    /// Frames that were joined, of the selected flows.
    pub frames: u64,
    /// Segments that were lost, of the selected flows.
    pub lost: u64,
}

/// Who is told how far the reading of a capture is.
pub trait TakeProgress {
    ghost use Rattle.frame_engine.specs.declared.progress.CaptureProgress.{CaptureProgress};

    // The first became the second by taking these, in order.
    ghost after: { Self → List CaptureProgress → Self → Type 0 };

    /// Whether it is to be told now.
    fn is_due(&mut self) -> bool
        ensures { KeepsTold after self.old self.new };

    /// Takes how far the reading is, or passes it over.
    fn take(&mut self, progress: CaptureProgress)
        ensures { TakesProgress after self.old progress self.new };
}

/// Takes nothing.
#[derive(Clone, Copy, Debug)]
pub struct NoProgress;

impl TakeProgress for NoProgress {
    ghost after = { λ start told end. told ≡ [] };

    fn is_due(&mut self) -> bool {
        false
    }

    fn take(&mut self, _progress: CaptureProgress) {}
}

/// What was counted of flows with one more, if it is selected: until it began anew, and since.
fn with_flow(
    counts: FlowCounts,
    is_selected: bool,
    one: &FlowSummary,
    since: Option<FlowCounts>,
) -> FlowCounts
    ensures selected { is_selected ≡ true
        → result ≡ with_since (both_counts counts one.now.counts) since }
    ensures other { is_selected ≡ false → result ≡ counts }
{
    if !is_selected {
        return counts;
    }
    let counts = both_counts(counts, one.counts);
    match since {
        Some(since) => both_counts(counts, since),
        None => counts,
    }
}

/// What was counted so far of the flows that are joined, together.
fn counts_so_far(reading: &FrameReading, tally: &CaptureTally) -> FlowCounts
    ensures { AreCounted reading.now tally.now.summary.flows.items result }
{
    let mut counts = FlowCounts::none();
    for flow in 0..tally.summary.flows.len() {
        let is_selected = reading.joining.flows.selected().has(flow);
        let since = reading.joining.flows.counts(flow);
        counts = with_flow(counts, is_selected, &tally.summary.flows[flow], since);
    }
    counts
}

/// Tells how far the reading is, of which so many bytes were read, where that is due.
pub(crate) fn tell_progress<P: TakeProgress>(
    reading: &FrameReading,
    bytes: u64,
    tally: &CaptureTally,
    told: &mut P,
)
    ensures { TellsProgress reading.now P.after tally.now.summary.flows.items bytes
        told.old told.new }
{
    if !told.is_due() {
        return;
    }
    let counts = counts_so_far(reading, tally);
    told.take(CaptureProgress {
        bytes,
        records: reading.joining.records,
        frames: counts.frames,
        lost: counts.lost,
    });
}

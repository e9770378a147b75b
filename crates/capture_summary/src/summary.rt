//! What was counted of a whole capture.
ghost use Rattle.std.specs.Prelude.{◌≡◌};
ghost use Rattle.capture_summary.specs.Counting.{with_record};

use crate::channel_summary::ChannelSummary;
use crate::flow_summary::FlowSummary;
use crate::passed::PassedCounts;

/// What was counted of a capture. Each count stays at its greatest value, 2^64 − 1.
#[derive(Debug, Drop)]
pub struct CaptureSummary {
    /// Its flows, in the order of the map.
    pub flows: Vec<FlowSummary>,
    /// Its channels, in the order of their numbers.
    pub channels: Vec<ChannelSummary>,
    /// The records that were passed over.
    pub passed: PassedCounts,
    /// All records.
    pub records: u64,
    /// Records with a time before that of the record before them.
    pub earlier: u64,
    /// Bursts that came earlier than their flow's clock by more than they wait for their turn, so
    /// that it was set back.
    pub set_back: u64,
    /// Bursts with which too many of their flow would have waited, so that the next was handed on
    /// early.
    pub crowded: u64,
}

impl CaptureSummary {
    /// Counts a record, whose time lies before that of the record before it or doesn't.
    pub fn count_record(&mut self, is_earlier: bool)
        ensures { self.new ≡ with_record is_earlier self.old }
    {
        self.records = self.records.saturating_add(1);
        if is_earlier {
            self.earlier = self.earlier.saturating_add(1);
        }
    }
}

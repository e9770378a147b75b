//! What was counted of one flow.
ghost use Rattle.std.specs.Prelude.{◌≡◌};
ghost use Rattle.capture_summary.specs.Counting.{new_flow, with_frame, with_request, with_restart};
ghost use Rattle.capture_summary.specs.Counting.{is_quiet};

use crate::sequence::FrameSequence;
use flow_core::FlowCounts;

/// What was counted of a flow of a capture. Each count stays at its greatest value, 2^64 − 1.
#[derive(Clone, Copy, Debug, PartialEq, Eq)]
pub struct FlowSummary {
    /// The service flow identifier.
    pub sfid: u32,
    /// What became of its segments, frames and bytes since the capture began.
    pub counts: FlowCounts,
    /// Frames with a right frame check sequence.
    pub right: u64,
    /// Frames with a wrong frame check sequence.
    pub wrong: u64,
    /// Encrypted frames, whose frame check sequence can't be looked at.
    pub encrypted: u64,
    /// How often it began anew.
    pub restarts: u64,
    /// Requests for grants.
    pub requests: u64,
    /// The units that were requested, of the flow's own size.
    pub units: u64,
    /// Whether it is selected: of a flow that isn't no text says anything.
    pub is_selected: bool,
}

impl FlowSummary {
    /// Nothing was counted yet of a flow that is selected.
    pub fn new(sfid: u32) -> FlowSummary
        ensures { result ≡ new_flow sfid }
    {
        FlowSummary {
            sfid,
            counts: FlowCounts::none(),
            right: 0,
            wrong: 0,
            encrypted: 0,
            restarts: 0,
            requests: 0,
            units: 0,
            is_selected: true,
        }
    }

    /// Counts a frame by what is known of its frame check sequence. How many frames there are is in
    /// the counts of the flow.
    pub fn count_frame(&mut self, sequence: FrameSequence)
        ensures { self.new ≡ with_frame sequence self.old }
    {
        match sequence {
            FrameSequence::Right => self.right = self.right.saturating_add(1),
            FrameSequence::Wrong => self.wrong = self.wrong.saturating_add(1),
            FrameSequence::Encrypted => self.encrypted = self.encrypted.saturating_add(1),
            FrameSequence::NotThere => {}
        }
    }

    /// Counts a request for so many units.
    pub fn count_request(&mut self, units: u16)
        ensures { self.new ≡ with_request units self.old }
    {
        self.requests = self.requests.saturating_add(1);
        self.units = self.units.saturating_add(u64::from(units));
    }

    /// Counts that the flow began anew.
    pub fn count_restart(&mut self)
        ensures { self.new ≡ with_restart self.old }
    {
        self.restarts = self.restarts.saturating_add(1);
    }

    /// Whether nothing came of the flow: whether each count is 0.
    pub fn is_quiet(&self) -> bool
        ensures { result ≡ is_quiet self.now }
    {
        [
            self.counts.kept,
            self.counts.late,
            self.counts.repeat,
            self.counts.beyond,
            self.counts.lost,
            self.counts.frames,
            self.counts.skipped,
            self.right,
            self.wrong,
            self.encrypted,
            self.restarts,
            self.requests,
            self.units,
        ]
        .iter()
        .all(|count| *count == 0)
    }
}

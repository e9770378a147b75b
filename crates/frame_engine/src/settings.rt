//! What is asked of a capture.
use crate::inner_check::InnerCheck;
use captured_flows::Waits;
use flow_selection::Selection;
use frame_records::FrameLink;
use loss_rule::LossRule;

/// By what rules the bursts of a capture are joined, and how their frames are written.
#[derive(Debug, Drop)]
pub struct CaptureSettings {
    /// By what losses are decided, besides what is held for long.
    pub rule: LossRule,
    /// How long bursts wait and are held.
    pub waits: Waits,
    /// Which headers of frames pass.
    pub check: InnerCheck,
    /// What a record with a frame holds.
    pub link: FrameLink,
    /// Of which flows frames are joined and written, and which flows what is counted tells of.
    pub selected: Selection,
}

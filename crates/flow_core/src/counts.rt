//! What is counted of a flow.
//!
//! Contracts say what each count is by the answers, the settled segments and the frames.
ghost use Rattle.std.specs.Prelude.{◌≡◌};
ghost use Rattle.flow_core.specs.Counts.{no_counts};

/// What became of a flow's segments, frames and bytes. Each count stays at its greatest value,
/// 2^64 - 1.
#[derive(Clone, Copy, Debug, PartialEq, Eq)]
pub struct FlowCounts {
    /// Segments that were kept.
    pub kept: u64,
    /// Segments that came when their number had passed.
    pub late: u64,
    /// Segments whose number was held already.
    pub repeat: u64,
    /// Segments whose number was beyond the window.
    pub beyond: u64,
    /// Segments that were declared lost or skipped. It grows as the flow comes to them.
    pub lost: u64,
    /// Frames that were given.
    pub frames: u64,
    /// Bytes of payload that were neither given nor are unfinished: fill, malformed bytes and what
    /// follows them up to the next pointer, and the parts of frames with a lost segment.
    pub skipped: u64,
}

impl FlowCounts {
    /// Nothing was counted yet.
    pub fn none() -> FlowCounts
        ensures { result ≡ no_counts }
    {
        FlowCounts {
            kept: 0,
            late: 0,
            repeat: 0,
            beyond: 0,
            lost: 0,
            frames: 0,
            skipped: 0,
        }
    }
}

//! What a receiver gives for a whole list of inputs on each channel.
use consumer::FrameList;
use flow_core::FlowCounts;
use lane::{CHANNELS, LaneReport, Request};

/// What a flow gave, once it is closed.
#[derive(Debug, Drop)]
pub struct FlowOutcome {
    /// The service flow identifier.
    pub sfid: u32,
    /// The frames, in order.
    pub frames: FrameList,
    /// What was counted.
    pub counts: FlowCounts,
}

/// What a receiver gave.
#[derive(Debug, Drop)]
pub struct Outcome {
    /// What each flow gave, in the order of the records.
    pub flows: Vec<FlowOutcome>,
    /// The requests that came on the channels 0 to 3, in order.
    pub requests: [Vec<Request>; CHANNELS],
    /// What became of the inputs of the channels 0 to 3.
    pub lanes: [LaneReport; CHANNELS],
    /// The order in which segments and decisions were taken: of each its channel, 0 to 3, or 4 for
    /// a decision.
    pub order: Vec<u8>,
}

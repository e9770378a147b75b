//! What a map says.

use lane::SIDS;

/// A map may have so many flows.
pub const MOST_FLOWS: usize = flow_records::MOST_FLOWS as usize;
/// The greatest service identifier.
pub const SID_MAX: u16 = SIDS as u16 - 1;

/// A flow. Its index is its place among the flows.
#[derive(Clone, Copy, Debug, PartialEq, Eq)]
pub struct MapFlow {
    /// The service flow identifier.
    pub sfid: u32,
    /// The number of the flow's first segment, 0 to 8191; none where it is `auto`, the least of
    /// those that come first.
    pub first: Option<u16>,
    /// How many numbers, from the expected one on, may be held: 1 to 4096.
    pub window: u16,
    /// How many SID clusters the flow has, 1 to 8.
    pub clusters: u8,
}

/// A service identifier of a channel, and the flow to which it belongs.
#[derive(Clone, Copy, Debug, PartialEq, Eq)]
pub struct MapSid {
    /// The channel, 0 to 15. A line above says which upstream channel it is.
    pub channel: u8,
    /// The service identifier, 0 to 16,383.
    pub sid: u16,
    /// The index of the flow, below the number of flows that lines above give.
    pub flow: u16,
}

/// A channel of a receiver, and the upstream channel that it is.
#[derive(Clone, Copy, Debug, PartialEq, Eq)]
pub struct MapChannel {
    /// The channel, 0 to 15.
    pub channel: u8,
    /// The upstream channel id, as an analyser says it.
    pub id: u32,
}

/// What the lines of a map say, each in its order. No two flows have one service flow identifier,
/// no two rows one channel and service identifier, and no two channels one number or one id.
#[derive(Debug, Drop)]
pub struct CaptureMap {
    pub flows: Vec<MapFlow>,
    pub channels: Vec<MapChannel>,
    pub sids: Vec<MapSid>,
}

//! Values as C sees them.
ghost use Rattle.std.specs.Prelude.{◌≡◌};
ghost use Rattle.c_receiver.specs.Held.{plain_of, plain_frame};
ghost use Rattle.c_receiver.specs.Queued.{plain_request};
ghost use Rattle.c_receiver.specs.Made.{record_of, row_of};

use crate::queue::QueuedFrame;
use flow_core::{FlowCounts, FlowRecord};
use lane::{Request, SidRow};

/// What is known of a service flow before it runs.
#[repr(C)]
#[derive(Clone, Copy, Debug, PartialEq, Eq)]
pub struct PlainFlow {
    /// The service flow identifier.
    pub sfid: u32,
    /// The number of the flow's first segment, 0 to 8191.
    pub first: u16,
    /// How many numbers, from the expected one on, may be held: 1 to 4096.
    pub window: u16,
    /// How many SID clusters the flow has, 1 to 8.
    pub clusters: u8,
}

/// A service identifier of a channel, and the flow to which it belongs.
#[repr(C)]
#[derive(Clone, Copy, Debug, PartialEq, Eq)]
pub struct PlainRow {
    /// The index of the flow, in the list of the flows.
    pub flow: usize,
    /// The service identifier, 0 to 16,383.
    pub sid: u16,
    /// The channel, below the number of channels.
    pub channel: u8,
}

/// A frame that was given, without its bytes.
#[repr(C)]
#[derive(Clone, Copy, Debug, PartialEq, Eq)]
pub struct PlainFrame {
    /// The index of the flow.
    pub flow: usize,
    /// How many bytes the frame has, its header included.
    pub length: usize,
}

/// How much waits.
#[repr(C)]
#[derive(Clone, Copy, Debug, PartialEq, Eq)]
pub struct PlainWaiting {
    /// How many frames.
    pub frames: usize,
    /// How many requests.
    pub requests: usize,
}

/// A request for grants.
#[repr(C)]
#[derive(Clone, Copy, Debug, PartialEq, Eq)]
pub struct PlainRequest {
    /// The index of the flow.
    pub flow: usize,
    /// The queue depth that is asked for, in the flow's request units: 1 to 65,535.
    pub units: u16,
    /// The number of the segment in its flow, 0 to 8191.
    pub sequence: u16,
    /// The channel on which the segment came.
    pub channel: u8,
    /// The SID cluster that the request is made for, below the flow's count of clusters.
    pub cluster: u8,
}

/// What became of a flow's segments, frames and bytes. Each count stays at its greatest value,
/// 2^64 - 1.
#[repr(C)]
#[derive(Clone, Copy, Debug, PartialEq, Eq)]
pub struct PlainCounts {
    /// Segments that were kept.
    pub kept: u64,
    /// Segments that came when their number had passed.
    pub late: u64,
    /// Segments whose number was held already.
    pub repeat: u64,
    /// Segments whose number was beyond the window.
    pub beyond: u64,
    /// Segments that were declared lost or skipped.
    pub lost: u64,
    /// Frames that were given.
    pub frames: u64,
    /// Bytes of payload that were neither given nor are unfinished.
    pub skipped: u64,
}

impl PlainFlow {
    /// The flow's record. No ring is asked for, but a record has one.
    pub fn record(&self) -> FlowRecord
        ensures { result ≡ record_of self.now }
    {
        FlowRecord {
            sfid: self.sfid,
            first: self.first,
            window: self.window,
            clusters: self.clusters,
            ring: 1,
        }
    }
}

impl PlainRow {
    /// The row of a service identifier.
    pub fn row(&self) -> SidRow
        ensures { result ≡ row_of self.now }
    {
        SidRow {
            channel: self.channel,
            sid: self.sid,
            flow: self.flow,
        }
    }
}

impl PlainFrame {
    /// A frame as C is told of it.
    pub fn of(first: &QueuedFrame) -> PlainFrame
        ensures { result ≡ plain_frame first.now }
    {
        PlainFrame {
            flow: first.flow,
            length: first.frame.len(),
        }
    }
}

impl PlainRequest {
    /// A request as C sees it.
    pub fn of(request: &Request) -> PlainRequest
        ensures { result ≡ plain_request request.now }
    {
        PlainRequest {
            flow: request.flow,
            units: request.units,
            sequence: request.sequence,
            channel: request.channel,
            cluster: request.cluster,
        }
    }
}

impl PlainCounts {
    /// Counts as C sees them.
    pub fn of(counts: &FlowCounts) -> PlainCounts
        ensures { result ≡ plain_of counts.now }
    {
        PlainCounts {
            kept: counts.kept,
            late: counts.late,
            repeat: counts.repeat,
            beyond: counts.beyond,
            lost: counts.lost,
            frames: counts.frames,
            skipped: counts.skipped,
        }
    }
}

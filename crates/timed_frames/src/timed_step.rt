//! What came of a capture's bursts, each with its time.
use docsis_wire::Bytes;
use flow_core::FlowCounts;
use lane::Request;
use receiver::Reply;

/// The burst of a flow that was handed in last.
#[derive(Clone, Copy, Debug, PartialEq, Eq)]
pub struct LastBurst {
    /// When it came, in nanoseconds of the packets' clock.
    pub time: u64,
    /// The channel of the receiver on which it came, 0 to 15.
    pub channel: usize,
    /// The number of its segment, modulo 8192.
    pub number: u16,
    /// Its service identifier.
    pub sid: u16,
    /// The analyser's number of the burst, where it has one.
    pub burst_id: Option<u64>,
}

/// What came of a burst.
#[derive(Debug, Drop)]
pub enum TimedStep {
    /// A burst of the flow with this index was handed in.
    HandedIn {
        flow: usize,
        burst: LastBurst,
    },
    /// A whole MAC frame of the flow with this index, which this burst completed.
    Frame {
        flow: usize,
        burst: LastBurst,
        frame: Bytes,
    },
    /// A request for grants, from the header of this burst's segment.
    Asked {
        burst: LastBurst,
        request: Request,
    },
    /// This was replied to the burst of the flow with this index that was handed in last, with this
    /// number if it has one. What it completed stands before.
    Replied {
        flow: usize,
        burst_id: Option<u64>,
        reply: Reply,
    },
    /// The flow with this index was closed and began anew. This was counted of it until then.
    Ended {
        flow: usize,
        counts: FlowCounts,
    },
}

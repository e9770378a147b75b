//! What a lane admits.
ghost use Rattle.docsis_wire.specs.Ready.{IsReady};

use docsis_wire::Segment;

/// A request for grants, from the header of a segment.
#[derive(Clone, Copy, Debug, PartialEq, Eq)]
pub struct Request {
    /// The index of the flow's record.
    pub flow: usize,
    /// The SID cluster that the request is made for, 0 to 7 and below the flow's count of clusters.
    pub cluster: u8,
    /// The queue depth that is asked for, in the flow's request units: 1 to 65,535.
    pub units: u16,
    /// The number of the segment in its flow, 0 to 8191.
    pub sequence: u16,
    /// The channel on which the segment came, 0 to 15. It stands last, so that a request takes 16
    /// bytes: before the index it would have seven of no meaning behind it.
    pub channel: u8,
}

/// A segment of a flow that fits its grant, and the request in its header, if there is one.
#[derive(Debug, Drop)]
pub struct Admitted {
    /// The index of the record of the flow to which the grant's service identifier belongs.
    pub flow: usize,
    /// The segment that the bytes of the burst spell.
    pub segment: Segment,
    /// The request in the segment's header: none if no units are asked for or the flow doesn't have
    /// the cluster.
    pub request: Option<Request>,
    ghost ready: { IsReady segment },
}

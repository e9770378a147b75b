//! What a receiver gives.
use docsis_wire::Bytes;
use lane::Request;

/// What a receiver gives: a whole frame or a request.
#[derive(Debug, Drop)]
pub enum Given {
    /// A whole MAC frame of a flow.
    Frame {
        /// The index of the flow's record.
        flow: usize,
        /// The bytes of the frame, its header included.
        frame: Bytes,
    },
    /// A request for grants, from the header of an admitted segment. It names its channel.
    Asked(Request),
}

//! What a flow has still to do.
use docsis_wire::ReadySegment;

/// What a flow has still to do, besides joining the segments that are next. Only where an
/// allocation failed is there something, or while the flow is being closed.
#[derive(Debug, Drop)]
pub enum Pending {
    /// Nothing.
    Nothing,
    /// The window has still to slide, if it must, so that it takes this segment in, and then the
    /// segment arrives.
    Slide(ReadySegment),
    /// This segment has still to arrive.
    Arrive(ReadySegment),
    /// The flow is being closed.
    Close,
}

//! What a flow answers to an event.
//!
//! An event is a segment that arrives or a decision that segments are lost; a step joins the next
//! segment.
use docsis_wire::{Bytes, Segment};
use reorder::{Declared, Verdict};

/// What became of an event.
#[derive(Debug, Drop)]
pub enum Applied {
    /// Of a segment that arrived. Every verdict but `Kept` hands it back.
    Arrival(Verdict<Segment>),
    /// Of the decision that the expected segment is lost.
    Decision(Declared),
    /// Of the decision that segments up to a number are lost: whether at least one is declared so.
    DecisionTo(bool),
    /// Of the decision to skip up to a number: whether at least one segment is lost by it.
    DecisionSkip(bool),
}

/// What joining the next segment gave.
#[derive(Debug, Drop)]
pub enum Step {
    /// The frames that the segment completed, possibly none.
    Frames(Vec<Bytes>),
    /// No segment is next.
    Nothing,
}

/// What joining the next segment gave, where a segment that is one whole frame by itself is given
/// as it is.
#[derive(Debug, Drop)]
pub enum StepAsItIs {
    /// The segment's payload, which is the frame.
    Whole(Bytes),
    /// The frames that the segment completed, possibly none.
    Frames(Vec<Bytes>),
    /// No segment is next.
    Nothing,
}

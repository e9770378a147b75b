//! By what a receiver decides that segments are lost.

/// By what a receiver decides that segments are lost.
#[derive(Clone, Copy, Debug, PartialEq, Eq)]
pub enum LossRule {
    /// By the decisions that are handed in alone.
    Decided,
    /// Lost is also what every channel of its flow has passed: on each a later segment came, and
    /// on a channel segments come in the modem's order.
    Passed,
    /// As `Passed`; and what lies the width of the flow's window or more before a segment that
    /// comes, so that the window slides and the segment is kept.
    PassedOrSlid,
}

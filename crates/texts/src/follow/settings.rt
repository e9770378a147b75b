//! What is told of a trace that is followed.
use flow_selection::Selection;

/// What is told of a trace that is followed: by all settings the requests, what was counted of the
/// channels, and the frames and counts of the selected flows.
#[derive(Debug, Drop)]
pub struct FollowSettings {
    /// Whether it is told too what became of grants, bursts and gaps: of those that came to no
    /// flow, and of those of the selected flows.
    pub events: bool,
    /// Which flows are selected.
    pub selected: Selection,
}

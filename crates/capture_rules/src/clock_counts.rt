//! How far the times of a flow's bursts could be trusted.
ghost use Rattle.std.specs.Prelude.{◌≡◌};
ghost use Rattle.capture_rules.specs.Clock.{none_counted, counts_after, clocks_of_both};

/// How often the times of a flow's bursts, or of those of several flows, couldn't be gone by. A
/// count that has come to its greatest value, 2^64 − 1, stays there.
#[derive(Clone, Copy, Debug, PartialEq, Eq)]
pub struct ClockCounts {
    /// Bursts that came earlier than their flow's clock by more than `reorder`, so that it was set
    /// back.
    pub set_back: u64,
    /// Bursts with which more than 2,048 of a flow would have waited, so that the next was handed
    /// on early.
    pub crowded: u64,
}

impl ClockCounts {
    /// Nothing came yet.
    pub fn none() -> ClockCounts
        ensures { result ≡ none_counted }
    {
        ClockCounts {
            set_back: 0,
            crowded: 0,
        }
    }

    /// The counts of two flows, or of two groups of flows, together.
    pub fn and(self, other: ClockCounts) -> ClockCounts
        ensures { result ≡ clocks_of_both self other }
    {
        ClockCounts {
            set_back: self.set_back.saturating_add(other.set_back),
            crowded: self.crowded.saturating_add(other.crowded),
        }
    }

    /// The counts after one more burst.
    pub(crate) fn after(self, is_set_back: bool, is_crowded: bool) -> ClockCounts
        ensures { result ≡ counts_after self is_set_back is_crowded }
    {
        ClockCounts {
            set_back: self.set_back.saturating_add(u64::from(is_set_back)),
            crowded: self.crowded.saturating_add(u64::from(is_crowded)),
        }
    }
}

//! What was counted of one channel.
ghost use Rattle.std.specs.Prelude.{◌≡◌};
ghost use Rattle.capture_summary.specs.Counting.{one_more, new_channel, with_burst};

use crate::refusals::RefusalCounts;

/// What was counted of a channel of a capture. Each count stays at its greatest value, 2^64 − 1.
#[derive(Clone, Copy, Debug, PartialEq, Eq)]
pub struct ChannelSummary {
    /// The channel, 0 to 15.
    pub channel: u8,
    /// The upstream channel id.
    pub id: u32,
    /// Bursts of SIDs that the map has.
    pub bursts: u64,
    /// Bursts that were longer than their grants as the capture has them.
    pub above: u64,
    /// Bursts that the lane admitted.
    pub admitted: u64,
    /// Why the lane refused others, and how often.
    pub refused: RefusalCounts,
}

impl ChannelSummary {
    /// Nothing was counted yet.
    pub fn new(channel: u8, id: u32) -> ChannelSummary
        ensures { result ≡ new_channel channel id }
    {
        ChannelSummary {
            channel,
            id,
            bursts: 0,
            above: 0,
            admitted: 0,
            refused: RefusalCounts::none(),
        }
    }

    /// Counts a burst, which was longer than its grant or wasn't.
    pub fn count_burst(&mut self, is_above: bool)
        ensures { self.new ≡ with_burst is_above self.old }
    {
        self.bursts = self.bursts.saturating_add(1);
        if is_above {
            self.above = self.above.saturating_add(1);
        }
    }
}

//! Why a frame wasn't joined.
use crate::burst_fate::BurstFate;

/// Why a frame that an analyser joined wasn't joined here, by the bursts that it came from.
#[derive(Clone, Copy, Debug, PartialEq, Eq)]
pub enum MissingReason {
    /// The analyser names no burst of it.
    Unnamed,
    /// This burst never came.
    NeverCame(u64),
    /// This burst is none of those of which something is known: it never came, or long before.
    NotSeenLately(u64),
    /// This burst wasn't kept.
    Burst(u64, BurstFate),
    /// All its bursts that were looked at were kept: what failed is how it was joined of them.
    AllKept,
}

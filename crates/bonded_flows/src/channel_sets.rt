//! On which channels each flow has a service identifier.
ghost use Rattle.std.specs.Prelude.{◌≡◌, ◌<◌, ◌≤◌, ℕ, List, Bool, Some, IfOk, length, slice_get};
ghost use Rattle.std.specs.Prelude.{take};
ghost use Rattle.lane.specs.Limits.{most_channels};
ghost use Rattle.lane.specs.Rows.{CanBeOpenedWithin};
ghost use Rattle.bonded_flows.specs.Channels.{channels_within};

use lane::{MOST_CHANNELS, SidRow};
use std::alloc::{AllocError, Global};

/// Of each channel whether it is a flow's.
pub(crate) type ChannelSet = [bool; MOST_CHANNELS];

/// Of each of so many flows which channels are its own, by rows of so many channels that have no
/// fault: a step for each row.
pub(crate) fn channel_sets(
    alloc: Global,
    channels: u8,
    rows: &[SidRow],
    flow_count: usize,
) -> Result<Vec<ChannelSet>, AllocError>
    requires few { channels ≤ most_channels }
    requires rows { CanBeOpenedWithin channels rows.now flow_count }
    ensures count { IfOk result (λ sets. length sets.items ≡ flow_count) }
    ensures sets { IfOk result (λ sets. (k : ℕ) (set : List Bool)
        → slice_get sets.items k ≡ Some set
        → take channels set ≡ channels_within channels rows.now k) }
{
    let mut sets = vec![in alloc; [false; MOST_CHANNELS]; flow_count]?;
    for row in rows {
        sets[row.flow][usize::from(row.channel)] = true;
    }
    Ok(sets)
}

//! The channel of an upstream channel id, and the flow of each service identifier of a channel.
ghost use Rattle.std.specs.Prelude.{◌≡◌, ◌≤◌, ◌<◌, ◌⊎◌, ◌++◌, ◌∷◌, [], ℕ, List, None, IfOk};
ghost use Rattle.std.specs.Prelude.{MatchOption, length, slice_index_or};
ghost use Rattle.capture_map.specs.declared.map.MapSid.{MapSid};
ghost use Rattle.captured_flows.specs.Sids.{channel_of, flow_of, place_of, IsTableOf};
ghost use Rattle.captured_flows.specs.Sids.{most_channels, most_sids};

use capture_map::{MapChannel, MapSid};
use lane::{MOST_CHANNELS, SIDS};
use std::alloc::{AllocError, Global};

/// The channel of an upstream channel id.
pub(crate) fn channel_of(channels: &[MapChannel], id: u32) -> Option<u8>
    ensures { result ≡ channel_of channels.now id }
{
    let one = channels.iter().find(|one| one.id == id)?;
    Some(one.channel)
}

/// The flow of each service identifier of 16 channels: a table of a megabyte.
#[derive(Drop)]
pub(crate) struct SidFlows {
    flows: Vec<Option<u16>>,
}

impl SidFlows {
    ghost use Rattle.captured_flows.specs.SidFlows.{HasFlowsOf};

    /// The flows of these rows. Of two with one channel and service identifier the first counts.
    pub(crate) fn new(alloc: Global, rows: &[MapSid]) -> Result<SidFlows, AllocError>
        ensures { IfOk result (HasFlowsOf rows.now) }
    {
        let mut flows = empty_table(alloc, MOST_CHANNELS * SIDS)?;
        for row in rows {
            put(&mut flows, *row);
        }
        Ok(SidFlows { flows })
    }

    /// The flow of a service identifier of a channel, if there is one.
    pub(crate) fn flow_of(&self, channel: u8, sid: u16) -> Option<u16>
        ensures { (rows : List MapSid) → HasFlowsOf rows self.now
            → result ≡ flow_of rows channel sid }
    {
        match place_of(channel, sid) {
            Some(place) => match self.flows.get(place) {
                Some(flow) => *flow,
                None => None,
            },
            None => None,
        }
    }
}

/// A table with no flow in it.
fn empty_table(alloc: Global, places: usize) -> Result<Vec<Option<u16>>, AllocError>
    ensures many { IfOk result (λ table. length table.items ≡ places) }
    ensures none { IfOk result (λ table. (k : ℕ) → slice_index_or table.items k None ≡ None) }
{
    vec![in alloc; None; places]
}

/// The place of a service identifier of a channel in the table, if it is in range.
fn place_of(channel: u8, sid: u16) -> Option<usize>
    ensures { MatchOption result ((most_channels ≤ channel) ⊎ (most_sids ≤ sid))
        (λ place. (channel < most_channels) × (sid < most_sids) × (place ≡ place_of channel sid)) }
{
    if usize::from(channel) >= MOST_CHANNELS || usize::from(sid) >= SIDS {
        return None;
    }
    Some(usize::from(channel) * SIDS + usize::from(sid))
}

/// One row more. One that is out of range says nothing.
fn put(flows: &mut Vec<Option<u16>>, row: MapSid)
    requires many { length flows.old.items ≡ 262144 }
    ensures many { length flows.new.items ≡ 262144 }
    ensures put { (rows : List MapSid) → IsTableOf rows flows.old.items
        → IsTableOf (rows ++ row ∷ []) flows.new.items }
{
    if let Some(place) = place_of(row.channel, row.sid) {
        if flows[place].is_none() {
            flows[place] = Some(row.flow);
        }
    }
}

//! The fields of a map's lines.
ghost use Rattle.std.specs.Prelude.{◌≡◌, ℕ, Option, None, IfSome};
ghost use Rattle.text_lines.specs.Number.{IsNumberIn};
ghost use Rattle.capture_map.specs.Line.{IsFirst, SaysFlow, SaysSid, SaysChannel};
ghost use Rattle.capture_map.specs.declared.map.MapFlow.{MapFlow};
ghost use Rattle.capture_map.specs.declared.map.MapSid.{MapSid};
ghost use Rattle.capture_map.specs.declared.map.MapChannel.{MapChannel};

use crate::map::{MOST_FLOWS, MapChannel, MapFlow, MapSid, SID_MAX};
use docsis_wire::SEQUENCE_MODULUS;
use flow_records::{CLUSTERS_MAX, WINDOW_MAX};
use lane::MOST_CHANNELS;
use text_lines::{read_number, read_number_in};

/// The greatest number of a channel.
const CHANNEL_MAX: u32 = MOST_CHANNELS as u32 - 1;
/// The greatest index of a flow.
const FLOW_MAX: u32 = MOST_FLOWS as u32 - 1;
/// The greatest sequence number.
const SEQUENCE_MAX: u32 = SEQUENCE_MODULUS as u32 - 1;

/// The first number of a flow, none where it is `auto`.
fn first_said(field: &[u8]) -> Option<Option<u16>>
    ensures said { IfSome result (IsFirst field.now) }
    ensures none { result ≡ None → (first : Option ℕ) → ¬ (IsFirst field.now first) }
{
    if field == b"auto".as_slice() {
        return Some(None);
    }
    Some(Some(read_number(field, SEQUENCE_MAX)? as u16))
}

/// The flow that four fields say.
pub(crate) fn flow_said(
    sfid: &[u8],
    first: &[u8],
    window: &[u8],
    clusters: &[u8],
) -> Option<MapFlow>
    ensures said { IfSome result (SaysFlow sfid.now first.now window.now clusters.now) }
    ensures none { result ≡ None → (flow : MapFlow)
        → ¬ (SaysFlow sfid.now first.now window.now clusters.now flow) }
{
    Some(MapFlow {
        sfid: read_number(sfid, u32::MAX)?,
        first: first_said(first)?,
        window: read_number_in(window, 1, u32::from(WINDOW_MAX))? as u16,
        clusters: read_number_in(clusters, 1, u32::from(CLUSTERS_MAX))? as u8,
    })
}

/// The channel that two fields say.
pub(crate) fn channel_said(channel: &[u8], id: &[u8]) -> Option<MapChannel>
    ensures said { IfSome result (SaysChannel channel.now id.now) }
    ensures none { result ≡ None → (one : MapChannel) → ¬ (SaysChannel channel.now id.now one) }
{
    Some(MapChannel {
        channel: read_number(channel, CHANNEL_MAX)? as u8,
        id: read_number(id, u32::MAX)?,
    })
}

/// The service identifier that three fields say.
pub(crate) fn sid_said(channel: &[u8], sid: &[u8], flow: &[u8]) -> Option<MapSid>
    ensures said { IfSome result (SaysSid channel.now sid.now flow.now) }
    ensures none { result ≡ None → (row : MapSid) → ¬ (SaysSid channel.now sid.now flow.now row) }
{
    Some(MapSid {
        channel: read_number(channel, CHANNEL_MAX)? as u8,
        sid: read_number(sid, u32::from(SID_MAX))? as u16,
        flow: read_number(flow, FLOW_MAX)? as u16,
    })
}

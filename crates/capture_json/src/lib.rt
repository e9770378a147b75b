//! What was counted of a capture as JSON, for programs: one object, on one line.
//!
//! [`summary_json`] makes its text. Its members are documented in docs/FORMATS.md; all of them are
//! there, whatever came of the capture.
#![tactic(auto)]

ghost use Rattle.std.specs.Prelude.{◌≡◌, ◌∷◌, ◌++◌, [], false, IfOk, map, option_map};
ghost use Rattle.serde_json.specs.View.{view};
ghost use Rattle.serde_json.specs.Written.{compact_text, has_float};
ghost use Rattle.text_lines.specs.Lines.{line_feed};
ghost use Rattle.capture_summary.specs.Counting.{selected_flows};
ghost use Rattle.capture_json.specs.Counted.{segments_data, frames_data, flow_data};
ghost use Rattle.capture_json.specs.Counted.{refused_grants_data, refused_bursts_data};
ghost use Rattle.capture_json.specs.Counted.{channel_data};
ghost use Rattle.capture_json.specs.Counted.{passed_data, summary_data};
ghost use Rattle.capture_json.specs.Compared.{compared_or_null};

mod compared;

use crate::compared::compared_or_null;
use burst_fates::MissingReason;
use capture_summary::{CaptureSummary, ChannelSummary, FlowSummary, PassedCounts, RefusalCounts};
use frame_comparison::FrameComparison;
use lane::Refusal;
use serde_json::{Value, json};
use std::alloc::{AllocError, Global};

/// What became of the segments of a flow.
fn segments_value(alloc: Global, flow: &FlowSummary) -> Result<Value, AllocError>
    ensures { IfOk result (λ value. view value ≡ segments_data flow.now) }
{
    let counts = &flow.counts;
    json!(in alloc; {
        "beyond": counts.beyond,
        "kept": counts.kept,
        "late": counts.late,
        "lost": counts.lost,
        "repeated": counts.repeat
    })
}

/// What is known of the frames of a flow.
fn frames_value(alloc: Global, flow: &FlowSummary) -> Result<Value, AllocError>
    ensures { IfOk result (λ value. view value ≡ frames_data flow.now) }
{
    json!(in alloc; {
        "all": flow.counts.frames,
        "encrypted": flow.encrypted,
        "fcs_right": flow.right,
        "fcs_wrong": flow.wrong
    })
}

/// What was counted of a flow.
fn flow_value(alloc: Global, flow: &FlowSummary) -> Result<Value, AllocError>
    ensures { IfOk result (λ value. view value ≡ flow_data flow.now) }
{
    let segments = segments_value(alloc, flow)?;
    let frames = frames_value(alloc, flow)?;
    json!(in alloc; {
        "frames": frames,
        "requests": {"all": flow.requests, "units": flow.units},
        "restarts": flow.restarts,
        "segments": segments,
        "sfid": flow.sfid,
        "skipped_bytes": flow.counts.skipped
    })
}

/// How often a lane refused a grant, by reason.
fn refused_grants_value(alloc: Global, refused: &RefusalCounts) -> Result<Value, AllocError>
    ensures { IfOk result (λ value. view value ≡ refused_grants_data refused.now) }
{
    json!(in alloc; {
        "known": refused.of(Refusal::GrantKnown),
        "out_of_memory": refused.of(Refusal::GrantOutOfMemory),
        "out_of_range": refused.of(Refusal::GrantRange),
        "too_many": refused.of(Refusal::TooManyGrants),
        "unknown_sid": refused.of(Refusal::UnknownSid)
    })
}

/// How often a lane refused a burst, by reason.
fn refused_bursts_value(alloc: Global, refused: &RefusalCounts) -> Result<Value, AllocError>
    ensures { IfOk result (λ value. view value ≡ refused_bursts_data refused.now) }
{
    json!(in alloc; {
        "bad_check": refused.of(Refusal::BadCheck),
        "no_grant": refused.of(Refusal::NoGrant),
        "out_of_memory": refused.of(Refusal::BurstOutOfMemory),
        "pointer_past_the_end": refused.of(Refusal::PointerPast),
        "too_long": refused.of(Refusal::TooLong),
        "too_short": refused.of(Refusal::TooShort)
    })
}

/// What was counted of a channel.
fn channel_value(alloc: Global, one: &ChannelSummary) -> Result<Value, AllocError>
    ensures { IfOk result (λ value. view value ≡ channel_data one.now) }
{
    let bursts = refused_bursts_value(alloc, &one.refused)?;
    let grants = refused_grants_value(alloc, &one.refused)?;
    json!(in alloc; {
        "above_grant": one.above,
        "admitted": one.admitted,
        "bursts": one.bursts,
        "channel": one.channel,
        "id": one.id,
        "refused_bursts": bursts,
        "refused_grants": grants
    })
}

/// How many records were passed over, by reason.
fn passed_value(alloc: Global, passed: &PassedCounts) -> Result<Value, AllocError>
    ensures { IfOk result (λ value. view value ≡ passed_data passed.now) }
{
    json!(in alloc; {
        "cut_short": passed.cut_short,
        "malformed": passed.malformed,
        "no_channel_or_sid": passed.no_channel_or_sid,
        "no_segment_header": passed.no_segment_header,
        "other_link_type": passed.other_link_type,
        "other_type": passed.other_type,
        "unknown_channel": passed.unknown_channel,
        "unknown_sid": passed.unknown_sid
    })
}

/// What was counted of those of these flows that are selected.
fn all_flows(alloc: Global, flows: &[FlowSummary]) -> Result<Vec<Value>, AllocError>
    ensures { IfOk result (λ values.
        map view values.items ≡ map flow_data (selected_flows flows.now)) }
{
    let mut values = Vec::with_capacity(alloc, flows.len())?;
    for flow in flows {
        if flow.is_selected {
            values.push(flow_value(alloc, flow)?)?;
        }
    }
    Ok(values)
}

/// What was counted of these channels.
fn all_channels(alloc: Global, channels: &[ChannelSummary]) -> Result<Vec<Value>, AllocError>
    ensures { IfOk result (λ values. map view values.items ≡ map channel_data channels.now) }
{
    let mut values = Vec::with_capacity(alloc, channels.len())?;
    for one in channels {
        values.push(channel_value(alloc, one)?)?;
    }
    Ok(values)
}

/// All that was counted, and how frames compare.
fn summary_value(
    alloc: Global,
    summary: &CaptureSummary,
    compared: Value,
) -> Result<Value, AllocError>
    ensures { IfOk result (λ value. view value ≡ summary_data (view compared) summary.now) }
{
    let channels = all_channels(alloc, &summary.channels)?;
    let flows = all_flows(alloc, &summary.flows)?;
    let passed = passed_value(alloc, &summary.passed)?;
    json!(in alloc; {
        "channels": channels,
        "clock_crowded": summary.crowded,
        "clock_set_back": summary.set_back,
        "comparison": compared,
        "earlier": summary.earlier,
        "flows": flows,
        "passed": passed,
        "records": summary.records
    })
}

/// The text of a value without fractions, a line.
fn line_of(alloc: Global, value: &Value) -> Result<Vec<u8>, AllocError>
    requires whole { has_float (view value.now) ≡ false }
    ensures { IfOk result (λ text. text.items ≡ compact_text (view value.now) ++ line_feed ∷ []) }
{
    let mut text = value.to_vec(alloc)?;
    text.push(b'\n')?;
    Ok(text)
}

/// The text of all that was counted, a line, with how frames compare where they are compared: then
/// `strangers` frames of the analyser's are of no flow, and `reasons` says of each frame that only
/// the analyser has, at its place in the list, why we haven't it. Otherwise it reports that an
/// allocation failed.
pub fn summary_json(
    alloc: Global,
    summary: &CaptureSummary,
    comparison: Option<&FrameComparison>,
    reasons: &[MissingReason],
    strangers: u64,
) -> Result<Vec<u8>, AllocError>
    ensures { let seen = option_map (λ one. one.now) comparison.entry in
        let compared = compared_or_null summary.now.flows.items reasons.now strangers
        seen in
        IfOk result (λ text. text.items
        ≡ compact_text (summary_data compared summary.now) ++ line_feed ∷ []) }
{
    let compared = compared_or_null(alloc, summary, comparison, reasons, strangers)?;
    let value = summary_value(alloc, summary, compared)?;
    line_of(alloc, &value)
}

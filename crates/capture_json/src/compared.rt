//! How frames compare as JSON.
ghost use Rattle.std.specs.Prelude.{◌≡◌, ◌++◌, IfOk, OnOk, map, option_map, slice_get};
ghost use Rattle.std.specs.List.{enumerate_from};
ghost use Rattle.serde_json.specs.View.{view};
ghost use Rattle.capture_json.specs.Compared.{sfid_data, compared_data, told_if, only_data};
ghost use Rattle.capture_json.specs.Compared.{compared_flows, burst_data, reason_data};
ghost use Rattle.capture_json.specs.Compared.{missing_data};
ghost use Rattle.capture_json.specs.Compared.{comparison_data, compared_or_null};

use burst_fates::MissingReason;
use capture_summary::{CaptureSummary, FlowSummary};
use frame_comparison::{ComparedCounts, FrameComparison, LonelyFrame, Side, reason_at};
use serde_json::{Value, json};
use std::alloc::{AllocError, Global};
use text_lines::NANOSECONDS_PER_SECOND;

/// The flow with this index, if there is one.
fn flow_at(flows: &[FlowSummary], flow: usize) -> Option<FlowSummary>
    ensures { result ≡ slice_get flows.now flow }
{
    flows.get(flow).copied()
}

/// The service flow identifier of a flow, if there is such a flow.
fn sfid_value(flow: Option<FlowSummary>) -> Value
    ensures { view result ≡ sfid_data flow }
{
    match flow {
        Some(flow) => Value::from(flow.sfid),
        None => Value::Null,
    }
}

/// A flow, and what was counted of it.
fn compared_value(
    alloc: Global,
    flows: &[FlowSummary],
    flow: usize,
    counts: &ComparedCounts,
) -> Result<Value, AllocError>
    ensures { IfOk result (λ value. view value ≡ compared_data flows.now (flow, counts.now)) }
{
    let sfid = sfid_value(flow_at(flows, flow));
    json!(in alloc; {
        "both": counts.both,
        "flow": flow,
        "only_analyser": counts.only_analyser,
        "only_here": counts.only_here,
        "sfid": sfid
    })
}

/// Adds a flow, if something came of it.
fn push_compared(
    alloc: Global,
    values: &mut Vec<Value>,
    flows: &[FlowSummary],
    flow: usize,
    counts: &ComparedCounts,
) -> Result<(), AllocError>
    ensures { OnOk result (map view values.new.items
        ≡ map view values.old.items ++ map (compared_data flows.now) (told_if (flow, counts.now))) }
{
    if counts.is_quiet() {
        return Ok(());
    }
    values.push(compared_value(alloc, flows, flow, counts)?)?;
    Ok(())
}

/// The flows of which something came.
fn all_compared(
    alloc: Global,
    flows: &[FlowSummary],
    all: &[ComparedCounts],
) -> Result<Vec<Value>, AllocError>
    ensures { IfOk result (λ values. map view values.items
        ≡ map (compared_data flows.now) (compared_flows all.now)) }
{
    let mut values = Vec::new(alloc);
    for (flow, counts) in all.iter().enumerate() {
        push_compared(alloc, &mut values, flows, flow, counts)?;
    }
    Ok(values)
}

/// The service flow identifier of a frame's flow, if there is such a flow.
fn sfid_of(flows: &[FlowSummary], frame: &LonelyFrame) -> Value
    ensures { view result ≡ sfid_data (slice_get flows.now frame.now.flow) }
{
    sfid_value(flow_at(flows, frame.flow))
}

/// A frame that only we have.
fn only_value(
    alloc: Global,
    flows: &[FlowSummary],
    frame: &LonelyFrame,
) -> Result<Value, AllocError>
    ensures { IfOk result (λ value. view value ≡ only_data flows.now frame.now) }
{
    let first = hex::encode(alloc, frame.first.as_slice())?;
    let sfid = sfid_of(flows, frame);
    json!(in alloc; {
        "bytes": frame.length,
        "first": first,
        "flow": frame.flow,
        "nanoseconds": frame.time % NANOSECONDS_PER_SECOND,
        "seconds": frame.time / NANOSECONDS_PER_SECOND,
        "sfid": sfid
    })
}

/// The frames that only we have.
fn all_only(
    alloc: Global,
    flows: &[FlowSummary],
    frames: &[LonelyFrame],
) -> Result<Vec<Value>, AllocError>
    ensures { IfOk result (λ values.
        map view values.items ≡ map (only_data flows.now) frames.now) }
{
    let mut values = Vec::with_capacity(alloc, frames.len())?;
    for frame in frames {
        values.push(only_value(alloc, flows, frame)?)?;
    }
    Ok(values)
}

/// The burst that a reason names, if it names one.
fn burst_value(burst: Option<u64>) -> Value
    ensures { view result ≡ burst_data burst }
{
    match burst {
        Some(id) => Value::from(id),
        None => Value::Null,
    }
}

/// Why we haven't a frame, if that is known.
fn reason_value(alloc: Global, reason: Option<MissingReason>) -> Result<Value, AllocError>
    ensures { IfOk result (λ value. view value ≡ reason_data reason) }
{
    let Some(reason) = reason else {
        return Ok(Value::Null);
    };
    let burst = burst_value(reason.burst());
    json!(in alloc; {
        "burst": burst,
        "reason": reason.word()
    })
}

/// A frame that only the analyser has, with the reason at its place.
fn missing_value(
    alloc: Global,
    flows: &[FlowSummary],
    reasons: &[MissingReason],
    place: usize,
    frame: &LonelyFrame,
) -> Result<Value, AllocError>
    ensures { IfOk result (λ value.
        view value ≡ missing_data flows.now reasons.now (place, frame.now)) }
{
    let first = hex::encode(alloc, frame.first.as_slice())?;
    let sfid = sfid_of(flows, frame);
    let why = reason_value(alloc, reason_at(reasons, place))?;
    json!(in alloc; {
        "bytes": frame.length,
        "first": first,
        "flow": frame.flow,
        "nanoseconds": frame.time % NANOSECONDS_PER_SECOND,
        "seconds": frame.time / NANOSECONDS_PER_SECOND,
        "sfid": sfid,
        "why": why
    })
}

/// The frames that only the analyser has.
fn all_missing(
    alloc: Global,
    flows: &[FlowSummary],
    reasons: &[MissingReason],
    frames: &[LonelyFrame],
) -> Result<Vec<Value>, AllocError>
    ensures { IfOk result (λ values. map view values.items
        ≡ map (missing_data flows.now reasons.now) (enumerate_from 0 frames.now)) }
{
    let mut values = Vec::with_capacity(alloc, frames.len())?;
    for (place, frame) in frames.iter().enumerate() {
        values.push(missing_value(alloc, flows, reasons, place, frame)?)?;
    }
    Ok(values)
}

/// How frames compare, and how many of the analyser's are of no flow.
fn comparison_value(
    alloc: Global,
    flows: &[FlowSummary],
    comparison: &FrameComparison,
    reasons: &[MissingReason],
    strangers: u64,
) -> Result<Value, AllocError>
    ensures { IfOk result (λ value.
        view value ≡ comparison_data flows.now reasons.now strangers comparison.now) }
{
    let compared = all_compared(alloc, flows, comparison.counts())?;
    let analyser = all_missing(alloc, flows, reasons, comparison.lonely(Side::Analyser))?;
    let here = all_only(alloc, flows, comparison.lonely(Side::Here))?;
    json!(in alloc; {
        "flows": compared,
        "only_analyser": analyser,
        "only_here": here,
        "strangers": strangers,
        "whole": comparison.is_whole()
    })
}

/// How frames compare, or null where they aren't compared.
pub(crate) fn compared_or_null(
    alloc: Global,
    summary: &CaptureSummary,
    comparison: Option<&FrameComparison>,
    reasons: &[MissingReason],
    strangers: u64,
) -> Result<Value, AllocError>
    ensures { let seen = option_map (λ one. one.now) comparison.entry in
        let flows = summary.now.flows.items in
        IfOk result (λ value. view value ≡ compared_or_null flows reasons.now strangers seen) }
{
    match comparison {
        Some(comparison) => {
            comparison_value(alloc, &summary.flows, comparison, reasons, strangers)
        }
        None => Ok(Value::Null),
    }
}

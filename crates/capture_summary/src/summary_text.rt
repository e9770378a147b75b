//! What people read of a capture in the end.
ghost use Rattle.std.specs.Prelude.{◌≡◌, flat_map, count_by};
ghost use Rattle.text_lines.specs.Putting.{Puts};
ghost use Rattle.capture_summary.specs.Counting.{is_selected_quiet, count_of_refusal};
ghost use Rattle.capture_summary.specs.Counting.{count_of_reason};
ghost use Rattle.capture_summary.specs.SummaryText.{segments_line, frames_line, requests_line};
ghost use Rattle.capture_summary.specs.SummaryText.{flow_text, counted_line, refusal_line};
ghost use Rattle.capture_summary.specs.SummaryText.{channel_line, channel_text, all_records_line};
ghost use Rattle.capture_summary.specs.SummaryText.{set_back_told, crowded_told, times_told};
ghost use Rattle.capture_summary.specs.SummaryText.{reason_line, summary_text};

use crate::channel_summary::ChannelSummary;
use crate::flow_summary::FlowSummary;
use crate::named_numbers::{put_named, put_named_line};
use crate::passed::{ALL_REASONS, PassedCounts, PassedReason};
use crate::refusals::{ALL_REFUSALS, RefusalCounts, refusal_text};
use crate::summary::CaptureSummary;
use lane::Refusal;
use text_lines::{PutText, put_word};

/// Puts what became of the segments of a flow.
fn put_segments_line<O: PutText>(out: &mut O, flow: &FlowSummary)
    ensures { Puts O.after out.old (segments_line flow.now) out.new }
{
    let parts = [
        ("flow", u64::from(flow.sfid)),
        (": segments kept", flow.counts.kept),
        (", late", flow.counts.late),
        (", repeated", flow.counts.repeat),
        (", beyond the window", flow.counts.beyond),
        (", lost", flow.counts.lost),
    ];
    put_named_line(out, &parts);
}

/// Puts how the frames of a flow are.
fn put_frames_line<O: PutText>(out: &mut O, flow: &FlowSummary)
    ensures { Puts O.after out.old (frames_line flow.now) out.new }
{
    let parts = [
        ("  frames", flow.counts.frames),
        (": FCS right", flow.right),
        (", wrong", flow.wrong),
        (", encrypted", flow.encrypted),
        ("; bytes skipped", flow.counts.skipped),
    ];
    put_named_line(out, &parts);
}

/// Puts how often a flow began anew, and what it asked for.
fn put_requests_line<O: PutText>(out: &mut O, flow: &FlowSummary)
    ensures { Puts O.after out.old (requests_line flow.now) out.new }
{
    let parts = [
        ("  restarts", flow.restarts),
        ("; requests", flow.requests),
        (", units", flow.units),
    ];
    put_named_line(out, &parts);
}

/// Puts what came of a flow, if it is selected and something did.
fn put_flow<O: PutText>(out: &mut O, flow: &FlowSummary)
    ensures { Puts O.after out.old (flow_text flow.now) out.new }
{
    if !flow.is_selected {
        return;
    }
    if flow.is_quiet() {
        return;
    }
    put_segments_line(out, flow);
    put_frames_line(out, flow);
    put_requests_line(out, flow);
}

/// Puts what came of flows.
fn put_all_flows<O: PutText>(out: &mut O, flows: &[FlowSummary])
    ensures { Puts O.after out.old (flat_map flow_text flows.now) out.new }
{
    for flow in flows {
        put_flow(out, flow);
    }
}

/// How many of these flows are selected, and nothing came of them.
fn quiet_count(flows: &[FlowSummary]) -> usize
    ensures { result ≡ count_by is_selected_quiet flows.now }
{
    flows
        .iter()
        .filter(|flow| flow.is_selected && flow.is_quiet())
        .count()
}

/// Puts what was counted, if something was.
fn put_counted_line<O: PutText>(out: &mut O, what: &str, count: u64)
    ensures { Puts O.after out.old (counted_line what.now count) out.new }
{
    if count == 0 {
        return;
    }
    put_named_line(out, &[(what, count)]);
}

/// Puts how often a refusal came, if it did.
fn put_refusal_line<O: PutText>(out: &mut O, refusal: Refusal, count: u64)
    ensures { Puts O.after out.old (refusal_line refusal count) out.new }
{
    if count == 0 {
        return;
    }
    put_word(out, "  refused: ");
    put_named(out, refusal_text(refusal), count);
    put_word(out, "\n");
}

/// Puts those of these refusals that came.
fn put_all_refusals<O: PutText>(out: &mut O, refused: &RefusalCounts, refusals: &[Refusal])
    ensures { Puts O.after out.old (flat_map
        (λ refusal. refusal_line refusal (count_of_refusal refused.now refusal))
        refusals.now) out.new }
{
    for refusal in refusals {
        put_refusal_line(out, *refusal, refused.of(*refusal));
    }
}

/// Puts how many bursts a channel had.
fn put_channel_line<O: PutText>(out: &mut O, channel: &ChannelSummary)
    ensures { Puts O.after out.old (channel_line channel.now) out.new }
{
    let number = u64::from(channel.channel);
    let id = u64::from(channel.id);
    let parts = [
        ("channel", number),
        (", upstream channel id", id),
        (": bursts", channel.bursts),
        (", above their grant", channel.above),
        (", admitted", channel.admitted),
    ];
    put_named_line(out, &parts);
}

/// Puts what came on a channel.
fn put_channel<O: PutText>(out: &mut O, channel: &ChannelSummary)
    ensures { Puts O.after out.old (channel_text channel.now) out.new }
{
    put_channel_line(out, channel);
    put_all_refusals(out, &channel.refused, &ALL_REFUSALS);
}

/// Puts what came on channels.
fn put_all_channels<O: PutText>(out: &mut O, channels: &[ChannelSummary])
    ensures { Puts O.after out.old (flat_map channel_text channels.now) out.new }
{
    for channel in channels {
        put_channel(out, channel);
    }
}

/// Puts how many records there were.
fn put_records_line<O: PutText>(out: &mut O, summary: &CaptureSummary)
    ensures { Puts O.after out.old (all_records_line summary.now) out.new }
{
    let parts = [
        ("records", summary.records),
        (", earlier than the record before", summary.earlier),
    ];
    put_named_line(out, &parts);
}

/// Puts how often clocks were set back, if one was.
fn put_set_back<O: PutText>(out: &mut O, count: u64)
    ensures { Puts O.after out.old (set_back_told count) out.new }
{
    put_counted_line(
        out,
        "  bursts earlier than their flow's clock by more than --reorder, which set it back:",
        count,
    );
}

/// Puts how many bursts were handed on early, if some were.
fn put_crowded<O: PutText>(out: &mut O, count: u64)
    ensures { Puts O.after out.old (crowded_told count) out.new }
{
    put_counted_line(
        out,
        "  bursts handed on early, as 2048 of their flow waited \
         (times stand still, or --reorder is long):",
        count,
    );
}

/// Puts how often times couldn't be gone by, where they couldn't.
fn put_times_told<O: PutText>(out: &mut O, summary: &CaptureSummary)
    ensures { Puts O.after out.old (times_told summary.now) out.new }
{
    put_set_back(out, summary.set_back);
    put_crowded(out, summary.crowded);
}

/// Puts how many records were passed over for a reason, if some were.
fn put_reason_line<O: PutText>(out: &mut O, why: PassedReason, count: u64)
    ensures { Puts O.after out.old (reason_line why count) out.new }
{
    if count == 0 {
        return;
    }
    put_word(out, "  passed over: ");
    put_named_line(out, &[(why.text(), count)]);
}

/// Puts how many records were passed over for each of these reasons.
fn put_all_reasons<O: PutText>(out: &mut O, passed: &PassedCounts, reasons: &[PassedReason])
    ensures { Puts O.after out.old
        (flat_map (λ why. reason_line why (count_of_reason passed.now why)) reasons.now) out.new }
{
    for why in reasons {
        put_reason_line(out, *why, passed.of(*why));
    }
}

/// Puts what people read of a capture in the end: three lines for each selected flow of which
/// something came, and how many others of them there are; a line for each channel, and below it one
/// for each refusal that came; one for all records, and below it one for each way in which times
/// couldn't be gone by and for each reason to pass some over.
pub fn put_summary<O: PutText>(out: &mut O, summary: &CaptureSummary)
    ensures { Puts O.after out.old (summary_text summary.now) out.new }
{
    let flows = summary.flows.as_slice();
    let channels = summary.channels.as_slice();
    put_all_flows(out, flows);
    let quiet = quiet_count(flows) as u64;
    put_counted_line(out, "flows of which nothing came:", quiet);
    put_all_channels(out, channels);
    put_records_line(out, summary);
    put_times_told(out, summary);
    put_all_reasons(out, &summary.passed, &ALL_REASONS);
}

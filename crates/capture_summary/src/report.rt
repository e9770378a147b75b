//! The report of a capture.
ghost use Rattle.std.specs.Prelude.{◌≡◌, flat_map};
ghost use Rattle.text_lines.specs.Putting.{Puts, numbered_texts};
ghost use Rattle.capture_summary.specs.ReplayLines.{flow_line};
ghost use Rattle.lane.specs.Report.{refusal_number};
ghost use Rattle.capture_summary.specs.Counting.{count_of_refusal, count_of_reason};
ghost use Rattle.capture_summary.specs.Report.{joined_line, flow_lines, counted_refusal};
ghost use Rattle.capture_summary.specs.Report.{refused_text, admitted_text, lane_line, bursts_line};
ghost use Rattle.capture_summary.specs.Report.{channel_lines, passed_line, records_line};
ghost use Rattle.capture_summary.specs.Report.{clock_line, report_text};

use crate::channel_summary::ChannelSummary;
use crate::flow_summary::FlowSummary;
use crate::named_numbers::{put_named, put_named_line};
use crate::passed::{ALL_REASONS, PassedCounts, PassedReason};
use crate::refusals::{ALL_REFUSALS, RefusalCounts};
use crate::summary::CaptureSummary;
use flow_core::FlowCounts;
use lane::Refusal;
use text_lines::{PutText, put_number, put_spaced, put_word};

/// Puts the line of the flow with this index, its service flow identifier and its counts.
fn put_flow_line<O: PutText>(out: &mut O, k: usize, sfid: u32, counts: &FlowCounts)
    ensures { Puts O.after out.old (flow_line k sfid counts.now) out.new }
{
    let parts = [
        ("flow", k as u64),
        ("", u64::from(sfid)),
        (" kept", counts.kept),
        (" late", counts.late),
        (" repeat", counts.repeat),
        (" beyond", counts.beyond),
        (" lost", counts.lost),
        (" frames", counts.frames),
        (" skipped", counts.skipped),
    ];
    put_named_line(out, &parts);
}

/// Puts how the frames and requests of the flow with this index are.
fn put_joined_line<O: PutText>(out: &mut O, k: usize, flow: &FlowSummary)
    ensures { Puts O.after out.old (joined_line k flow.now) out.new }
{
    let parts = [
        ("joined", k as u64),
        (" right", flow.right),
        (" wrong", flow.wrong),
        (" encrypted", flow.encrypted),
        (" restarts", flow.restarts),
        (" requests", flow.requests),
        (" units", flow.units),
    ];
    put_named_line(out, &parts);
}

/// Puts the lines of the flow with this index, if it is selected.
fn put_flow<O: PutText>(out: &mut O, k: usize, flow: &FlowSummary)
    ensures { Puts O.after out.old (flow_lines k flow.now) out.new }
{
    if flow.is_selected {
        put_flow_line(out, k, flow.sfid, &flow.counts);
        put_joined_line(out, k, flow);
    }
}

/// Puts the lines of the flows that are selected.
fn put_all_flows<O: PutText>(out: &mut O, flows: &[FlowSummary])
    ensures { Puts O.after out.old (numbered_texts flow_lines flows.now) out.new }
{
    for (k, flow) in flows.iter().enumerate() {
        put_flow(out, k, flow);
    }
}

/// Puts how often the refusal with this number came, if it did.
fn put_counted_refusal<O: PutText>(out: &mut O, number: u8, count: u64)
    ensures { Puts O.after out.old (counted_refusal number count) out.new }
{
    if count == 0 {
        return;
    }
    put_spaced(out, u64::from(number));
    put_word(out, "x");
    put_number(out, count);
}

/// Puts those of these refusals that came.
fn put_all_refusals<O: PutText>(out: &mut O, refused: &RefusalCounts, refusals: &[Refusal])
    ensures { Puts O.after out.old (flat_map
        (λ refusal. counted_refusal (refusal_number refusal) (count_of_refusal refused.now refusal))
        refusals.now) out.new }
{
    for refusal in refusals {
        put_counted_refusal(out, refusal.number(), refused.of(*refusal));
    }
}

/// Puts the refusals that came, or `-` if none did.
fn put_refused<O: PutText>(out: &mut O, refused: &RefusalCounts)
    ensures { Puts O.after out.old (refused_text refused.now) out.new }
{
    if refused.is_empty() {
        return put_word(out, " -");
    }
    put_all_refusals(out, refused, &ALL_REFUSALS);
}

/// Puts how many segments the lane of a channel admitted, and the word before what it refused.
fn put_admitted<O: PutText>(out: &mut O, channel: u64, admitted: u64)
    ensures { Puts O.after out.old (admitted_text channel admitted) out.new }
{
    put_named(out, "lane", channel);
    put_named(out, " admitted", admitted);
    put_word(out, " refused");
}

/// Puts what the lane of a channel did.
fn put_lane_line<O: PutText>(out: &mut O, channel: &ChannelSummary)
    ensures { Puts O.after out.old (lane_line channel.now) out.new }
{
    put_admitted(out, u64::from(channel.channel), channel.admitted);
    put_refused(out, &channel.refused);
    put_word(out, "\n");
}

/// Puts how many bursts a channel had.
fn put_bursts_line<O: PutText>(out: &mut O, channel: &ChannelSummary)
    ensures { Puts O.after out.old (bursts_line channel.now) out.new }
{
    let number = u64::from(channel.channel);
    let id = u64::from(channel.id);
    let parts = [
        ("bursts", number),
        ("", id),
        ("", channel.bursts),
        (" above", channel.above),
    ];
    put_named_line(out, &parts);
}

/// Puts the lines of a channel.
fn put_channel<O: PutText>(out: &mut O, channel: &ChannelSummary)
    ensures { Puts O.after out.old (channel_lines channel.now) out.new }
{
    put_lane_line(out, channel);
    put_bursts_line(out, channel);
}

/// Puts the lines of channels.
fn put_all_channels<O: PutText>(out: &mut O, channels: &[ChannelSummary])
    ensures { Puts O.after out.old (flat_map channel_lines channels.now) out.new }
{
    for channel in channels {
        put_channel(out, channel);
    }
}

/// Puts how many records were passed over for a reason, if some were.
fn put_passed_line<O: PutText>(out: &mut O, why: PassedReason, count: u64)
    ensures { Puts O.after out.old (passed_line why count) out.new }
{
    if count == 0 {
        return;
    }
    put_named(out, "passed", count);
    put_word(out, " ");
    put_word(out, why.text());
    put_word(out, "\n");
}

/// Puts how many records were passed over for each of these reasons.
fn put_passed<O: PutText>(out: &mut O, passed: &PassedCounts, reasons: &[PassedReason])
    ensures { Puts O.after out.old
        (flat_map (λ why. passed_line why (count_of_reason passed.now why)) reasons.now) out.new }
{
    for why in reasons {
        put_passed_line(out, *why, passed.of(*why));
    }
}

/// Puts how many records there were.
fn put_records_line<O: PutText>(out: &mut O, summary: &CaptureSummary)
    ensures { Puts O.after out.old (records_line summary.now) out.new }
{
    put_named_line(
        out,
        &[("records", summary.records), (" earlier", summary.earlier)],
    );
}

/// Puts how often times couldn't be gone by.
fn put_clock_line<O: PutText>(out: &mut O, summary: &CaptureSummary)
    ensures { Puts O.after out.old (clock_line summary.now) out.new }
{
    let parts = [
        ("clock set_back", summary.set_back),
        (" crowded", summary.crowded),
    ];
    put_named_line(out, &parts);
}

/// Puts the report of a capture: two lines for each flow that is selected, in order; two for each
/// channel, in order; one for each reason for which records were passed over; one for all records;
/// and one for clocks.
pub fn put_report<O: PutText>(out: &mut O, summary: &CaptureSummary)
    ensures { Puts O.after out.old (report_text summary.now) out.new }
{
    let flows = summary.flows.as_slice();
    let channels = summary.channels.as_slice();
    put_all_flows(out, flows);
    put_all_channels(out, channels);
    put_passed(out, &summary.passed, &ALL_REASONS);
    put_records_line(out, summary);
    put_clock_line(out, summary);
}

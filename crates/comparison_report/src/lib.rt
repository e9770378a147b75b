//! The lines of a comparison of frames for programs.
//!
//! [`put_comparison_report`] puts them, behind those of a capture's report.
//!
//! What matters most: what is put is the text of the definition `report_text`.
#![tactic(auto)]

ghost use Rattle.std.specs.Prelude.{◌≡◌, flat_map};
ghost use Rattle.text_lines.specs.Putting.{Puts, numbered_texts};
ghost use Rattle.comparison_report.specs.ReportLines.{flow_line, hex_field, only_fields, here_line};
ghost use Rattle.comparison_report.specs.ReportLines.{burst_field, reason_fields, missing_line};
ghost use Rattle.comparison_report.specs.ReportLines.{whole_word, comparison_line, report_text};

use burst_fates::MissingReason;
use frame_comparison::{ComparedCounts, FrameComparison, LonelyFrame, Side, reason_at};
use text_lines::{PutText, put_hex, put_number, put_spaced, put_word};

/// Puts the line of a flow, if something came of it.
fn put_flow<O: PutText>(out: &mut O, flow: usize, counts: &ComparedCounts)
    ensures { Puts O.after out.old (flow_line flow counts.now) out.new }
{
    if counts.is_quiet() {
        return;
    }
    put_word(out, "compared");
    put_spaced(out, flow as u64);
    put_word(out, " both");
    put_spaced(out, counts.both);
    put_word(out, " analyser");
    put_spaced(out, counts.only_analyser);
    put_word(out, " here");
    put_spaced(out, counts.only_here);
    put_word(out, "\n");
}

/// Puts the lines of flows.
fn put_all_flows<O: PutText>(out: &mut O, counts: &[ComparedCounts])
    ensures { Puts O.after out.old (numbered_texts flow_line counts.now) out.new }
{
    for (flow, one) in counts.iter().enumerate() {
        put_flow(out, flow, one);
    }
}

/// Puts bytes as a field, `-` for none.
fn put_hex_field<O: PutText>(out: &mut O, bytes: &[u8])
    ensures { Puts O.after out.old (hex_field bytes.now) out.new }
{
    if bytes.is_empty() {
        return put_word(out, "-");
    }
    put_hex(out, bytes);
}

/// Puts a frame that only one side has, behind these words.
fn put_only<O: PutText>(out: &mut O, words: &str, frame: &LonelyFrame)
    ensures { Puts O.after out.old (only_fields words.now frame.now) out.new }
{
    put_word(out, words);
    put_spaced(out, frame.flow as u64);
    put_spaced(out, frame.time);
    put_spaced(out, frame.length as u64);
    put_word(out, " ");
    put_hex_field(out, &frame.first);
}

/// Puts the line of a frame that only we have.
fn put_here<O: PutText>(out: &mut O, frame: &LonelyFrame)
    ensures { Puts O.after out.old (here_line frame.now) out.new }
{
    put_only(out, "only here", frame);
    put_word(out, "\n");
}

/// Puts the lines of the frames that only we have.
fn put_all_here<O: PutText>(out: &mut O, frames: &[LonelyFrame])
    ensures { Puts O.after out.old (flat_map here_line frames.now) out.new }
{
    for frame in frames {
        put_here(out, frame);
    }
}

/// Puts the number of a burst as a field, `-` for none.
fn put_burst_field<O: PutText>(out: &mut O, burst: Option<u64>)
    ensures { Puts O.after out.old (burst_field burst) out.new }
{
    match burst {
        Some(id) => put_number(out, id),
        None => put_word(out, "-"),
    }
}

/// Puts why we haven't a frame, and the burst that it names; `-` for each where that isn't known.
fn put_reason<O: PutText>(out: &mut O, reason: Option<MissingReason>)
    ensures { Puts O.after out.old (reason_fields reason) out.new }
{
    let Some(reason) = reason else {
        return put_word(out, " - -");
    };
    put_word(out, " ");
    put_word(out, reason.word());
    put_word(out, " ");
    put_burst_field(out, reason.burst());
}

/// Puts the line of a frame that only the analyser has, with the reason at its place.
fn put_missing<O: PutText>(
    out: &mut O,
    reasons: &[MissingReason],
    place: usize,
    frame: &LonelyFrame,
)
    ensures { Puts O.after out.old (missing_line reasons.now place frame.now) out.new }
{
    put_only(out, "only analyser", frame);
    put_reason(out, reason_at(reasons, place));
    put_word(out, "\n");
}

/// Puts the lines of the frames that only the analyser has.
fn put_all_missing<O: PutText>(out: &mut O, reasons: &[MissingReason], frames: &[LonelyFrame])
    ensures { Puts O.after out.old (numbered_texts (missing_line reasons.now) frames.now) out.new }
{
    for (place, frame) in frames.iter().enumerate() {
        put_missing(out, reasons, place, frame);
    }
}

/// The word for whether a comparison is whole.
fn whole_word(is_whole: bool) -> &'static str
    ensures { result.now ≡ whole_word is_whole }
{
    if is_whole { "whole" } else { "partial" }
}

/// Puts the last line.
fn put_last<O: PutText>(out: &mut O, is_whole: bool, strangers: u64)
    ensures { Puts O.after out.old (comparison_line is_whole strangers) out.new }
{
    put_word(out, "comparison ");
    put_word(out, whole_word(is_whole));
    put_word(out, " strangers");
    put_spaced(out, strangers);
    put_word(out, "\n");
}

/// Puts the lines of a comparison for programs: one for each flow of which something was counted,
/// by its index, one for each frame that is listed, first the analyser's, each with why we haven't
/// it where `reasons` has that at its place, and a last one. So many frames of the analyser's are
/// of no flow, and were compared with none. The times are in nanoseconds since 1970.
pub fn put_comparison_report<O: PutText>(
    out: &mut O,
    comparison: &FrameComparison,
    reasons: &[MissingReason],
    strangers: u64,
)
    ensures { Puts O.after out.old (report_text comparison.now reasons.now strangers) out.new }
{
    put_all_flows(out, comparison.counts());
    put_all_missing(out, reasons, comparison.lonely(Side::Analyser));
    put_all_here(out, comparison.lonely(Side::Here));
    put_last(out, comparison.is_whole(), strangers);
}

//! What people read of a comparison.
ghost use Rattle.std.specs.Prelude.{◌≡◌, flat_map, slice_get};
ghost use Rattle.text_lines.specs.Putting.{Puts, numbered_texts};
ghost use Rattle.frame_comparison.specs.ComparisonText.{sfid_text, counts_text, flow_line};
ghost use Rattle.frame_comparison.specs.ComparisonText.{lonely_text, here_line, told_reason};
ghost use Rattle.frame_comparison.specs.ComparisonText.{missing_line, whole_line, comparison_text};

use crate::compared_counts::ComparedCounts;
use crate::comparison::FrameComparison;
use crate::lonely_frame::LonelyFrame;
use crate::reasons::reason_at;
use crate::side::Side;
use burst_fates::{MissingReason, put_reason};
use text_lines::{PutText, put_hex, put_number, put_seconds, put_word};

/// Puts a flow's service flow identifier, where it is known.
fn put_sfid<O: PutText>(out: &mut O, sfid: Option<u32>)
    ensures { Puts O.after out.old (sfid_text sfid) out.new }
{
    if let Some(sfid) = sfid {
        put_word(out, " (SFID ");
        put_number(out, u64::from(sfid));
        put_word(out, ")");
    }
}

/// Puts what was counted of a flow.
fn put_counts<O: PutText>(out: &mut O, counts: &ComparedCounts)
    ensures { Puts O.after out.old (counts_text counts.now) out.new }
{
    put_word(out, ": ");
    put_number(out, counts.both);
    put_word(out, " in both, ");
    put_number(out, counts.only_analyser);
    put_word(out, " only the analyser's, ");
    put_number(out, counts.only_here);
    put_word(out, " only here\n");
}

/// The service flow identifier of a flow, where it is known.
fn sfid_of(sfids: &[u32], flow: usize) -> Option<u32>
    ensures { result ≡ slice_get sfids.now flow }
{
    sfids.get(flow).copied()
}

/// Puts the line of a flow, if something came of it.
fn put_flow<O: PutText>(out: &mut O, sfids: &[u32], flow: usize, counts: &ComparedCounts)
    ensures { Puts O.after out.old (flow_line sfids.now flow counts.now) out.new }
{
    if counts.is_quiet() {
        return;
    }
    put_word(out, "  flow ");
    put_number(out, flow as u64);
    put_sfid(out, sfid_of(sfids, flow));
    put_counts(out, counts);
}

/// Puts the lines of flows.
fn put_all_flows<O: PutText>(out: &mut O, sfids: &[u32], counts: &[ComparedCounts])
    ensures { Puts O.after out.old (numbered_texts (flow_line sfids.now) counts.now) out.new }
{
    for (flow, one) in counts.iter().enumerate() {
        put_flow(out, sfids, flow, one);
    }
}

/// Puts a frame that only one side has, behind these words.
fn put_lonely<O: PutText>(out: &mut O, words: &str, frame: &LonelyFrame)
    ensures { Puts O.after out.old (lonely_text words.now frame.now) out.new }
{
    put_word(out, words);
    put_number(out, frame.flow as u64);
    put_word(out, ", at ");
    put_seconds(out, frame.time);
    put_word(out, ", ");
    put_number(out, frame.length as u64);
    put_word(out, " bytes: ");
    put_hex(out, &frame.first);
}

/// Puts the line of a frame that only we have.
fn put_here<O: PutText>(out: &mut O, frame: &LonelyFrame)
    ensures { Puts O.after out.old (here_line frame.now) out.new }
{
    put_lonely(out, "  only here: flow ", frame);
    put_word(out, "\n");
}

/// Puts the lines of the frames that only we have.
fn put_all_here<O: PutText>(out: &mut O, frames: &[LonelyFrame])
    ensures { Puts O.after out.old (flat_map here_line frames.now) out.new }
{
    for frame in frames {
        put_here(out, frame);
    }
}

/// Puts why we haven't a frame, where that is known.
fn put_told_reason<O: PutText>(out: &mut O, reason: Option<MissingReason>)
    ensures { Puts O.after out.old (told_reason reason) out.new }
{
    if let Some(reason) = reason {
        put_word(out, "; ");
        put_reason(out, &reason);
    }
}

/// Puts the line of a frame that only the analyser has, with the reason at its place.
fn put_missing<O: PutText>(
    out: &mut O,
    reasons: &[MissingReason],
    place: usize,
    frame: &LonelyFrame,
)
    ensures { Puts O.after out.old (missing_line reasons.now place frame.now) out.new }
{
    put_lonely(out, "  only the analyser's: flow ", frame);
    put_told_reason(out, reason_at(reasons, place));
    put_word(out, "\n");
}

/// Puts the lines of the frames that only the analyser has.
fn put_all_missing<O: PutText>(out: &mut O, reasons: &[MissingReason], frames: &[LonelyFrame])
    ensures { Puts O.after out.old (numbered_texts (missing_line reasons.now) frames.now) out.new }
{
    for (place, frame) in frames.iter().enumerate() {
        put_missing(out, reasons, place, frame);
    }
}

/// Says that a comparison isn't whole, where it isn't.
fn put_whole<O: PutText>(out: &mut O, is_whole: bool)
    ensures { Puts O.after out.old (whole_line is_whole) out.new }
{
    if !is_whole {
        put_word(out, "  out of memory: what came later was not compared\n");
    }
}

/// Puts what people read of a comparison: a line for each flow of which something was counted, by
/// its index and its service flow identifier where `sfids` has one at that index, and then a line
/// for each frame that is listed, first the analyser's, each with why we haven't it where `reasons`
/// has that at its place. The times are in seconds since 1970.
pub fn put_comparison<O: PutText>(
    out: &mut O,
    comparison: &FrameComparison,
    reasons: &[MissingReason],
    sfids: &[u32],
)
    ensures { Puts O.after out.old (comparison_text sfids.now reasons.now comparison.now) out.new }
{
    put_word(out, "comparison with the analyser's frames\n");
    put_all_flows(out, sfids, comparison.counts());
    put_all_missing(out, reasons, comparison.lonely(Side::Analyser));
    put_all_here(out, comparison.lonely(Side::Here));
    put_whole(out, comparison.is_whole());
}

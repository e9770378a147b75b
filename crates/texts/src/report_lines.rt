//! The lines of a report.
ghost use Rattle.std.specs.Prelude.{flat_map};
ghost use Rattle.text_lines.specs.Putting.{Puts};
ghost use Rattle.texts.specs.Report.{named, counts_text, frame_line, flow_line};
ghost use Rattle.texts.specs.Report.{request_line, refused_text, lane_line};
ghost use Rattle.texts.specs.Inside.PartsOfLines.{flow_words, arrived_text, asked_text};

use flow_core::FlowCounts;
use lane::{LaneReport, Request};
use text_lines::{PutText, put_hex, put_spaced, put_word};

/// Puts a space, a word, a space and a number.
pub(crate) fn put_named<O: PutText>(out: &mut O, word: &str, number: u64)
    ensures { Puts O.after out.old (named word.now number) out.new }
{
    put_word(out, " ");
    put_word(out, word);
    put_spaced(out, number);
}

/// Puts what was counted of a flow.
fn put_counts<O: PutText>(out: &mut O, counts: &FlowCounts)
    ensures { Puts O.after out.old (counts_text counts.now) out.new }
{
    put_arrived(out, counts);
    put_named(out, "lost", counts.lost);
    put_named(out, "frames", counts.frames);
    put_named(out, "skipped", counts.skipped);
}

/// Puts what was counted of the segments of a flow that came.
fn put_arrived<O: PutText>(out: &mut O, counts: &FlowCounts)
    ensures { Puts O.after out.old (arrived_text counts.now) out.new }
{
    put_named(out, "kept", counts.kept);
    put_named(out, "late", counts.late);
    put_named(out, "repeat", counts.repeat);
    put_named(out, "beyond", counts.beyond);
}

/// Puts the line of a frame of the flow with this index.
pub fn put_frame_line<O: PutText>(out: &mut O, k: usize, frame: &[u8])
    ensures { Puts O.after out.old (frame_line k frame.now) out.new }
{
    put_word(out, "frame");
    put_spaced(out, k as u64);
    put_word(out, " ");
    put_hex(out, frame);
    put_word(out, "\n");
}

/// Puts the line of the flow with this index, its service flow identifier and its counts.
pub fn put_flow_line<O: PutText>(out: &mut O, k: usize, sfid: u32, counts: &FlowCounts)
    ensures { Puts O.after out.old (flow_line k sfid counts.now) out.new }
{
    put_flow_words(out, k, sfid);
    put_counts(out, counts);
    put_word(out, "\n");
}

/// Puts what stands before the counts in the line of a flow.
fn put_flow_words<O: PutText>(out: &mut O, k: usize, sfid: u32)
    ensures { Puts O.after out.old (flow_words k sfid) out.new }
{
    put_word(out, "flow");
    put_spaced(out, k as u64);
    put_spaced(out, u64::from(sfid));
}

/// Puts the line of a request.
pub fn put_request_line<O: PutText>(out: &mut O, request: &Request)
    ensures { Puts O.after out.old (request_line request.now) out.new }
{
    put_word(out, "request");
    put_spaced(out, u64::from(request.channel));
    put_spaced(out, request.flow as u64);
    put_asked(out, request);
    put_word(out, "\n");
}

/// Puts the cluster, the units and the segment's number of a request.
fn put_asked<O: PutText>(out: &mut O, request: &Request)
    ensures { Puts O.after out.old (asked_text request.now) out.new }
{
    put_spaced(out, u64::from(request.cluster));
    put_spaced(out, u64::from(request.units));
    put_spaced(out, u64::from(request.sequence));
}

/// Puts the numbers of refusals, or `-` if there is none.
fn put_refused<O: PutText>(out: &mut O, refused: &[u8])
    ensures { Puts O.after out.old (refused_text refused.now) out.new }
{
    if refused.is_empty() {
        return put_word(out, " -");
    }
    for number in refused {
        put_spaced(out, u64::from(*number));
    }
}

/// Puts the line of this channel's lane.
pub fn put_lane_line<O: PutText>(out: &mut O, channel: usize, lane: &LaneReport)
    ensures { Puts O.after out.old (lane_line channel lane.now) out.new }
{
    put_word(out, "lane");
    put_spaced(out, channel as u64);
    put_named(out, "admitted", lane.admitted);
    put_word(out, " refused");
    put_refused(out, &lane.refused);
    put_word(out, "\n");
}

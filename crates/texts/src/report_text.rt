//! The report of an outcome.
ghost use Rattle.std.specs.Prelude.{◌≡◌, flat_map, IfOk};
ghost use Rattle.text_lines.specs.Putting.{Puts, numbered_texts};
ghost use Rattle.texts.specs.Report.{frame_line, request_line, lane_line, report_text};
ghost use Rattle.texts.specs.Selected.{report_of};
ghost use Rattle.texts.specs.Inside.Selected.{selected_flow_lines};

use crate::report_lines::{put_flow_line, put_frame_line, put_lane_line, put_request_line};
use consumer::FrameList;
use flow_selection::Selection;
use lane::{LaneReport, Request};
use receiver::{FlowOutcome, Outcome};
use std::alloc::{AllocError, Global};
use text_lines::{PutText, TextBuffer};

/// Puts the lines of the frames of the flow with this index.
fn put_frames<O: PutText>(out: &mut O, k: usize, frames: &FrameList)
    ensures { Puts O.after out.old (flat_map (frame_line k) frames.now.items) out.new }
{
    for index in 0..frames.len() {
        if out.is_closed() {
            return;
        }
        let Some(frame) = frames.get(index) else {
            return;
        };
        put_frame_line(out, k, frame);
    }
}

/// Puts the line of the flow with this index and those of its frames, if it is selected.
fn put_flow<O: PutText>(out: &mut O, selected: &Selection, k: usize, flow: &FlowOutcome)
    ensures { Puts O.after out.old (selected_flow_lines selected.now k flow.now) out.new }
{
    if selected.has(k) {
        put_flow_line(out, k, flow.sfid, &flow.counts);
        put_frames(out, k, &flow.frames);
    }
}

/// Puts the lines of the flows that are selected, and of their frames.
fn put_flows<O: PutText>(out: &mut O, selected: &Selection, flows: &[FlowOutcome])
    ensures { Puts O.after out.old
        (numbered_texts (selected_flow_lines selected.now) flows.now) out.new }
{
    for (k, flow) in flows.iter().enumerate() {
        put_flow(out, selected, k, flow);
    }
}

/// Puts the lines of the requests that came on a channel.
fn put_requests<O: PutText>(out: &mut O, requests: &[Request])
    ensures { Puts O.after out.old (flat_map request_line requests.now) out.new }
{
    for request in requests {
        put_request_line(out, request);
    }
}

/// Puts the lines of the requests that came on these channels.
fn put_channels<O: PutText>(out: &mut O, channels: &[Vec<Request>])
    ensures { Puts O.after out.old
        (flat_map (λ requests. flat_map request_line requests.items) channels.now) out.new }
{
    for requests in channels {
        put_requests(out, requests);
    }
}

/// Puts the lines of lanes.
fn put_lanes<O: PutText>(out: &mut O, lanes: &[LaneReport])
    ensures { Puts O.after out.old (numbered_texts lane_line lanes.now) out.new }
{
    for (channel, lane) in lanes.iter().enumerate() {
        put_lane_line(out, channel, lane);
    }
}

/// Puts the report of an outcome: a line for each flow and each of its frames, in order; one for
/// each request, by channels; and one for each lane. The order of the outcome is not told.
pub fn put_report<O: PutText>(out: &mut O, outcome: &Outcome)
    ensures { Puts O.after out.old (report_text outcome.now) out.new }
{
    put_report_of(out, &Selection::All, outcome);
}

/// Puts the report of an outcome but for the lines of the flows that aren't selected and of their
/// frames.
pub fn put_report_of<O: PutText>(out: &mut O, selected: &Selection, outcome: &Outcome)
    ensures { Puts O.after out.old (report_of selected.now outcome.now) out.new }
{
    put_flows(out, selected, &outcome.flows);
    put_channels(out, &outcome.requests);
    put_lanes(out, &outcome.lanes);
}

/// The report of an outcome, as [`put_report`] puts it.
pub fn report(alloc: Global, outcome: &Outcome) -> Result<Vec<u8>, AllocError>
    ensures { IfOk result (λ text. text.items ≡ report_text outcome.now) }
{
    let mut text = TextBuffer::new(alloc);
    put_report(&mut text, outcome);
    text.finish()
}

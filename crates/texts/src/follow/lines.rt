//! The lines of what is followed.
ghost use Rattle.std.specs.Prelude.{◌≡◌, flat_map};
ghost use Rattle.text_lines.specs.Putting.{Puts, numbered_texts};
ghost use Rattle.texts.specs.Follow.{tally_line, closed_flow, closed_told, closed_lines};
ghost use Rattle.texts.specs.Follow.{flow_of_happening, lines_told};
ghost use Rattle.texts.specs.Happening.{given_line, happening_lines};

use super::event_lines::put_event;
use super::happening::{Happening, flow_admitted};
use super::settings::FollowSettings;
use crate::report_lines::{put_flow_line, put_frame_line, put_named, put_request_line};
use consumer::Given;
use flow_core::{FlowCounts, FlowRecord};
use flow_selection::Selection;
use receiver::{Closed, LaneTally, Setup};
use text_lines::{PutText, put_spaced, put_word};

/// Puts the line of a frame or of a request.
fn put_given<O: PutText>(out: &mut O, given: &Given)
    ensures { Puts O.after out.old (given_line given.now) out.new }
{
    match given {
        Given::Frame { flow, frame } => put_frame_line(out, *flow, frame.as_slice()),
        Given::Asked(request) => put_request_line(out, request),
    }
}

/// The flow of which something is told, if it is told of one.
fn flow_of(one: &Happening) -> Option<usize>
    ensures { result ≡ flow_of_happening one.now }
{
    match one {
        Happening::Gave(Given::Frame { flow, .. }) => Some(*flow),
        Happening::Gave(Given::Asked(_)) => None,
        Happening::Took { reply, .. } => flow_admitted(reply),
        Happening::Decided { flow, .. } => Some(*flow),
        Happening::Stands { flow, .. } => Some(*flow),
    }
}

/// Puts the lines of what happened by the line with this number, with events or without.
fn put_one<O: PutText>(out: &mut O, line: u64, events: bool, one: &Happening)
    ensures { Puts O.after out.old (happening_lines events line one.now) out.new }
{
    if let Happening::Gave(given) = one {
        put_given(out, given);
    }
    if events {
        put_event(out, line, one);
    }
}

/// Puts the lines of what happened by the line with this number, if these settings ask for it.
fn put_if_told<O: PutText>(out: &mut O, line: u64, settings: &FollowSettings, one: &Happening)
    ensures { Puts O.after out.old (lines_told settings.now line one.now) out.new }
{
    if settings.selected.leaves(flow_of(one)) {
        put_one(out, line, settings.events, one);
    }
}

/// Puts the lines that these settings ask for of all that happened by the line with this number.
pub fn put_happened<O: PutText>(
    out: &mut O,
    line: u64,
    settings: &FollowSettings,
    happened: &[Happening],
)
    ensures { Puts O.after out.old
        (flat_map (lines_told settings.now line) happened.now) out.new }
{
    for one in happened {
        if out.is_closed() {
            return;
        }
        put_if_told(out, line, settings, one);
    }
}

/// Puts the line of the flow with this index, if it has a record.
fn put_flow<O: PutText>(out: &mut O, records: &[FlowRecord], k: usize, counts: &FlowCounts)
    ensures { Puts O.after out.old (closed_flow records.now k counts.now) out.new }
{
    if let Some(record) = records.get(k) {
        put_flow_line(out, k, record.sfid, counts);
    }
}

/// The same, if the flow is selected.
fn put_selected<O: PutText>(
    out: &mut O,
    selected: &Selection,
    records: &[FlowRecord],
    k: usize,
    counts: &FlowCounts,
)
    ensures { Puts O.after out.old
        (closed_told selected.now records.now k counts.now) out.new }
{
    if selected.has(k) {
        put_flow(out, records, k, counts);
    }
}

/// Puts the lines of what was counted of the flows that are selected.
fn put_flows<O: PutText>(
    out: &mut O,
    selected: &Selection,
    records: &[FlowRecord],
    flows: &[FlowCounts],
)
    ensures { Puts O.after out.old
        (numbered_texts (closed_told selected.now records.now) flows.now) out.new }
{
    for (k, counts) in flows.iter().enumerate() {
        put_selected(out, selected, records, k, counts);
    }
}

/// Puts the line of what was counted of this channel.
fn put_tally<O: PutText>(out: &mut O, channel: usize, tally: &LaneTally)
    ensures { Puts O.after out.old (tally_line channel tally.now) out.new }
{
    put_word(out, "lane");
    put_spaced(out, channel as u64);
    put_named(out, "admitted", tally.admitted);
    put_named(out, "refusals", tally.refused);
    put_word(out, "\n");
}

/// Puts the lines of what was counted of channels.
fn put_tallies<O: PutText>(out: &mut O, tallies: &[LaneTally])
    ensures { Puts O.after out.old (numbered_texts tally_line tallies.now) out.new }
{
    for (channel, tally) in tallies.iter().enumerate() {
        put_tally(out, channel, tally);
    }
}

/// Puts the lines of what was counted of each flow that is selected, and of each channel.
pub fn put_closed<O: PutText>(out: &mut O, selected: &Selection, setup: &Setup, closed: &Closed)
    ensures { Puts O.after out.old
        (closed_lines selected.now setup.now closed.now) out.new }
{
    put_flows(out, selected, &setup.flows, &closed.flows);
    put_tallies(out, &closed.lanes);
}

//! What is counted of a capture, and what its requests are, beside its frames.
ghost use Rattle.std.specs.Prelude.{◌≡◌, ◌≢◌, None, true, OnOk, OnErr, IfOk, IfSome, is_some};

use crate::drawing::Drawing;
use capture_map::{CaptureMap, MapChannel};
use capture_picture::CapturePicture;
use capture_rules::ClockCounts;
use capture_summary::{
    CaptureSummary, ChannelSummary, FlowSummary, PassedCounts, PassedReason, RequestLines,
    both_counts, sequence_of,
};
use captured_flows::BurstTaken;
use docsis_wire::Bytes;
use engines::{Device, EngineFault, write_text};
use flow_core::FlowCounts;
use flow_selection::Selection;
use lane::{MOST_CHANNELS, Refusal, Request};
use receiver::Reply;
use std::alloc::{AllocError, Global};
use std::io::Write;
use timed_frames::{LastBurst, TimedStep};

/// A receiver has so many channels.
const CHANNELS: u8 = MOST_CHANNELS as u8;

/// What is counted of a capture, and its requests as CSV.
#[derive(Drop)]
pub struct CaptureTally {
    /// What was counted so far. What was counted of a flow since it was begun or began anew is in
    /// it once the flow was closed, or a fault ended the capture.
    pub summary: CaptureSummary,
    /// The time of the last record.
    last_time: u64,
    /// The lines of requests that aren't written yet, where they are asked for.
    requests: Option<RequestLines>,
    /// Why lines of requests were lost, if they were.
    lost_requests: Option<EngineFault>,
    /// What is drawn, where a picture is asked for.
    drawing: Option<Drawing>,
}

/// A summary of each flow of a map, of which some are selected.
fn new_flows(
    alloc: Global,
    capture_map: &CaptureMap,
    selected: &Selection,
) -> Result<Vec<FlowSummary>, AllocError> {
    let mut flows = Vec::with_capacity(alloc, capture_map.flows.len())?;
    for (k, flow) in capture_map.flows.iter().enumerate() {
        let mut summary = FlowSummary::new(flow.sfid);
        summary.is_selected = selected.has(k);
        flows.push(summary)?;
    }
    Ok(flows)
}

/// The upstream channel id of a channel of a map.
fn id_in(channels: &[MapChannel], channel: u8) -> Option<u32> {
    for one in channels {
        if one.channel == channel {
            return Some(one.id);
        }
    }
    None
}

/// A summary of each channel of a map, in the order of their numbers.
fn new_channels(alloc: Global, channels: &[MapChannel]) -> Result<Vec<ChannelSummary>, AllocError> {
    let mut summaries = Vec::new(alloc);
    for channel in 0..CHANNELS {
        if let Some(id) = id_in(channels, channel) {
            summaries.push(ChannelSummary::new(channel, id))?;
        }
    }
    Ok(summaries)
}

/// The refusals that a lane's reply to a burst tells of the burst and of its grant: no grant is
/// there only where it was out of range.
fn refusals_of(reply: Reply) -> (Option<Refusal>, Option<Refusal>) {
    match reply {
        Reply::Refused(Refusal::NoGrant) => (Some(Refusal::GrantRange), Some(Refusal::NoGrant)),
        Reply::Refused(refusal) => (None, Some(refusal)),
        _ => (None, None),
    }
}

impl CaptureTally {
    /// Nothing was counted, of a capture with this map of which these flows are selected. Lines of
    /// requests are kept, the line of their names first, where they are asked for.
    pub fn new(
        alloc: Global,
        capture_map: &CaptureMap,
        selected: &Selection,
        with_requests: bool,
    ) -> Result<CaptureTally, AllocError>
        ensures none_lost { IfOk result (λ tally. tally.lost_requests ≡ None) }
        ensures undrawn { IfOk result (λ tally. tally.drawing ≡ None) }
        ensures records { IfOk result (λ tally. tally.summary.records ≡ 0) }
        ensures asked { IfOk result (λ tally. is_some tally.requests ≡ with_requests) }
    {
        let mut requests = None;
        if with_requests {
            let mut lines = RequestLines::new(alloc);
            lines.put_names();
            requests = Some(lines);
        }
        Ok(CaptureTally {
            summary: CaptureSummary {
                flows: new_flows(alloc, capture_map, selected)?,
                channels: new_channels(alloc, &capture_map.channels)?,
                passed: PassedCounts::none(),
                records: 0,
                earlier: 0,
                set_back: 0,
                crowded: 0,
            },
            last_time: 0,
            requests,
            lost_requests: None,
            drawing: None,
        })
    }

    /// A picture is drawn from now on, of a capture with this map.
    pub fn draw(&mut self, alloc: Global, capture_map: &CaptureMap) -> Result<(), AllocError>
        ensures summary { self.new.summary ≡ self.old.summary }
        ensures drawn { OnOk result (self.new.drawing ≢ None) }
        ensures whole { IfSome self.new.drawing (λ drawing. OnOk result (drawing.is_whole ≡ true)) }
        ensures refused { OnErr result (self.new ≡ self.old) }
    {
        self.drawing = Some(Drawing::new(alloc, capture_map)?);
        Ok(())
    }

    /// The picture, if one is drawn and no burst is missing in it, since memory ran out.
    pub fn picture(&self) -> Option<&CapturePicture>
        ensures whole { IfSome result (λ picture. IfSome self.now.drawing (λ drawing.
            (drawing.is_whole ≡ true) × (drawing.picture ≡ picture.now))) }
        ensures some { IfSome self.now.drawing (λ drawing. drawing.is_whole ≡ true → result ≢ None) }
        ensures none { self.now.drawing ≡ None → result ≡ None }
    {
        match &self.drawing {
            Some(drawing) if drawing.is_whole() => Some(&drawing.picture),
            _ => None,
        }
    }

    /// Why lines of requests were lost, if they were: `OutOfMemory`, or `Write`, where their writer
    /// failed.
    pub fn lost_requests(&self) -> Option<EngineFault>
        ensures { result ≡ self.now.lost_requests }
    {
        self.lost_requests
    }

    /// Counts a record with this time.
    pub(crate) fn count_record(&mut self, nanoseconds: u64) {
        self.summary.count_record(nanoseconds < self.last_time);
        self.last_time = nanoseconds;
    }

    /// Notes how often times couldn't be gone by so far.
    pub(crate) fn note_clocks(&mut self, counts: ClockCounts) {
        self.summary.set_back = counts.set_back;
        self.summary.crowded = counts.crowded;
    }

    /// Counts a record that is passed over.
    pub(crate) fn count_passed(&mut self, reason: PassedReason) {
        self.summary.passed.count(reason);
    }

    /// Counts what became of a burst of an upstream channel, which was above its grant or wasn't.
    pub(crate) fn count_burst(&mut self, id: u32, is_above: bool, told: BurstTaken) {
        match told {
            BurstTaken::UnknownChannel => self.count_passed(PassedReason::UnknownChannel),
            BurstTaken::UnknownSid => self.count_passed(PassedReason::UnknownSid),
            BurstTaken::Refused(reply) => {
                self.count_on(id, is_above);
                let (of_grant, of_burst) = refusals_of(reply);
                self.count_refusal(id, of_grant);
                self.count_refusal(id, of_burst);
            }
            BurstTaken::Waits(_) => self.count_on(id, is_above),
        }
    }

    /// Counts a burst of an upstream channel.
    fn count_on(&mut self, id: u32, is_above: bool) {
        for channel in &mut self.summary.channels {
            if channel.id == id {
                channel.count_burst(is_above);
            }
        }
    }

    /// Counts a refusal on an upstream channel, if there is one.
    fn count_refusal(&mut self, id: u32, refusal: Option<Refusal>) {
        let Some(refusal) = refusal else {
            return;
        };
        for channel in &mut self.summary.channels {
            if channel.id == id {
                channel.refused.count(refusal);
            }
        }
    }

    /// Counts what came, one after another.
    pub(crate) fn count_steps(&mut self, alloc: Global, steps: &[TimedStep]) {
        for step in steps {
            self.count_step(alloc, step);
        }
    }

    /// Counts something that came.
    fn count_step(&mut self, alloc: Global, step: &TimedStep) {
        match step {
            TimedStep::HandedIn { flow, burst } => {
                self.count_admitted(burst.channel);
                self.draw_burst(alloc, *flow, *burst);
            }
            TimedStep::Frame { flow, frame, .. } => self.count_frame(*flow, frame),
            TimedStep::Asked { burst, request } => self.count_request(alloc, *burst, request),
            TimedStep::Replied { .. } => {}
            TimedStep::Ended { flow, counts } => self.count_ended(*flow, *counts),
        }
    }

    /// Draws a burst of a flow that was handed in, if the flow is selected.
    fn draw_burst(&mut self, alloc: Global, flow: usize, burst: LastBurst) {
        let (Some(drawing), Some(summary)) = (&mut self.drawing, self.summary.flows.get(flow))
        else {
            return;
        };
        if summary.is_selected {
            drawing.hand_in(alloc, flow, summary.sfid, burst);
        }
    }

    /// Whether a picture is drawn.
    pub(crate) fn draws(&self) -> bool {
        self.drawing.is_some()
    }

    /// Marks what these counts of a flow say, where a picture is drawn.
    pub(crate) fn mark_counts(&mut self, flow: usize, counts: FlowCounts) {
        if let Some(drawing) = &mut self.drawing {
            drawing.mark_counts(flow, counts);
        }
    }

    /// Marks a burst of a flow with a wrong check, where a picture is drawn.
    pub(crate) fn mark_bad_check(&mut self, flow: usize, time: u64) {
        if let Some(drawing) = &mut self.drawing {
            drawing.mark_bad_check(flow, time);
        }
    }

    /// Counts the end of a flow that begins anew. One of which nothing came before begins for the
    /// first time.
    fn count_ended(&mut self, flow: usize, counts: FlowCounts) {
        self.count_closed(flow, counts);
        let has_begun = counts.kept > 0
            || counts.late > 0
            || counts.repeat > 0
            || counts.beyond > 0;
        if !has_begun {
            return;
        }
        if let Some(summary) = self.summary.flows.get_mut(flow) {
            summary.count_restart();
        }
        if let Some(drawing) = &mut self.drawing {
            drawing.begin_anew(flow, counts);
        }
    }

    /// Counts a burst that its lane admits.
    fn count_admitted(&mut self, channel: usize) {
        for one in &mut self.summary.channels {
            if usize::from(one.channel) == channel {
                one.admitted = one.admitted.saturating_add(1);
            }
        }
    }

    /// Counts a frame of a flow that is selected.
    fn count_frame(&mut self, flow: usize, frame: &Bytes) {
        if let Some(summary) = self.summary.flows.get_mut(flow)
            && summary.is_selected
        {
            summary.count_frame(sequence_of(frame.as_slice()));
        }
    }

    /// Counts a request, and puts its line where lines are asked for.
    fn count_request(&mut self, alloc: Global, burst: LastBurst, request: &Request) {
        if let Some(summary) = self.summary.flows.get_mut(request.flow) {
            summary.count_request(request.units);
        }
        if let Some(lines) = &mut self.requests {
            lines.put(alloc, burst.time, burst.sid, request);
        }
    }

    /// Counts what was counted of a flow that begins anew, or of which nothing more comes.
    fn count_closed(&mut self, flow: usize, counts: FlowCounts) {
        if let Some(summary) = self.summary.flows.get_mut(flow) {
            summary.counts = both_counts(summary.counts, counts);
        }
    }

    /// Counts what was counted of a flow of which nothing more comes, and marks it.
    pub(crate) fn count_last(&mut self, flow: usize, counts: FlowCounts) {
        self.count_closed(flow, counts);
        self.mark_counts(flow, counts);
    }

    /// Counts what was counted of all flows, which were closed.
    pub(crate) fn count_all_closed(&mut self, flows: &[FlowCounts]) {
        for flow in 0..flows.len() {
            self.count_last(flow, flows[flow]);
        }
    }

    /// Writes the lines of requests that aren't written yet, and flushes. Where that fails they are
    /// lost, and no more are written.
    pub(crate) fn write_requests<Q: Write>(
        &mut self,
        alloc: Global,
        writer: &mut Option<Device<Q>>,
    ) {
        if self.requests.is_none() {
            return;
        }
        let (Some(lines), Some(writer)) = (self.requests.take(), writer) else {
            return;
        };
        let Ok(text) = lines.finish() else {
            self.lost_requests = Some(EngineFault::OutOfMemory);
            return;
        };
        match write_text(writer, &text) {
            Ok(()) => self.requests = Some(RequestLines::new(alloc)),
            Err(_) => self.lost_requests = Some(EngineFault::Write),
        }
    }
}

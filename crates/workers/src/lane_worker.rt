//! The worker of one source, which keeps the lanes of the source's channels.
ghost use Rattle.std.specs.Prelude.{◌≡◌, ◌++◌, map, length, IfOk, IfSome, IsOk, IsTrue, OnErr};
ghost use Rattle.mailbox.specs.Ports.{address, posted};
ghost use Rattle.lane.specs.Inputs.{is_burst};
ghost use Rattle.lane.specs.Report.{admitted_in, requests_in, event_of_admitted};
ghost use Rattle.workers.specs.Inside.Carried.{carried, sent_by};
ghost use Rattle.workers.specs.Inside.Working.{AnswersIn, DidServe, HasServedSource, ServesOne};

use crate::channel_input::ChannelInput;
use crate::item::Item;
use crate::lane_notes::{LaneNotes, SourceNotes, blank_notes};
use crate::live_source::LiveSource;
use crate::retry::{close_port, post_item};
use crate::signals::Signals;
use crate::worker::{BusyWorker, Job};
use flow_records::Event;
use lane::{Admitted, Answer, Input, Lane, Request, admitted_segment};
use mailbox::{ClosedPort, Port};
use std::alloc::{AllocError, Global};
use std::sync::Wait;

/// What a source's worker works with.
#[derive(Drop)]
pub struct LaneWork<S> {
    /// The lane of each channel, by the channel's number, where it is the source's own.
    pub lanes: Vec<Option<Lane>>,
    pub arrivals: Port<Item>,
    pub requests: Port<Request>,
    pub source: S,
}

impl<S> LaneWork<S> {
    /// What the worker of a source with these lanes works with.
    pub fn new(
        lanes: Vec<Option<Lane>>,
        arrivals: Port<Item>,
        requests: Port<Request>,
        source: S,
    ) -> LaneWork<S>
        ensures { result
            ≡ record { lanes = lanes; arrivals = arrivals; requests = requests; source = source } }
    {
        LaneWork {
            lanes,
            arrivals,
            requests,
            source,
        }
    }
}

/// A source's closed ports, and what became of its inputs, unless an allocation failed.
#[derive(Drop)]
pub struct LaneDone<N> {
    pub arrivals: ClosedPort<Item>,
    pub requests: ClosedPort<Request>,
    pub notes: Option<SourceNotes<N>>,
}

impl<S: LiveSource + Drop, N: LaneNotes + Drop> Job<LaneDone<N>> for LaneWork<S> {
    ghost did = { λ work done. DidServe N.are_of S.gave S.is_over work done };

    fn serve<R: Wait>(self, alloc: Global, rt: &R, signals: &Signals) -> LaneDone<N> {
        serve_source(alloc, rt, signals, self)
    }
}

pub type LaneWorker<S, N> = BusyWorker<LaneWork<S>, LaneDone<N>>;

/// Takes all inputs of the source, and then closes both ports. If an allocation failed it takes no
/// more inputs.
fn serve_source<S: LiveSource + Drop, N: LaneNotes + Drop, R: Wait>(
    alloc: Global,
    rt: &R,
    signals: &Signals,
    work: LaneWork<S>,
) -> LaneDone<N>
    ensures { DidServe N.are_of S.gave S.is_over work result }
{
    let mut work = work;
    let notes = take_inputs(alloc, rt, signals, &mut work);
    if notes.is_none() {
        signals.fail();
    }
    let LaneWork {
        lanes: _,
        arrivals,
        requests,
        source: _,
    } = work;
    let arrivals = close_port(rt, signals.arrivals(), arrivals);
    let requests = close_port(rt, signals.requests(), requests);
    LaneDone {
        arrivals,
        requests,
        notes,
    }
}

/// Takes all inputs of the source, and posts what each admits before it takes the next. If an
/// allocation failed it takes no more, and answers nothing.
fn take_inputs<S: LiveSource, N: LaneNotes + Drop, R: Wait>(
    alloc: Global,
    rt: &R,
    signals: &Signals,
    work: &mut LaneWork<S>,
) -> Option<SourceNotes<N>>
    ensures { HasServedSource N.are_of S.gave S.is_over work.old work.new result }
{
    let mut notes = blank_notes::<N>(alloc, work.lanes.len()).ok()?;
    for _ in rt.forever() {
        let Some(came) = work.source.next() else {
            return Some(notes);
        };
        take_input(rt, signals, work, &mut notes, came).ok()?;
    }
    unreachable!()
}

/// Has the lane of its channel answer an input, notes the answer, and posts what it admits; or
/// counts it as a stray. Where an allocation failed nothing is posted.
fn take_input<S, N: LaneNotes, R: Wait>(
    rt: &R,
    signals: &Signals,
    work: &mut LaneWork<S>,
    notes: &mut SourceNotes<N>,
    came: ChannelInput,
) -> Result<(), AllocError>
    requires { length notes.old.lanes.items ≡ length work.old.lanes.items }
    ensures source { work.new.source ≡ work.old.source }
    ensures count { length notes.new.lanes.items ≡ length work.new.lanes.items }
    ensures served { IfOk result
        (λ _. ServesOne N.are_of came work.old notes.old work.new notes.new) }
    ensures unposted { OnErr result ((work.new.arrivals ≡ work.old.arrivals)
        × (work.new.requests ≡ work.old.requests)) }
{
    let ChannelInput {
        channel: number,
        input,
    } = came;
    let channel = usize::from(number);
    if channel >= work.lanes.len() {
        notes.strays.absent = notes.strays.absent.saturating_add(1);
        return Ok(());
    }
    let Some(answer) = answer_in(&mut work.lanes[channel], input)? else {
        notes.strays.foreign = notes.strays.foreign.saturating_add(1);
        return Ok(());
    };
    notes.lanes[channel].add(&answer)?;
    post_admitted(
        rt,
        signals,
        &mut work.arrivals,
        &mut work.requests,
        number,
        answer,
    );
    Ok(())
}

/// What a lane answers to an input, if the source has one here. A burst's own buffer becomes the
/// payload of its segment, so that no memory is taken for it.
fn answer_in(lane: &mut Option<Lane>, input: Input) -> Result<Option<Answer>, AllocError>
    ensures answered { IfOk result (λ answer. AnswersIn lane.old input answer lane.new) }
    ensures bursts { IsTrue (is_burst input) → IsOk result }
{
    let Some(lane) = lane else {
        return Ok(None);
    };
    match lane.take_owned(input) {
        Ok(answer) => Ok(Some(answer)),
        Err(_) => Err(AllocError),
    }
}

/// Posts what an answer on this channel admits, its request first.
fn post_admitted<R: Wait>(
    rt: &R,
    signals: &Signals,
    arrivals: &mut Port<Item>,
    requests: &mut Port<Request>,
    channel: u8,
    answer: Answer,
)
    ensures arrivals_same { address arrivals.new ≡ address arrivals.old }
    ensures requests_same { address requests.new ≡ address requests.old }
    ensures arrivals { carried (posted arrivals.new) ≡ carried (posted arrivals.old)
        ++ sent_by channel (map event_of_admitted (admitted_in answer)) }
    ensures requests { posted requests.new ≡ posted requests.old ++ requests_in answer }
{
    let Some(admitted) = admitted_segment(answer) else {
        return;
    };
    let Admitted {
        flow,
        segment,
        request,
    } = admitted;
    if let Some(request) = request {
        post_item(rt, signals.requests(), requests, request);
    }
    let item = Item {
        sender: channel,
        event: Event::Arrive { flow, segment },
    };
    post_item(rt, signals.arrivals(), arrivals, item);
}

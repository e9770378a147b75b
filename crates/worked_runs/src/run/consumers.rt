//! What no clause of `receive` says: when its consumer and its scheduler are given something.
ghost use Rattle.std.specs.Prelude.{◌≡◌};

mod failed_allocations;
mod slow;

use super::held_up::{Calls, Counting};
use super::meeting::{Attending, Meeting};
use super::receivers::{no_decisions, no_inputs, sources_of};
use super::{TWO_FRAMES, eight_requests, numbered};
use docsis_wire::{Bytes, NoCheck};
use flow_core::FlowCounts;
use std::alloc::{AllocError, Global};
use std::error::Error;
use std::sync::{Arc, Wait};
use std::test::Fail;
use std::thread::Threads;
use uplink::{
    Collected, Consumer, Counts, Foreknown, Forgets, ListDecisions, ListSource, Lists, LossRule,
    ReceiveError, Received, Request, RunFault, Setup, Source, Sources, Width, receive,
};
use worked_traces::outcomes::NO_COUNTS;
use worked_traces::traces::*;

/// Counts what it is given, and comes to a meeting when it is first given something.
#[derive(Drop)]
struct Coming {
    counts: Counts,
    meeting: Arc<Meeting, Global>,
    came: bool,
}

impl Coming {
    fn new(meeting: &Arc<Meeting, Global>) -> Result<Coming, AllocError> {
        Ok(Coming {
            counts: Counts::default(),
            meeting: Arc::try_clone(meeting)?,
            came: false,
        })
    }

    fn come(&mut self)
        ensures { self.new.counts ≡ self.old.counts }
    {
        if !self.came {
            self.came = true;
            self.meeting.come();
        }
    }
}

impl Consumer for Coming {
    ghost use Rattle.consumer.specs.Counting.{HasCounted};

    ghost after = { λ start given now. HasCounted start.counts given now.counts };

    fn frame(&mut self, flow: usize, frame: Bytes) {
        self.come();
        self.counts.frame(flow, frame);
    }

    fn request(&mut self, request: Request) {
        self.come();
        self.counts.request(request);
    }
}

/// What a receiver answers.
type Answer<F, Q> = Result<Received<F, Q>, ReceiveError<F, Q>>;

/// Receives what a source gives on channel 0, by decisions alone.
fn receive_on_channel_0<S, F, Q, R>(
    alloc: Global,
    rt: R,
    setup: Setup,
    source: S,
    consumer: F,
    scheduler: Q,
) -> Answer<F, Q>
where
    S: Source + Drop + Send + 'static,
    F: Consumer + Drop + Send + 'static,
    Q: Consumer + Drop + Send + 'static,
    R: Threads + Wait + Copy + Send + 'static,
{
    let sources = Sources {
        s0: source,
        s1: no_inputs(alloc),
        s2: no_inputs(alloc),
        s3: no_inputs(alloc),
    };
    receive(
        alloc,
        rt,
        Width::PROFILE,
        setup,
        LossRule::Decided,
        sources.on_four_channels(),
        Foreknown(no_decisions(alloc)),
        consumer,
        scheduler,
        NoCheck,
    )
}

/// What is given of the two frames: seven bytes each, and a request.
const TWO_FRAMES_COUNTED: Counts = Counts {
    frames: 2,
    bytes: 14,
    requests: 0,
};

const ONE_REQUEST: Counts = Counts {
    frames: 0,
    bytes: 0,
    requests: 1,
};

/// Receives the two frames. The source comes to the meeting before it gives what follows the first
/// two inputs, and the consumer and the scheduler when they are first given something.
fn receive_two_frames<R>(
    alloc: Global,
    rt: R,
    meeting: &Arc<Meeting, Global>,
) -> Result<Answer<Coming, Coming>, AllocError>
where
    R: Threads + Wait + Copy + Send + 'static,
{
    let inputs = inputs_of(alloc, &TWO_FRAMES, 0)?;
    let source = Attending::new(ListSource::new(inputs), 2, meeting)?;
    let setup = numbered::narrow(alloc, 16)?;
    let (consumer, scheduler) = (Coming::new(meeting)?, Coming::new(meeting)?);
    Ok(receive_on_channel_0(alloc, rt, setup, source, consumer, scheduler))
}

/// What both counted, and what was counted of the only flow.
fn counted(answer: Answer<Coming, Coming>) -> Option<(Counts, Counts, FlowCounts)> {
    let received = answer.ok()?;
    let flow = received.flows.first().copied()?;
    Some((received.consumer.counts, received.scheduler.counts, flow))
}

const TWO_KEPT: FlowCounts = FlowCounts {
    kept: 2,
    frames: 2,
    ..NO_COUNTS
};

/// A source gives no more inputs until a frame and a request that it gave were given on.
#[test]
fn gives_while_a_source_still_gives(rt: HostRuntime) -> Result<(), Fail> {
    let meeting = Meeting::of(rt.alloc(), 3)?;
    let answer = receive_two_frames(rt.alloc(), rt, &meeting)?;
    let wanted = Some((TWO_FRAMES_COUNTED, ONE_REQUEST, TWO_KEPT));
    assert!(rt; counted(answer) == wanted);
    meeting.expect_met(&rt);
    Ok(())
}

/// Receives so many segments with a frame each and collects what they give, with little room.
fn collect<R>(alloc: Global, rt: R, segments: u16) -> Result<Answer<Collected, Forgets>, AllocError>
where
    R: Threads + Wait + Copy + Send + 'static,
{
    let Lists { inputs, decisions } = numbered::lists(alloc, segments)?;
    Ok(receive(
        alloc,
        rt,
        Width::PROFILE,
        numbered::narrow(alloc, 4096)?,
        LossRule::Decided,
        sources_of(inputs).on_four_channels(),
        Foreknown(ListDecisions::new(decisions)),
        Collected::new(alloc, 1, 0)?,
        Forgets,
        NoCheck,
    ))
}

/// How many frames were collected of the only flow.
fn frames_collected(answer: Answer<Collected, Forgets>) -> Option<usize> {
    Some(answer.ok()?.consumer.frames.first()?.len())
}

#[test]
fn receives_with_little_room(rt: HostRuntime) -> Result<(), Fail> {
    let answer = collect(rt.alloc(), rt, 1024)?;
    assert!(rt; frames_collected(answer) == Some(1024));
    Ok(())
}

/// Receives eight requests, with one that the scheduler was given before.
fn count_on<R>(alloc: Global, rt: R) -> Result<Answer<Forgets, Counts>, AllocError>
where
    R: Threads + Wait + Copy + Send + 'static,
{
    let source = ListSource::new(eight_requests(alloc)?);
    let setup = numbered::narrow(alloc, 16)?;
    Ok(receive_on_channel_0(alloc, rt, setup, source, Forgets, ONE_REQUEST))
}

fn requests_counted(answer: Answer<Forgets, Counts>) -> Option<u64> {
    Some(answer.ok()?.scheduler.requests)
}

#[test]
fn goes_on_with_what_it_is_handed(rt: HostRuntime) -> Result<(), Fail> {
    let answer = count_on(rt.alloc(), rt)?;
    assert!(rt; requests_counted(answer) == Some(9));
    Ok(())
}

/// A source isn't asked for anything where the setup can't be run.
#[test]
fn unusable_setup_asks_no_source(rt: HostRuntime) -> Result<(), Fail> {
    let calls = Calls::none(rt.alloc())?;
    let source = Counting::new(no_inputs(rt.alloc()), &calls)?;
    let mut setup = numbered::narrow(rt.alloc(), 16)?;
    setup.mailbox = 0;
    let answer = receive_on_channel_0(rt.alloc(), rt, setup, source, Forgets, Forgets);
    let error = answer.err().ok_or("no fault")?;
    assert!(rt; error.fault == RunFault::NoCapacity);
    assert!(rt; !error.began);
    assert!(rt; calls.made() == 0);
    Ok(())
}

/// What an error says.
fn message<E: Error>(alloc: Global, error: &E) -> Result<String, AllocError> {
    error.to_string(alloc)
}

#[test]
fn error_says_what_its_fault_says(rt: HostRuntime) -> Result<(), Fail> {
    let alloc = rt.alloc();
    let mut setup = numbered::narrow(alloc, 16)?;
    setup.mailbox = 0;
    let answer = receive_on_channel_0(alloc, rt, setup, no_inputs(alloc), Forgets, Forgets);
    let said = message(alloc, &answer.err().ok_or("an error")?)?;
    assert!(rt; said.as_str() == "a mailbox needs room for an entry");
    Ok(())
}

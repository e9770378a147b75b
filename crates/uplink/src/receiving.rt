//! A receiver on threads: seven workers beside its caller.
//!
//! Four lane workers, one for each source, and one for the decisions post into the arrivals
//! mailbox, from which the caller, the assembler, takes. Lane workers post requests into a second
//! mailbox, from which the worker of requests takes. The assembler offers frames to a ring for each
//! flow, from which the worker of frames takes.
ghost use Rattle.std.specs.Prelude.{◌≡◌, ◌<◌, Bool, ℕ, List, Some, IfOk, IfErr, IfSome, length};
ghost use Rattle.std.specs.Prelude.{slice_get};
ghost use Rattle.loss_rule.specs.declared.rule.LossRule.{LossRule};
ghost use Rattle.uplink.specs.declared.finish.Concluded.{Concluded};
ghost use Rattle.receiver.specs.declared.tally.LaneTally.{LaneTally};
ghost use Rattle.uplink.specs.Faults.{CanRun, IsRunFault, CanRunWithin, IsRunFaultWithin};
ghost use Rattle.workers.specs.Given.{Yields, HasGivenFirst};
ghost use Rattle.uplink.specs.Received.{CameFrom, HasReceived, GivesBack, AreUntouched};
ghost use Rattle.lane.specs.Limits.{channel_limit};
ghost use Rattle.uplink.specs.Inside.Running.{HaveNotes, notes_on, AreCountedOf, IsReceivedFrom};
ghost use Rattle.uplink.specs.Inside.Running.{CanStart, RanOpened, HasRun, IsOpened};

use crate::assembler::{AssembledAll, Taking, assemble};
use crate::faults::{RunFault, check_setup, check_within};
use crate::finish::{Concluded, Ended, FourNotes, Ran, conclude};
use crate::open::{Opened, SOURCES, open_all};
use consumer::Consumer;
use docsis_wire::HeaderCheck;
use flow_core::FlowCounts;
use loss_rule::LossRule;
use receiver::{LaneTally, Setup, Width};
use std::alloc::{AllocError, Global};
use std::sync::Wait;
use std::thread::Threads;
use thiserror::Error;
use workers::{
    Consumers, Joined, LaneNotes, LiveDecisions, LiveSource, Share, Sources, Strays, Work,
    start_team,
};

/// What was received, apart from what the consumer and the scheduler made of it.
#[derive(Debug, Drop)]
pub struct Received<F, Q> {
    /// Who took the frames.
    pub consumer: F,
    /// Who took the requests.
    pub scheduler: Q,
    /// What was counted of each flow, in the order of the records.
    pub flows: Vec<FlowCounts>,
    /// How many bursts of each channel were admitted, and how many of its inputs refused.
    pub lanes: Vec<LaneTally>,
    /// How many inputs of each source were refused since their channel isn't the source's own.
    pub strays: [Strays; SOURCES as usize],
}

/// Why a receiver doesn't run, or doesn't run to its end, with the two that it was to serve. Its
/// message is that of its fault.
#[derive(Debug, Drop, Error)]
#[error("{fault}")]
pub struct ReceiveError<F, Q> {
    /// The fault, the first that there is.
    pub fault: RunFault,
    /// Whether the threads began. Otherwise no source was asked for anything, and the two are as
    /// they were handed in.
    pub began: bool,
    /// Who was to take the frames.
    pub consumer: F,
    /// Who was to take the requests.
    pub scheduler: Q,
}

/// Receives on seven threads beside the caller's, until all sources and decisions are used up, and
/// then closes each flow. Each frame is given to `consumer` on the worker of frames, and each
/// request to `scheduler` on the worker of requests, as they come: nothing of them is kept, nor the
/// order in which items were taken. Before a segment is taken, what `rule` says is lost is skipped.
///
/// There are as many channels and flows as the width says, and four sources: a channel belongs to
/// the source whose number it leaves when divided by four. What a source gives on a channel that
/// isn't its own, or that there isn't, is counted, and changes nothing else.
///
/// **The headline is its contract** (`received`), of what the two were given: there is an order of
/// the items of the channels and of the decisions that name a flow, a lawful one, in which those of
/// each source stand as it gave them, also between its channels, such that the frames of each flow
/// are its whole delivery sequence, if its segments are those of one lawful cut of a modem's frames
/// and its events are near, and the requests of each channel are those of its admitted segments,
/// each once and in order. The answer is the one that one thread gives by the rule for that order.
/// Nothing else is given to either.
///
/// `Setup` and `Lane`: the first fault of the setup, which may be as wide as the receiver.
/// `NoCapacity`: it has none, and the capacity of the mailboxes is 0. Then no thread began, and
/// nothing was given.
/// `OutOfMemory`: an allocation failed, in whichever thread, also while it was looked whether an
/// identifier is given twice, or a thread could not be started. Before all threads are started no
/// source is asked, and the two are given nothing (`not_begun`). Later the worker whose allocation
/// failed asks its source for nothing more, all others go on to their end, and no frame is made of
/// what is taken then: so what the two were given is what comes first of what they would have been
/// given (`given_back`, which allows for a flow that is being closed when an allocation fails). The
/// two come back on every answer. The check is used by the caller's thread alone. The call waits
/// for its threads, and they for the sources: it returns only if these end.
///
/// **A slow consumer is waited for.** While a frame finds no room in its flow's ring, no item is
/// taken, so the mailboxes fill, and sources are asked for nothing more. What waits is bounded by
/// the rings, the mailboxes and the frames of one item, which may be those of a whole window where
/// it fills a hole, and at the close by what the windows held; no frame is dropped. Nothing grows
/// with what was received. So neither of the two may wait for what only later inputs bring.
pub fn receive<S0, S1, S2, S3, D, F, Q, C, R>(
    alloc: Global,
    rt: R,
    width: Width,
    setup: Setup,
    rule: LossRule,
    sources: Sources<S0, S1, S2, S3>,
    decisions: D,
    consumer: F,
    scheduler: Q,
    check: C,
) -> Result<Received<F, Q>, ReceiveError<F, Q>>
where
    S0: LiveSource + Drop + Send + 'static,
    S1: LiveSource + Drop + Send + 'static,
    S2: LiveSource + Drop + Send + 'static,
    S3: LiveSource + Drop + Send + 'static,
    D: LiveDecisions + Drop + Send + 'static,
    F: Consumer + Drop + Send + 'static,
    Q: Consumer + Drop + Send + 'static,
    C: HeaderCheck + Drop,
    R: Threads + Wait + Copy + Send + 'static,
    ensures received { IfOk result (HasReceived F.after Q.after width.channels rule
        (C.accepts check) setup
        (CameFrom (Yields S0.gave S0.is_over sources.s0) (Yields S1.gave S1.is_over sources.s1)
        (Yields S2.gave S2.is_over sources.s2) (Yields S3.gave S3.is_over sources.s3)
        (Yields D.gave D.is_over decisions)) consumer scheduler) }
    ensures can_run { IfOk result (λ _. CanRunWithin width.channels width.flows setup) }
    ensures fault { IfErr result
        (λ error. IsRunFaultWithin width.channels width.flows setup error.fault) }
    ensures given_back { IfErr result (GivesBack F.after Q.after width.channels rule
        (C.accepts check) setup
        (CameFrom (HasGivenFirst S0.gave sources.s0) (HasGivenFirst S1.gave sources.s1)
        (HasGivenFirst S2.gave sources.s2) (HasGivenFirst S3.gave sources.s3)
        (HasGivenFirst D.gave decisions)) consumer scheduler) }
    ensures not_begun { IfErr result (AreUntouched consumer scheduler) }
{
    crate::laws::consumers_take_the_delivery_sequence();
    let opened = match prepare_within(alloc, width, rule, &setup, check) {
        Ok(opened) => opened,
        Err(fault) => {
            return Err(ReceiveError {
                fault,
                began: false,
                consumer,
                scheduler,
            });
        }
    };
    let consumers = Consumers {
        consumer,
        scheduler,
    };
    let ran = run_prepared(
        alloc, &rt, &setup, opened, None, sources, decisions, consumers,
    );
    received_of(alloc, width.channels(), ran)
}

/// What was received, or that an allocation failed or a thread could not be started.
fn received_of<F, Q>(
    alloc: Global,
    channels: u8,
    ran: Ran<F, Q, LaneTally>,
) -> Result<Received<F, Q>, ReceiveError<F, Q>>
    requires { IfSome ran.concluded (λ concluded. HaveNotes channels concluded.lanes) }
    ensures received { IfOk result (λ received. (concluded : Concluded LaneTally)
        × (ran.concluded ≡ Some concluded)
        × IsReceivedFrom channels ran.consumers concluded received) }
    ensures not { IfErr result (λ error. error ≡ record {
      fault = RunFault.OutOfMemory;
      began = ran.began;
      consumer = ran.consumers.consumer;
      scheduler = ran.consumers.scheduler;
    }) }
{
    let Ran {
        consumers,
        began,
        concluded,
    } = ran;
    let Consumers {
        consumer,
        scheduler,
    } = consumers;
    let Some((counts, lanes, notes)) = counted_of(alloc, channels, concluded) else {
        return Err(ReceiveError {
            fault: RunFault::OutOfMemory,
            began,
            consumer,
            scheduler,
        });
    };
    let FourNotes { n0, n1, n2, n3 } = notes;
    Ok(Received {
        consumer,
        scheduler,
        flows: counts,
        lanes,
        strays: [n0.strays, n1.strays, n2.strays, n3.strays],
    })
}

/// What was counted of each flow and of each channel, and what was noted, if a run came to
/// something.
fn counted_of(
    alloc: Global,
    channels: u8,
    concluded: Option<Concluded<LaneTally>>,
) -> Option<(Vec<FlowCounts>, Vec<LaneTally>, FourNotes<LaneTally>)>
    requires { IfSome concluded (λ all. HaveNotes channels all.lanes) }
    ensures { IfSome result (λ counted. (all : Concluded LaneTally) × (concluded ≡ Some all)
        × AreCountedOf channels all counted.0 counted.1 counted.2) }
{
    let Concluded {
        counts,
        lanes: notes,
        order: _,
    } = concluded?;
    let lanes = lanes_in_order(alloc, channels, &notes).ok()?;
    Some((counts, lanes, notes))
}

/// What was counted of each channel, in their order.
fn lanes_in_order(
    alloc: Global,
    channels: u8,
    notes: &FourNotes<LaneTally>,
) -> Result<Vec<LaneTally>, AllocError>
    requires { HaveNotes channels notes.now }
    ensures count { IfOk result (λ lanes. length lanes.items ≡ channels) }
    ensures each { IfOk result (λ lanes. (channel : ℕ) → channel < channels
        → slice_get lanes.items channel ≡ notes_on notes.now channel) }
{
    let mut lanes = Vec::with_capacity(alloc, usize::from(channels))?;
    for channel in 0..channels {
        lanes.push(tally_on(notes, channel))?;
    }
    Ok(lanes)
}

/// What was counted of this channel.
fn tally_on(notes: &FourNotes<LaneTally>, channel: u8) -> LaneTally
    requires { (channels : ℕ) × (channel < channels) × HaveNotes channels notes.now }
    ensures { notes_on notes.now channel ≡ Some result }
{
    let place = usize::from(channel);
    match channel % SOURCES {
        0 => notes.n0.lanes[place],
        1 => notes.n1.lanes[place],
        2 => notes.n2.lanes[place],
        _ => notes.n3.lanes[place],
    }
}

/// Opens all that a receiver of four channels needs by this rule, if its setup can be run.
pub fn prepare<C: HeaderCheck + Drop>(
    alloc: Global,
    rule: LossRule,
    setup: &Setup,
    check: C,
) -> Result<Opened<C>, RunFault>
    ensures opened { IfOk result
        (IsOpened C.accepts (C.accepts check) channel_limit rule setup.now) }
    ensures can_run { IfOk result (λ _. CanRun setup.now) }
    ensures fault { IfErr result (IsRunFault setup.now) }
{
    check_setup(setup)?;
    let channels = Width::PROFILE.channels();
    Ok(open_all(alloc, channels, rule, setup, check)?)
}

/// Opens all that a receiver of this width needs by this rule, if its setup can be run.
fn prepare_within<C: HeaderCheck + Drop>(
    alloc: Global,
    width: Width,
    rule: LossRule,
    setup: &Setup,
    check: C,
) -> Result<Opened<C>, RunFault>
    ensures opened { IfOk result
        (IsOpened C.accepts (C.accepts check) width.channels rule setup.now) }
    ensures can_run { IfOk result (λ _. CanRunWithin width.channels width.flows setup.now) }
    ensures fault { IfErr result (IsRunFaultWithin width.channels width.flows setup.now) }
{
    check_within(alloc, width, setup)?;
    Ok(open_all(alloc, width.channels(), rule, setup, check)?)
}

/// Runs what was opened for a setup until all threads have returned, and settles it. The order of
/// the items is appended to `order`, if there is one.
pub fn run_prepared<S0, S1, S2, S3, D, F, Q, N, C, R>(
    alloc: Global,
    rt: &R,
    setup: &Setup,
    opened: Opened<C>,
    order: Option<Vec<u8>>,
    sources: Sources<S0, S1, S2, S3>,
    decisions: D,
    consumers: Consumers<F, Q>,
) -> Ran<F, Q, N>
where
    S0: LiveSource + Drop + Send + 'static,
    S1: LiveSource + Drop + Send + 'static,
    S2: LiveSource + Drop + Send + 'static,
    S3: LiveSource + Drop + Send + 'static,
    D: LiveDecisions + Drop + Send + 'static,
    F: Consumer + Drop + Send + 'static,
    Q: Consumer + Drop + Send + 'static,
    N: LaneNotes + Drop + Send + 'static,
    C: HeaderCheck + Drop,
    R: Threads + Wait + Copy + Send + 'static,
    requires { (accepted : List ℕ → Bool) × (channels : ℕ) × (rule : LossRule)
        × IsOpened C.accepts accepted channels rule setup.now opened }
    ensures { (accepted : List ℕ → Bool) (channels : ℕ) (rule : LossRule)
        → IsOpened C.accepts accepted channels rule setup.now opened
        → HasRun F.after Q.after N.are_of channels rule accepted setup.now
        (CameFrom (Yields S0.gave S0.is_over sources.s0) (Yields S1.gave S1.is_over sources.s1)
        (Yields S2.gave S2.is_over sources.s2) (Yields S3.gave S3.is_over sources.s3)
        (Yields D.gave D.is_over decisions))
        (CameFrom (HasGivenFirst S0.gave sources.s0) (HasGivenFirst S1.gave sources.s1)
        (HasGivenFirst S2.gave sources.s2) (HasGivenFirst S3.gave sources.s3)
        (HasGivenFirst D.gave decisions)) order consumers result }
{
    crate::laws::flows_have_given_what_comes_first();
    let flow_count = setup.flows.len();
    let (consumers, ended) = run_opened(
        alloc, rt, flow_count, opened, order, sources, decisions, consumers,
    );
    let began = ended.is_some();
    let concluded = match ended {
        Some(end) => conclude(rt, end),
        None => None,
    };
    Ran {
        consumers,
        began,
        concluded,
    }
}

/// Runs what was opened until all threads have returned. It hands back the consumers, and what the
/// threads handed on; where one could not be started, the consumers as they were.
fn run_opened<S0, S1, S2, S3, D, F, Q, N, C, R>(
    alloc: Global,
    rt: &R,
    flow_count: usize,
    opened: Opened<C>,
    order: Option<Vec<u8>>,
    sources: Sources<S0, S1, S2, S3>,
    decisions: D,
    consumers: Consumers<F, Q>,
) -> (Consumers<F, Q>, Option<Ended<N>>)
where
    S0: LiveSource + Drop + Send + 'static,
    S1: LiveSource + Drop + Send + 'static,
    S2: LiveSource + Drop + Send + 'static,
    S3: LiveSource + Drop + Send + 'static,
    D: LiveDecisions + Drop + Send + 'static,
    F: Consumer + Drop + Send + 'static,
    Q: Consumer + Drop + Send + 'static,
    N: LaneNotes + Drop + Send + 'static,
    C: HeaderCheck + Drop,
    R: Threads + Wait + Copy + Send + 'static,
    requires opened { CanStart C.accepts opened }
    ensures { RanOpened F.after Q.after N.are_of C.accepts opened.channels flow_count
        (CameFrom (Yields S0.gave S0.is_over sources.s0) (Yields S1.gave S1.is_over sources.s1)
        (Yields S2.gave S2.is_over sources.s2) (Yields S3.gave S3.is_over sources.s3)
        (Yields D.gave D.is_over decisions))
        (CameFrom (HasGivenFirst S0.gave sources.s0) (HasGivenFirst S1.gave sources.s1)
        (HasGivenFirst S2.gave sources.s2) (HasGivenFirst S3.gave sources.s3)
        (HasGivenFirst D.gave decisions)) opened order consumers result }
{
    let Opened {
        channels,
        signals,
        lanes,
        flows,
        rings,
        closed,
        arrivals,
        requests,
    } = opened;
    let share = Share {
        signals,
        lanes,
        arrivals: arrivals.ports,
        requests,
        takers: rings.takers,
    };
    let (work, unused_port) = Work::new(
        rt, channels, flow_count, share, sources, decisions, consumers,
    );
    let team = match start_team(alloc, rt, work) {
        Ok(team) => team,
        Err(back) => {
            let frames = back.frames;
            let requests = back.requests;
            let consumers = Consumers {
                consumer: frames.consumer,
                scheduler: requests.scheduler,
            };
            return (consumers, None);
        }
    };
    let AssembledAll {
        mouth,
        feeders,
        done: assembled,
    } = assemble(
        alloc,
        rt,
        &team.signals,
        Taking { flows, order },
        arrivals.mouth,
        rings.feeders,
        closed,
    );
    let Joined { consumers, done } = team.join(rt);
    let ended = Ended {
        done,
        unused_port,
        mouth,
        feeders,
        assembled,
    };
    (consumers, Some(ended))
}

//! A receiver on threads that collects what it gives: it runs as [`receive`](crate::receive) does,
//! with consumers that keep everything, and keeps the order too.
ghost use Rattle.std.specs.Prelude.{◌∷◌, [], IfOk, IfErr};
ghost use Rattle.uplink.specs.Faults.{CanRun, IsRunFault};
ghost use Rattle.uplink.specs.Headline.{KeepsTheHeadline, KeepsTheHeadlineBy};
ghost use Rattle.receiver.specs.Items.{incoming_from};
ghost use Rattle.receiver.specs.Outcome.{IsOutcome};
ghost use Rattle.receiver.specs.Ruled.{IsOutcomeBy};

use crate::faults::RunFault;
use crate::finish::outcome_of;
use crate::receiving::{prepare, run_prepared};
use crate::tap::{Tap, Taps};
use crate::tapped::tapping;
use docsis_wire::{Bytes, HeaderCheck};
use lane::Request;
use loss_rule::LossRule;
use receiver::{Outcome, Setup};
use std::alloc::Global;
use std::sync::Wait;
use std::thread::Threads;
use workers::{Consumers, Decisions, Foreknown, Source, Sources};

/// Runs a receiver on seven threads beside the caller's, until all sources and decisions are used
/// up, and then closes each flow. It takes the items of the four channels and the decisions that
/// name a flow in the order in which they come, which the outcome states.
///
/// **The headline is its contract** (`headline`): that order is a lawful one, the requests of each
/// channel are those of its admitted segments, each once and in order, and what each flow's
/// consumer took is the flow's whole delivery sequence, if the flow's segments are those of one
/// lawful cut of a modem's frames and its events are near. The outcome is the one that one thread
/// gives for that order (`answer`).
///
/// `Setup` and `Lane`: the first fault of the setup. `NoCapacity`: it has none, and the capacity of
/// the mailboxes is 0. `OutOfMemory`: an allocation failed, in whichever thread, or a thread could
/// not be started. Before all threads are started no source is asked. Later the worker of a source
/// whose allocation failed asks its source for nothing more, all others go on to their end, and
/// nothing of the outcome is given. What is handed in doesn't come back, on any answer. The check
/// is used by the caller's thread alone. The call waits for its threads, and they for the sources:
/// it returns only if these end.
pub fn run<S0, S1, S2, S3, D, F, Q, C, R>(
    alloc: Global,
    rt: R,
    setup: Setup,
    sources: Sources<S0, S1, S2, S3>,
    decisions: D,
    taps: Taps<F, Q>,
    check: C,
) -> Result<Outcome, RunFault>
where
    S0: Source + Drop + Send + 'static,
    S1: Source + Drop + Send + 'static,
    S2: Source + Drop + Send + 'static,
    S3: Source + Drop + Send + 'static,
    D: Decisions + Drop + Send + 'static,
    F: Tap<Bytes> + Drop + Send + 'static,
    Q: Tap<Request> + Drop + Send + 'static,
    C: HeaderCheck + Drop,
    R: Threads + Wait + Copy + Send + 'static,
    ensures headline { IfOk result (λ outcome. KeepsTheHeadline (C.accepts check) setup
        (incoming_from (S0.gives sources.s0 ∷ S1.gives sources.s1 ∷ S2.gives sources.s2
        ∷ S3.gives sources.s3 ∷ []) (D.decides decisions))
        outcome.order.items outcome) }
    ensures answer { IfOk result (λ outcome. IsOutcome (C.accepts check) setup
        (incoming_from (S0.gives sources.s0 ∷ S1.gives sources.s1 ∷ S2.gives sources.s2
        ∷ S3.gives sources.s3 ∷ []) (D.decides decisions))
        outcome.order.items outcome) }
    ensures can_run { IfOk result (λ _. CanRun setup) }
    ensures fault { IfErr result (IsRunFault setup) }
{
    crate::laws::consumers_take_the_delivery_sequence();
    crate::laws::replay_by_decisions_alone_is_a_replay();
    run_by(
        LossRule::Decided,
        alloc,
        rt,
        setup,
        sources,
        decisions,
        taps,
        check,
    )
}

/// Runs as [`run`] does, and decides besides by this rule which segments are lost: before a segment
/// is taken, what the rule says is lost is skipped. The outcome is the one that one thread gives by
/// the rule for that order (`answer`), and keeps the headline over the events that the rule makes
/// (`headline`). Which of a modem's frames each flow then gives is said by the law
/// [`flows_give_the_frames_that_all_came`](crate::laws::flows_give_the_frames_that_all_came), whose
/// premises are about that order: in it one channel may be further ahead of another than it was on
/// the air, and a window has to hold that too.
pub fn run_by<S0, S1, S2, S3, D, F, Q, C, R>(
    rule: LossRule,
    alloc: Global,
    rt: R,
    setup: Setup,
    sources: Sources<S0, S1, S2, S3>,
    decisions: D,
    taps: Taps<F, Q>,
    check: C,
) -> Result<Outcome, RunFault>
where
    S0: Source + Drop + Send + 'static,
    S1: Source + Drop + Send + 'static,
    S2: Source + Drop + Send + 'static,
    S3: Source + Drop + Send + 'static,
    D: Decisions + Drop + Send + 'static,
    F: Tap<Bytes> + Drop + Send + 'static,
    Q: Tap<Request> + Drop + Send + 'static,
    C: HeaderCheck + Drop,
    R: Threads + Wait + Copy + Send + 'static,
    ensures headline { IfOk result (λ outcome. KeepsTheHeadlineBy rule (C.accepts check) setup
        (incoming_from (S0.gives sources.s0 ∷ S1.gives sources.s1 ∷ S2.gives sources.s2
        ∷ S3.gives sources.s3 ∷ []) (D.decides decisions))
        outcome.order.items outcome) }
    ensures answer { IfOk result (λ outcome. IsOutcomeBy rule (C.accepts check) setup
        (incoming_from (S0.gives sources.s0 ∷ S1.gives sources.s1 ∷ S2.gives sources.s2
        ∷ S3.gives sources.s3 ∷ []) (D.decides decisions))
        outcome.order.items outcome) }
    ensures can_run { IfOk result (λ _. CanRun setup) }
    ensures fault { IfErr result (IsRunFault setup) }
{
    crate::laws::consumers_take_the_delivery_sequence();
    let opened = prepare(alloc, rule, &setup, check)?;
    let consumers = tapping(alloc, setup.flows.len(), taps)?;
    let order = Some(Vec::new(alloc));
    let ran = run_prepared(
        alloc,
        &rt,
        &setup,
        opened,
        order,
        sources.on_four_channels(),
        Foreknown(decisions),
        consumers,
    );
    let Consumers {
        consumer,
        scheduler,
    } = ran.consumers;
    Ok(outcome_of(
        alloc,
        &setup.flows,
        consumer.collected,
        scheduler.collected,
        ran.concluded,
    )?)
}

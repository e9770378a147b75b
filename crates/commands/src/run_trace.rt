//! A trace that is received on threads.
ghost use Rattle.std.specs.Prelude.{◌≡◌, Ok, IfOk, IfErr};
ghost use Rattle.uplink.specs.Faults.{CanRun};
ghost use Rattle.uplink.specs.declared.faults.RunFault.TheVariants as run_fault;
ghost use Rattle.receiver.specs.Items.{inputs_on};
ghost use Rattle.texts.specs.Run.{IsReceivedBy};

use docsis_wire::{Bytes, NoCheck};
use loss_rule::LossRule;
use std::alloc::{AllocError, Global};
use std::sync::Wait;
use std::thread::Threads;
use texts::Trace;
use uplink::{
    Decisions, ListDecisions, ListSource, Lists, Outcome, Request, RunFault, Source, Sources, Tap,
    Taps, run_by,
};

/// The sources of the inputs of four lists.
type ListSources = Sources<ListSource, ListSource, ListSource, ListSource>;

/// Where the inputs and the decisions of a trace come from.
fn sources_of(lists: Lists) -> (ListSources, ListDecisions)
    ensures first { ⟦<ListSource as Source>⟧.gives result.0.s0 ≡ inputs_on lists 0 }
    ensures second { ⟦<ListSource as Source>⟧.gives result.0.s1 ≡ inputs_on lists 1 }
    ensures third { ⟦<ListSource as Source>⟧.gives result.0.s2 ≡ inputs_on lists 2 }
    ensures fourth { ⟦<ListSource as Source>⟧.gives result.0.s3 ≡ inputs_on lists 3 }
    ensures decisions { ⟦<ListDecisions as Decisions>⟧.decides result.1 ≡ lists.decisions.items }
{
    let Lists { inputs, decisions } = lists;
    let [first, second, third, fourth] = inputs;
    let s0 = ListSource::new(first);
    let s1 = ListSource::new(second);
    let s2 = ListSource::new(third);
    let s3 = ListSource::new(fourth);
    let sources = Sources { s0, s1, s2, s3 };
    (sources, ListDecisions::new(decisions))
}

/// What a trace gives by this rule when its inputs come from four sources at once.
pub(crate) fn run_trace<F, Q, R>(
    rule: LossRule,
    alloc: Global,
    rt: R,
    trace: Trace,
    taps: Taps<F, Q>,
) -> Result<Outcome, AllocError>
where
    F: Tap<Bytes> + Drop + Send + 'static,
    Q: Tap<Request> + Drop + Send + 'static,
    R: Threads + Wait + Copy + Send + 'static,
    requires { CanRun trace.setup }
    ensures { IfOk result (IsReceivedBy rule trace) }
{
    lane::laws::rows_have_one_first_fault();
    let Trace { setup, lists, .. } = trace;
    let (sources, decisions) = sources_of(lists);
    let answer = run_by(rule, alloc, rt, setup, sources, decisions, taps, NoCheck);
    expect_outcome(answer)
}

/// The outcome of a run that can only lack memory, since its setup has no fault.
fn expect_outcome(answer: Result<Outcome, RunFault>) -> Result<Outcome, AllocError>
    requires { IfErr answer (λ fault. fault ≡ run_fault.OutOfMemory) }
    ensures { IfOk result (λ outcome. answer ≡ Ok outcome) }
{
    match answer {
        Ok(outcome) => Ok(outcome),
        Err(_) => Err(AllocError),
    }
}

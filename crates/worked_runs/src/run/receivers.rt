//! Receivers that several tests run.
use super::numbered;
use docsis_wire::{Bytes, HeaderCheck, NoCheck};
use std::alloc::Global;
use std::sync::Wait;
use std::thread::Threads;
use uplink::{
    Input, ListDecisions, ListSource, Lists, NoTap, Outcome, Request, RunFault, Source, Sources,
    Tap, Taps, run,
};
use worked_traces::traces::Trace;

pub type Four<S> = Sources<S, S, S, S>;

/// The inputs of each channel as a source.
pub fn sources_of(inputs: [Vec<Input>; 4]) -> Four<ListSource> {
    let [i0, i1, i2, i3] = inputs;
    Sources {
        s0: ListSource::new(i0),
        s1: ListSource::new(i1),
        s2: ListSource::new(i2),
        s3: ListSource::new(i3),
    }
}

pub fn no_inputs(alloc: Global) -> ListSource {
    ListSource::new(Vec::new(alloc))
}

pub fn no_decisions(alloc: Global) -> ListDecisions {
    ListDecisions::new(Vec::new(alloc))
}

pub fn no_taps() -> Taps<NoTap, NoTap> {
    Taps {
        frames: NoTap,
        requests: NoTap,
    }
}

/// Receives a trace, and looks at nothing meanwhile.
pub fn receive<R>(alloc: Global, rt: R, trace: Trace) -> Result<Outcome, RunFault>
where
    R: Threads + Wait + Copy + Send + 'static,
{
    receive_with(alloc, rt, trace, no_taps())
}

/// Receives a trace while these taps look on.
pub fn receive_with<F, Q, R>(
    alloc: Global,
    rt: R,
    trace: Trace,
    taps: Taps<F, Q>,
) -> Result<Outcome, RunFault>
where
    F: Tap<Bytes> + Drop + Send + 'static,
    Q: Tap<Request> + Drop + Send + 'static,
    R: Threads + Wait + Copy + Send + 'static,
{
    let Trace { setup, lists } = trace;
    let Lists { inputs, decisions } = lists;
    let sources = sources_of(inputs);
    let decisions = ListDecisions::new(decisions);
    run(alloc, rt, setup, sources, decisions, taps, NoCheck)
}

/// Receives what a source gives on channel 0, with little room, while these taps look on.
pub fn receive_on_channel_0<S, F, Q, R>(
    alloc: Global,
    rt: R,
    source: S,
    taps: Taps<F, Q>,
) -> Result<Outcome, RunFault>
where
    S: Source + Drop + Send + 'static,
    F: Tap<Bytes> + Drop + Send + 'static,
    Q: Tap<Request> + Drop + Send + 'static,
    R: Threads + Wait + Copy + Send + 'static,
{
    receive_checked_on_channel_0(alloc, rt, source, taps, NoCheck)
}

/// The same, with this check of headers.
pub fn receive_checked_on_channel_0<S, F, Q, C, R>(
    alloc: Global,
    rt: R,
    source: S,
    taps: Taps<F, Q>,
    check: C,
) -> Result<Outcome, RunFault>
where
    S: Source + Drop + Send + 'static,
    F: Tap<Bytes> + Drop + Send + 'static,
    Q: Tap<Request> + Drop + Send + 'static,
    C: HeaderCheck + Drop,
    R: Threads + Wait + Copy + Send + 'static,
{
    let setup = numbered::narrow(alloc, 16)?;
    let sources = Sources {
        s0: source,
        s1: no_inputs(alloc),
        s2: no_inputs(alloc),
        s3: no_inputs(alloc),
    };
    run(alloc, rt, setup, sources, no_decisions(alloc), taps, check)
}

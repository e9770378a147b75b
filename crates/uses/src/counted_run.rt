//! A running receiver of which nothing is kept but counts.
ghost use Rattle.std.specs.Prelude.{IfOk, IfErr};
ghost use Rattle.uplink.specs.Faults.{IsRunFaultWithin};
ghost use Rattle.uplink.specs.Received.{CameFrom};
ghost use Rattle.workers.specs.Given.{Yields};
ghost use Rattle.uses.specs.CountedRun.{AreCounts};

use consumer::Counts;
use consumer::laws::consumers_begin_with_nothing_given;
use docsis_wire::HeaderCheck;
use std::alloc::Global;
use std::sync::Wait;
use std::thread::Threads;
use uplink::{
    LiveDecisions, LiveSource, LossRule, Received, RunFault, Setup, Sources, Width, receive,
};

/// Nothing was counted yet.
const NOTHING: Counts = Counts {
    frames: 0,
    bytes: 0,
    requests: 0,
};

/// Receives until all sources and decisions are used up, and counts the frames and their bytes, and
/// the requests, beside what was counted of each flow, channel and source; or answers the first
/// fault of the setup (`Setup`, `Lane`, `NoCapacity`), or `OutOfMemory`: an allocation failed, or a
/// thread could not be started.
pub fn count_received<S0, S1, S2, S3, D, C, R>(
    alloc: Global,
    rt: R,
    width: Width,
    setup: Setup,
    rule: LossRule,
    sources: Sources<S0, S1, S2, S3>,
    decisions: D,
    check: C,
) -> Result<Received<Counts, Counts>, RunFault>
where
    S0: LiveSource + Drop + Send + 'static,
    S1: LiveSource + Drop + Send + 'static,
    S2: LiveSource + Drop + Send + 'static,
    S3: LiveSource + Drop + Send + 'static,
    D: LiveDecisions + Drop + Send + 'static,
    C: HeaderCheck + Drop,
    R: Threads + Wait + Copy + Send + 'static,
    ensures counted { IfOk result (AreCounts width.channels rule (C.accepts check) setup
        (CameFrom (Yields S0.gave S0.is_over sources.s0) (Yields S1.gave S1.is_over sources.s1)
        (Yields S2.gave S2.is_over sources.s2) (Yields S3.gave S3.is_over sources.s3)
        (Yields D.gave D.is_over decisions))) }
    ensures fault { IfErr result (IsRunFaultWithin width.channels width.flows setup) }
{
    consumers_begin_with_nothing_given();
    match receive(
        alloc, rt, width, setup, rule, sources, decisions, NOTHING, NOTHING, check,
    ) {
        Ok(received) => Ok(received),
        Err(error) => Err(error.fault),
    }
}

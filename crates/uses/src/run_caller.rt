//! A running receiver: which of a modem's frames the consumer of each flow took.
ghost use Rattle.std.specs.Prelude.{◌∷◌, [], IfOk, IfErr};
ghost use Rattle.uplink.specs.Faults.{IsRunFault};
ghost use Rattle.receiver.specs.Items.{incoming_from};
ghost use Rattle.uses.specs.RunCaller.{TookOfEachFlow};

use docsis_wire::HeaderCheck;
use std::alloc::Global;
use std::sync::Wait;
use std::thread::Threads;
use uplink::{Decisions, FlowOutcome, NoTap, RunFault, Setup, Source, Sources, Taps, run};

/// Receives on four channels until all sources and decisions are used up, and answers what each
/// flow gave; or the first fault of the setup (`Setup`, `Lane`, `NoCapacity`), or `OutOfMemory`: an
/// allocation failed, or a thread could not be started.
pub fn receive<S0, S1, S2, S3, D, C, R>(
    alloc: Global,
    rt: R,
    setup: Setup,
    sources: Sources<S0, S1, S2, S3>,
    decisions: D,
    check: C,
) -> Result<Vec<FlowOutcome>, RunFault>
where
    S0: Source + Drop + Send + 'static,
    S1: Source + Drop + Send + 'static,
    S2: Source + Drop + Send + 'static,
    S3: Source + Drop + Send + 'static,
    D: Decisions + Drop + Send + 'static,
    C: HeaderCheck + Drop,
    R: Threads + Wait + Copy + Send + 'static,
    ensures taken { IfOk result (λ flows. TookOfEachFlow (C.accepts check) setup
        (incoming_from (S0.gives sources.s0 ∷ S1.gives sources.s1 ∷ S2.gives sources.s2
        ∷ S3.gives sources.s3 ∷ []) (D.decides decisions)) flows.items) }
    ensures fault { IfErr result (IsRunFault setup) }
{
    let taps = Taps {
        frames: NoTap,
        requests: NoTap,
    };
    let outcome = run(alloc, rt, setup, sources, decisions, taps, check)?;
    Ok(outcome.flows)
}

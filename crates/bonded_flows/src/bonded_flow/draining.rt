//! Joining all segments of a flow that are next.
ghost use Rattle.std.specs.Prelude.{◌≡◌, ℕ, Bool, List, IfOk, OnErr};
ghost use Rattle.flow_core.specs.Stands.{IsDrained};
ghost use Rattle.bonded_flows.specs.Stands.{HasTakenSome, IsUpToDate};
ghost use Rattle.bonded_flows.specs.Taking.{IsRunning, Joins, GivesMore};
ghost use Rattle.bonded_flows.specs.Inside.Steps.{JoinsNext};

use super::BondedFlow;
use consumer::{Consumer, give_frames};
use docsis_wire::HeaderCheck;
use flow_core::{Flow, StepAsItIs, WINDOW_MAX};
use std::alloc::{AllocError, Global};

impl BondedFlow {
    /// Joins all segments that are next, and gives their frames. What the flow has come past then
    /// no longer lies ahead.
    pub(super) fn drain<C: HeaderCheck, O: Consumer>(
        &mut self,
        alloc: Global,
        check: &C,
        out: &mut O,
    ) -> Result<(), AllocError>
        requires { HasTakenSome (C.accepts check.now) self.old }
        ensures gives { GivesMore O.after (C.accepts check.now) self.old out.old self.new out.new }
        ensures up_to_date { IfOk result (λ _. IsUpToDate self.new) }
        ensures pending { self.new.pending ≡ self.old.pending }
        ensures index { self.new.index ≡ self.old.index }
    {
        join_all(alloc, check, self.index, &mut self.flow, out)?;
        self.lasts.come_to(self.flow.expected());
        Ok(())
    }
}

/// Advances a flow until nothing is next, and gives the frames of each step.
#[inline(always)]
fn join_all<C: HeaderCheck, O: Consumer>(
    alloc: Global,
    check: &C,
    index: usize,
    flow: &mut Flow,
    out: &mut O,
) -> Result<(), AllocError>
    requires { IsRunning (C.accepts check.now) flow.old }
    ensures joins { Joins O.after (C.accepts check.now) index flow.old out.old flow.new out.new }
    ensures drained { IfOk result (λ _. IsDrained flow.new) }
{
    for _joined in 0..=WINDOW_MAX {
        let was_next = join_next(alloc, check, index, flow, out)?;
        if !was_next {
            return Ok(());
        }
    }
    Ok(())
}

/// Joins the next segment of a flow, gives the frames that it completes, and answers whether there
/// was one. A segment that is one whole frame is given as it is.
#[inline(always)]
fn join_next<C: HeaderCheck, O: Consumer>(
    alloc: Global,
    check: &C,
    index: usize,
    flow: &mut Flow,
    out: &mut O,
) -> Result<bool, AllocError>
    ensures joins { IfOk result (λ joined.
        JoinsNext O.after (C.accepts check.now) index flow.old out.old joined flow.new out.new) }
    ensures refused { OnErr result ((flow.new ≡ flow.old) × (out.new ≡ out.old)) }
{
    match flow.advance_as_it_is(alloc, check)? {
        StepAsItIs::Whole(frame) => out.frame(index, frame),
        StepAsItIs::Frames(frames) => give_frames(out, index, frames),
        StepAsItIs::Nothing => return Ok(false),
    }
    Ok(true)
}

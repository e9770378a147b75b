//! A refused drain or close has appended a front of the frames. It can't be made again on the same
//! flow, of which frames may be lost, so the second call is on a new one.
ghost use Rattle.std.specs.Prelude.{IfOk};
ghost use Rattle.flow_core.specs.Flows.{IsDrainedAt};
ghost use Rattle.flow_core.specs.Giving.{IsRunning};

use super::{CUT, FRAMES};
use crate::core_events::drained_flows::{take, two_flows};
use crate::core_events::expect_drained;
use docsis_wire::{Bytes, HeaderCheck, NoCheck};
use flow_core::{Core, SetupFault};
use std::alloc::{AllocError, Global};
use std::process::Abort;
use std::test::Fail;
use worked_frames::refused::{expect_refused, say_refused, segment_again};
use worked_frames::samples::same_bytes;

/// How a flow's frames are asked for.
#[derive(Clone, Copy)]
enum Asked {
    /// The flow begins with the first segment's number.
    Drain,
    /// It begins with the number before, which is lost.
    Close,
}

/// Makes two flows, and once more where the first call was refused memory.
fn two_flows_again<C: HeaderCheck + Copy + Drop>(
    rt: &(impl Abort + Print),
    alloc: Global,
    check: C,
    first: u16,
) -> Result<Core<C>, Fail>
    ensures running { IfOk result (λ core. IsRunning C.accepts core 1) }
    ensures drained { IfOk result (λ core. IsDrainedAt core 1) }
{
    match two_flows(alloc, check, first, 16) {
        Ok(core) => Ok(core),
        Err(fault) => {
            expect_refused(rt, fault, SetupFault::OutOfMemory)?;
            Ok(two_flows(alloc, check, first, 16)?)
        }
    }
}

/// Three segments arrive backwards in the second flow, which is then drained or closed.
fn finish<C: HeaderCheck + Copy + Drop>(
    rt: &(impl Abort + Print),
    alloc: Global,
    check: C,
    asked: Asked,
    frames: &mut Vec<Bytes>,
) -> Result<Result<(), AllocError>, Fail> {
    let first = match asked {
        Asked::Drain => 1,
        Asked::Close => 0,
    };
    let mut core = two_flows_again(rt, alloc, check, first)?;
    for bytes in CUT.iter().rev() {
        let segment = segment_again(rt, alloc, bytes)?;
        expect_drained(rt, &core, 1);
        take(&mut core, segment);
    }
    match asked {
        Asked::Drain => Ok(core.drain(alloc, 1, frames)),
        Asked::Close => {
            expect_drained(rt, &core, 1);
            Ok(core.close(alloc, 1, frames))
        }
    }
}

/// Drains or closes a flow, and a new one where the first call was refused memory.
fn gives_all(rt: &(impl Abort + Print), alloc: Global, asked: Asked) -> Result<(), Fail> {
    let [_, [plain], [extended]] = FRAMES else {
        return Err("two frames are cut".into());
    };
    let mut frames = Vec::new(alloc);
    if finish(rt, alloc, NoCheck, asked, &mut frames)?.is_err() {
        say_refused(rt)?;
        let none = frames.is_empty();
        let one = same_bytes(&frames, &[plain]);
        assert!(rt; none || one);
        frames.clear();
        finish(rt, alloc, NoCheck, asked, &mut frames)??;
    }
    assert!(rt; same_bytes(&frames, &[plain, extended]));
    Ok(())
}

#[test]
fn drain_refused(rt: HostRuntime) -> Result<(), Fail> {
    gives_all(&rt, rt.alloc(), Asked::Drain)
}

#[test]
fn close_refused(rt: HostRuntime) -> Result<(), Fail> {
    gives_all(&rt, rt.alloc(), Asked::Close)
}

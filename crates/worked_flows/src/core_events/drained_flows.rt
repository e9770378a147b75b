//! Flows that are drained and closed by one call each.
ghost use Rattle.std.specs.Prelude.{◌≤◌, IfOk};
ghost use Rattle.docsis_wire.specs.Ready.{IsReady};
ghost use Rattle.flow_core.specs.Flows.{IsDrainedAt};
ghost use Rattle.flow_core.specs.Giving.{IsRunning};

use super::*;
use docsis_wire::Bytes;
use flow_core::SetupFault;
use worked_frames::samples::PLAIN;

/// Two flows. The second one begins with this number and has a window of this width.
pub(super) fn two_flows<C: HeaderCheck + Drop>(
    alloc: Global,
    check: C,
    first: u16,
    window: u16,
) -> Result<Core<C>, SetupFault>
    ensures running { IfOk result (λ core. IsRunning C.accepts core 1) }
    ensures drained { IfOk result (λ core. IsDrainedAt core 1) }
{
    let core = Core::new(alloc, &[record(0, 0, 16), record(1, first, window)], check)?;
    Ok(core)
}

/// A segment of the second flow arrives.
pub(super) fn take<C: HeaderCheck + Drop>(core: &mut Core<C>, segment: Segment)
    requires ready { IsReady segment }
    requires running { IsRunning C.accepts core.old 1 }
    requires drained { IsDrainedAt core.old 1 }
    ensures { IsRunning C.accepts core.new 1 }
{
    core.apply(Event::Arrive { flow: 1, segment });
}

/// A segment of the second flow arrives, and the flow is drained.
fn arrive<C: HeaderCheck + Drop>(
    alloc: Global,
    core: &mut Core<C>,
    part: Part,
    frames: &mut Vec<Bytes>,
) -> Result<(), Fail>
    requires running { IsRunning C.accepts core.old 1 }
    requires drained { IsDrainedAt core.old 1 }
    ensures running { IfOk result (λ _. IsRunning C.accepts core.new 1) }
    ensures drained { IfOk result (λ _. IsDrainedAt core.new 1) }
{
    let segment = segment(alloc, part)?;
    take(core, segment);
    core.drain(alloc, 1, frames)?;
    Ok(())
}

/// The segments arrive one after another, and then the flow is closed, with a list that has a frame
/// already. Compares the list after each call.
fn appends<C: HeaderCheck + Drop>(
    rt: &impl Abort,
    alloc: Global,
    check: C,
    arriving: &[(Part, &[&[u8]])],
    closed: &[&[u8]],
) -> Result<Core<C>, Fail> {
    let mut core = two_flows(alloc, check, 8190, 16)?;
    let mut frames = Vec::new(alloc);
    frames.push(Bytes::from(Vec::from_slice(alloc, PLAIN)?))?;
    for (place, (part, wanted)) in arriving.iter().enumerate() {
        arrive(alloc, &mut core, *part, &mut frames)?;
        assert!(rt; same_bytes(&frames, wanted), "after segment {place}");
    }
    core.close(alloc, 1, &mut frames)?;
    assert!(rt; same_bytes(&frames, closed), "after the close");
    Ok(core)
}

const NUMBER_8190: Part = Part(8190, Some(0), FRAME_0);

const NUMBER_8191: Part = Part(8191, Some(0), FRAME_1);

const NUMBER_0: Part = Part(0, Some(0), FRAME_2);

const NUMBER_1: Part = Part(1, Some(0), FRAME_3);

/// A drain gives all that a filled gap held up, and then there is nothing to close.
#[test]
fn drain_behind_a_filled_gap(rt: HostRuntime) -> Result<(), Fail> {
    let all = &[PLAIN, FRAME_0, FRAME_1, FRAME_2, FRAME_3];
    let arriving: &[(Part, &[&[u8]])] = &[
        (NUMBER_1, &[PLAIN]),
        (NUMBER_8191, &[PLAIN]),
        (NUMBER_0, &[PLAIN]),
        (NUMBER_8190, all),
    ];
    appends(&rt, rt.alloc(), NoCheck, arriving, all)?;
    Ok(())
}

/// A close gives what lies behind each loss, and leaves the other flow as it was.
#[test]
fn close_behind_losses(rt: HostRuntime) -> Result<(), Fail> {
    let arriving: &[(Part, &[&[u8]])] = &[
        (NUMBER_8190, &[PLAIN, FRAME_0]),
        (Part(4, Some(0), FRAME_4), &[PLAIN, FRAME_0]),
        (NUMBER_1, &[PLAIN, FRAME_0]),
        (NUMBER_0, &[PLAIN, FRAME_0]),
    ];
    let all = &[PLAIN, FRAME_0, FRAME_2, FRAME_3, FRAME_4];
    let core = appends(&rt, rt.alloc(), NoCheck, arriving, all)?;
    assert!(rt; core.flow_count() == 2);
    assert!(rt; core.counts(1) == counts([4, 0, 0, 0, 3, 4, 0]));
    assert!(rt; core.counts(0) == counts([0; 7]));
    Ok(())
}

/// Of the widest window each number arrives that is one less than a multiple of `step`, the
/// greatest first, and then the flow is closed.
fn fills_and_closes<C: HeaderCheck + Drop>(
    rt: &impl Abort,
    alloc: Global,
    check: C,
    step: u16,
) -> Result<(), Fail>
    requires { 1 ≤ step }
{
    let mut core = two_flows(alloc, check, 0, 4096)?;
    let mut frames = Vec::new(alloc);
    for number in (0_u16..4096).rev() {
        if number % step == step - 1 {
            let part = Part(number, Some(0), FRAME_0);
            arrive(alloc, &mut core, part, &mut frames)?;
        }
    }
    core.close(alloc, 1, &mut frames)?;
    assert!(rt; frames.len() == usize::from(4096 / step));
    Ok(())
}

/// All segments at once, with a loss before each, and one behind all losses.
#[test]
fn widest_window(rt: HostRuntime) -> Result<(), Fail> {
    fills_and_closes(&rt, rt.alloc(), NoCheck, 1)?;
    fills_and_closes(&rt, rt.alloc(), NoCheck, 2)?;
    fills_and_closes(&rt, rt.alloc(), NoCheck, 4096)
}

//! Flows that begin anew.
use crate::handing_in::{close, hand_in, hand_in_all, made};
use receiver::RestartError;
use std::test::Fail;
use worked_frames::samples::{FIRST, THIRD};
use worked_traces::traces::Line;

/// The first of three segments, and a grant for the third.
const BEFORE: [Line; 3] = [
    Line::Grant(0, 1, 1, 13),
    Line::Burst(0, 1, FIRST),
    Line::Grant(1, 1, 2, 13),
];

/// Between the first two segments of three the flow begins anew at 2: the frame that lay across is
/// dropped, and the third segment is the first of another part.
#[test]
fn a_flow_begins_anew(rt: HostRuntime) -> Result<(), Fail> {
    let (mut receiver, mut out) = made(rt.alloc())?;
    hand_in_all(rt.alloc(), &mut receiver, &BEFORE, &mut out)?;
    let counts = receiver.restart(rt.alloc(), 0, 2, &mut out)?;
    assert!(rt; counts.kept == 1);
    assert!(rt; receiver.expected(0) == Some(2));
    hand_in(
        rt.alloc(),
        &mut receiver,
        &Line::Burst(1, 1, THIRD),
        &mut out,
    )?;
    assert!(rt; receiver.expected(0) == Some(3));
    let closed = close(rt.alloc(), receiver, &mut out)?;
    let kept = closed.flows.first().map(|counts| counts.kept);
    assert!(rt; kept == Some(1));
    Ok(())
}

#[test]
fn a_restart_is_refused_by_name(rt: HostRuntime) -> Result<(), Fail> {
    let (mut receiver, mut out) = made(rt.alloc())?;
    let no_flow = receiver.restart(rt.alloc(), 1, 0, &mut out);
    assert!(rt; no_flow == Err(RestartError::NoFlow));
    let range = receiver.restart(rt.alloc(), 0, 8192, &mut out);
    assert!(rt; range == Err(RestartError::NumberRange));
    assert!(rt; receiver.expected(1).is_none());
    Ok(())
}

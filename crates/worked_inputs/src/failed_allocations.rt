//! Tests to be run with the Nth request for memory refused. Each says `refused` when a call was.
ghost use Rattle.std.specs.Prelude.{IfOk};
ghost use Rattle.receiver.specs.Receiving.{IsReceiving};

use crate::handing_in::{input, made};
use consumer::Collected;
use docsis_wire::{HeaderCheck, NoCheck};
use flow_core::FlowCounts;
use lane::Input;
use receiver::{Closed, DecideFault, FlowDecision, NotReady, Receiver, RestartError, TakeError};
use std::alloc::Global;
use std::process::Abort;
use std::test::Fail;
use worked_frames::refused::say_refused;
use worked_frames::samples::FIRST;
use worked_traces::traces::{FIRST_LOST, Line, SECOND_FIRST};

/// Makes the setup, a consumer and a receiver, and once more where memory was refused.
fn made_again(rt: &impl Print, alloc: Global) -> Result<(Receiver<NoCheck>, Collected), Fail>
    ensures { IfOk result (λ made. IsReceiving ⟦<NoCheck as HeaderCheck>⟧.accepts made.0) }
{
    if let Ok(first) = made(alloc) {
        return Ok(first);
    }
    say_refused(rt)?;
    Ok(made(alloc)?)
}

/// The input of a line, made once more where memory was refused.
fn input_again(
    rt: &impl Print,
    alloc: Global,
    line: &Line,
) -> Result<Option<(usize, Input)>, Fail> {
    if let Ok(first) = input(alloc, line) {
        return Ok(first);
    }
    say_refused(rt)?;
    Ok(input(alloc, line)?)
}

/// Takes an input. One that isn't taken is taken again, and its channel is as it was; one that is
/// left unfinished is gone on with.
fn take_again<C: HeaderCheck + Drop>(
    rt: &(impl Abort + Print),
    alloc: Global,
    receiver: &mut Receiver<C>,
    at: (usize, Input),
    out: &mut Collected,
) -> Result<(), Fail>
    requires { IsReceiving C.accepts receiver.old }
    ensures { IsReceiving C.accepts receiver.new }
{
    let (channel, input) = at;
    let outstanding = receiver.outstanding(channel);
    match receiver.take(alloc, channel, input, out) {
        Ok(_) => {}
        Err(TakeError::NoChannel(_)) => {
            return Err(Fail::new(format_args!("no channel")));
        }
        Err(TakeError::NotTaken(back, _)) => {
            say_refused(rt)?;
            assert!(rt; receiver.outstanding(channel) == outstanding);
            receiver.take(alloc, channel, back, out)?;
        }
        Err(TakeError::Unfinished { flow }) => {
            say_refused(rt)?;
            receiver.go_on(alloc, flow, out)?;
        }
    }
    Ok(())
}

/// Takes the inputs of all lines, each once more where it was refused memory.
fn take_all_again<C: HeaderCheck + Drop>(
    rt: &(impl Abort + Print),
    alloc: Global,
    receiver: &mut Receiver<C>,
    lines: &[Line],
    out: &mut Collected,
) -> Result<(), Fail>
    requires { IsReceiving C.accepts receiver.old }
    ensures { IsReceiving C.accepts receiver.new }
{
    for line in lines {
        if let Some(at) = input_again(rt, alloc, line)? {
            take_again(rt, alloc, receiver, at, out)?;
        }
    }
    Ok(())
}

/// Closes a receiver, and goes on with a close that was refused memory.
fn close_again<C: HeaderCheck + Drop>(
    rt: &impl Print,
    alloc: Global,
    receiver: Receiver<C>,
    out: &mut Collected,
) -> Result<Closed, Fail>
    requires { IsReceiving C.accepts receiver }
{
    let closing = match receiver.close(alloc, out) {
        Ok(closed) => return Ok(closed),
        Err(closing) => closing,
    };
    say_refused(rt)?;
    match closing.go_on(alloc, out) {
        Ok(closed) => Ok(closed),
        Err(_) => Err(Fail::new(format_args!("a second close was refused memory"))),
    }
}

#[test]
fn receiver_refused(rt: HostRuntime) -> Result<(), Fail> {
    let (mut receiver, mut out) = made_again(&rt, rt.alloc())?;
    take_all_again(&rt, rt.alloc(), &mut receiver, &SECOND_FIRST, &mut out)?;
    let closed = close_again(&rt, rt.alloc(), receiver, &mut out)?;
    let counts = closed
        .flows
        .first()
        .map(|counts| (counts.kept, counts.frames));
    assert!(rt; counts == Some((3, 2)));
    if !out.whole {
        return say_refused(&rt);
    }
    let frames = out.frames.first().map(|frames| frames.len());
    assert!(rt; frames == Some(2));
    Ok(())
}

/// A grant for the first segment, and its burst.
const FIRST_COMES: [Line; 2] = [Line::Grant(0, 7, 1, 13), Line::Burst(0, 7, FIRST)];

/// Looks that of a flow that is being closed a grant is taken, and a burst comes back.
fn expect_only_a_grant<C: HeaderCheck + Drop>(
    rt: &impl Abort,
    alloc: Global,
    receiver: &mut Receiver<C>,
    at: (usize, Input),
    out: &mut Collected,
) -> Result<(), Fail>
    requires { IsReceiving C.accepts receiver.old }
    ensures { IsReceiving C.accepts receiver.new }
{
    let (channel, input) = at;
    let is_grant = matches!(input, Input::Grant { .. });
    let taken = match receiver.take(alloc, channel, input, out) {
        Ok(_) => true,
        Err(TakeError::NotTaken(_, NotReady::Closing)) => false,
        Err(_) => return Err(Fail::new(format_args!("another fault"))),
    };
    assert!(rt; taken == is_grant);
    Ok(())
}

/// Hands in a grant and its burst to a flow that is being closed.
fn hand_in_to_closing<C: HeaderCheck + Drop>(
    rt: &impl Abort,
    alloc: Global,
    receiver: &mut Receiver<C>,
    out: &mut Collected,
) -> Result<(), Fail>
    requires { IsReceiving C.accepts receiver.old }
    ensures { IsReceiving C.accepts receiver.new }
{
    for line in &FIRST_COMES {
        if let Some(at) = input(alloc, line)? {
            expect_only_a_grant(rt, alloc, receiver, at, out)?;
        }
    }
    Ok(())
}

/// Looks that the flow is being closed: it is ready for nothing, and what isn't taken comes back.
fn expect_closing<C: HeaderCheck + Drop>(
    rt: &impl Abort,
    alloc: Global,
    receiver: &mut Receiver<C>,
    out: &mut Collected,
) -> Result<(), Fail>
    requires { IsReceiving C.accepts receiver.old }
    ensures { IsReceiving C.accepts receiver.new }
{
    let gone_on = receiver.go_on(alloc, 0, out);
    assert!(rt; gone_on == Err(NotReady::Closing));
    let decided = receiver.decide(alloc, 0, FlowDecision::Gap, out);
    let closing = Err(DecideFault::NotTaken(NotReady::Closing));
    assert!(rt; decided.map(|_| ()) == closing);
    hand_in_to_closing(rt, alloc, receiver, out)?;
    assert!(rt; receiver.outstanding(0) == Some(1));
    Ok(())
}

/// Restarts the flow at 5, and once more where memory was refused.
fn restart_again<C: HeaderCheck + Drop>(
    rt: &(impl Abort + Print),
    alloc: Global,
    receiver: &mut Receiver<C>,
    out: &mut Collected,
) -> Result<FlowCounts, Fail>
    requires { IsReceiving C.accepts receiver.old }
    ensures { IsReceiving C.accepts receiver.new }
{
    match receiver.restart(alloc, 0, 5, out) {
        Ok(counts) => return Ok(counts),
        Err(RestartError::OutOfMemory) => {}
        Err(_) => return Err(Fail::new(format_args!("another fault"))),
    }
    say_refused(rt)?;
    expect_closing(rt, alloc, receiver, out)?;
    Ok(receiver.restart(alloc, 0, 5, out)?)
}

#[test]
fn restart_refused(rt: HostRuntime) -> Result<(), Fail> {
    let (mut receiver, mut out) = made_again(&rt, rt.alloc())?;
    take_all_again(&rt, rt.alloc(), &mut receiver, &FIRST_LOST, &mut out)?;
    assert!(rt; receiver.held(0) == Some(2));
    let counts = restart_again(&rt, rt.alloc(), &mut receiver, &mut out)?;
    assert!(rt; counts.kept == 2);
    assert!(rt; counts.lost == 1);
    assert!(rt; receiver.expected(0) == Some(5));
    assert!(rt; receiver.held(0) == Some(0));
    Ok(())
}

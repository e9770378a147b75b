//! Each allocation is refused once. What was handed in is handed in again where it wasn't taken,
//! and what was begun is gone on with: then all is given, but for what the queue had no place for,
//! and that is told from then on.
ghost use Rattle.std.specs.Prelude.{IfOk};
ghost use Rattle.c_receiver.specs.Held.{IsInUse};

use super::{
    FIRST, FIRST_FRAME, REQUEST, SECOND, SECOND_FRAME, THIRD, expect_frame, expect_lent,
    expect_request, made, no_counts,
};
use c_receiver::{HeldReceiver, MakeFault, Status};
use std::alloc::Global;
use std::process::Abort;
use std::test::Fail;
use worked_frames::refused::{say_refused, say_whether_refused};

/// Whether a call that answers so is done. If not, it is to be made again.
fn is_done(rt: &impl Print, status: Status) -> Result<bool, Fail> {
    match status {
        Status::Done => Ok(true),
        Status::NotKept => {
            say_refused(rt)?;
            Ok(true)
        }
        Status::OutOfMemory => {
            say_refused(rt)?;
            Ok(false)
        }
        other => Err(Fail::new(format_args!("{other:?}"))),
    }
}

/// Fails where a call that was made again isn't done.
fn expect_done(rt: &impl Print, status: Status) -> Result<(), Fail> {
    if is_done(rt, status)? {
        return Ok(());
    }
    Err(Fail::new(format_args!("refused twice")))
}

/// A receiver, made once more where the first call was refused memory.
fn made_again(rt: &impl Print, alloc: Global) -> Result<HeldReceiver, Fail>
    ensures { IfOk result IsInUse }
{
    let mut answer = made(alloc);
    if let Err(fault) = &answer
        && fault.number() == MakeFault::OutOfMemory.number()
    {
        say_refused(rt)?;
        answer = made(alloc);
    }
    match answer {
        Ok(held) => Ok(held),
        Err(fault) => Err(Fail::new(format_args!("{fault:?}"))),
    }
}

/// Hands in a grant, again where it wasn't taken.
fn grant_again(rt: &impl Print, held: &mut HeldReceiver, channel: usize) -> Result<(), Fail>
    requires { IsInUse held.old }
    ensures { IsInUse held.new }
{
    if is_done(rt, held.grant(channel, 1, 17, 64))? {
        return Ok(());
    }
    expect_done(rt, held.grant(channel, 1, 17, 64))
}

/// Hands in a burst, again where it wasn't taken, and goes on with it where it was.
fn burst_again(
    rt: &impl Print,
    held: &mut HeldReceiver,
    channel: usize,
    bytes: &[u8],
) -> Result<(), Fail>
    requires { IsInUse held.old }
    ensures { IsInUse held.new }
{
    let status = held.burst(channel, 1, true, bytes);
    if status == Status::Unfinished {
        say_refused(rt)?;
        return expect_done(rt, held.go_on(0));
    }
    if is_done(rt, status)? {
        return Ok(());
    }
    expect_done(rt, held.burst(channel, 1, true, bytes))
}

/// Has the flow begin anew, again where it didn't, and compares what was counted of it.
fn restart_again(rt: &(impl Print + Abort), held: &mut HeldReceiver) -> Result<(), Fail>
    requires { IsInUse held.old }
    ensures { IsInUse held.new }
{
    let mut counts = no_counts();
    if !is_done(rt, held.restart(0, 5, &mut counts))? {
        expect_done(rt, held.restart(0, 5, &mut counts))?;
    }
    assert!(rt; counts.kept == 3);
    assert!(rt; counts.frames == 2);
    Ok(())
}

/// Closes the receiver, and goes on where the close was broken off.
fn close_again(rt: &impl Print, held: &mut HeldReceiver) -> Result<(), Fail>
    requires { IsInUse held.old }
    ensures { IsInUse held.new }
{
    if is_done(rt, held.close())? {
        return Ok(());
    }
    expect_done(rt, held.close())
}

#[test]
fn refused_calls_are_made_again(rt: HostRuntime) -> Result<(), Fail> {
    let alloc = rt.alloc();
    let mut held = made_again(&rt, alloc)?;
    grant_again(&rt, &mut held, 0)?;
    grant_again(&rt, &mut held, 1)?;
    grant_again(&rt, &mut held, 2)?;
    burst_again(&rt, &mut held, 2, &THIRD)?;
    burst_again(&rt, &mut held, 0, &FIRST)?;
    burst_again(&rt, &mut held, 1, &SECOND)?;
    restart_again(&rt, &mut held)?;
    if held.queue.whole {
        expect_request(&rt, &mut held);
        expect_lent(&rt, &mut held, &FIRST_FRAME);
        expect_frame(&rt, &mut held, &SECOND_FRAME);
        // It is kept until the next burst or frame.
        assert!(rt; held.lent_bytes() == SECOND_FRAME.as_slice());
        let waiting = held.waiting();
        assert!(rt; waiting.frames == 0);
        assert!(rt; waiting.requests == 0);
    } else {
        // Of two frames and a request one is missing, and that is told again.
        assert!(rt; held.queue.frames.len() + held.queue.requests.len() == 2);
        assert!(rt; held.go_on(0) == Status::NotKept);
    }
    close_again(&rt, &mut held)?;
    say_whether_refused(&rt, alloc)
}

//! Tests to be run with the Nth request for memory refused, and those whose names end in
//! `without_memory` with all later ones refused too. Each says `refused` when a call was.
ghost use Rattle.std.specs.Prelude.{IfOk};
ghost use Rattle.receiver.specs.Receiving.{IsReceiving};

use super::{CASES, HandedIn, expect_counted, expect_lane_counted, made_of, one_flow_receiver};
use crate::plain_count::{PlainCount, Step};
use consumer::Counts;
use docsis_wire::{HeaderCheck, NoCheck};
use receiver::{DecideFault, NotReady, Receiver, TakeError};
use std::alloc::Global;
use std::process::Abort;
use std::test::Fail;
use worked_frames::refused::{say_refused, say_whether_refused};

/// What became of a step.
#[derive(Drop)]
enum Became {
    /// All of it was taken.
    Taken,
    /// It was taken, and something of the flow is left to be done.
    Unfinished,
    /// It was refused memory, and is given back.
    GivenBack(HandedIn),
}

/// Takes what is handed in.
fn take<C: HeaderCheck + Drop>(
    alloc: Global,
    receiver: &mut Receiver<C>,
    one: HandedIn,
    out: &mut Counts,
) -> Result<Became, Fail>
    requires { IsReceiving C.accepts receiver.old }
    ensures { IsReceiving C.accepts receiver.new }
{
    match one {
        HandedIn::Input(input) => match receiver.take(alloc, 0, input, out) {
            Ok(_) => Ok(Became::Taken),
            Err(TakeError::NotTaken(back, NotReady::OutOfMemory)) => {
                Ok(Became::GivenBack(HandedIn::Input(back)))
            }
            Err(TakeError::Unfinished { flow: 0 }) => Ok(Became::Unfinished),
            Err(_) => Err(Fail::new(format_args!("another fault"))),
        },
        HandedIn::Decision(decision) => match receiver.decide(alloc, 0, decision, out) {
            Ok(_) => Ok(Became::Taken),
            Err(DecideFault::NotTaken(NotReady::OutOfMemory)) => {
                Ok(Became::GivenBack(HandedIn::Decision(decision)))
            }
            Err(DecideFault::Unfinished) => Ok(Became::Unfinished),
            Err(_) => Err(Fail::new(format_args!("another fault"))),
        },
    }
}

/// Makes a receiver, and once more where memory was refused.
fn receiver_again(rt: &impl Print, alloc: Global) -> Result<Receiver<NoCheck>, Fail>
    ensures { IfOk result (IsReceiving ⟦<NoCheck as HeaderCheck>⟧.accepts) }
{
    if let Ok(first) = one_flow_receiver(alloc) {
        return Ok(first);
    }
    say_refused(rt)?;
    Ok(one_flow_receiver(alloc)?)
}

/// Makes what a step hands in, and once more where memory was refused.
fn made_again(rt: &impl Print, alloc: Global, step: Step) -> Result<HandedIn, Fail> {
    if let Ok(first) = made_of(alloc, step) {
        return Ok(first);
    }
    say_refused(rt)?;
    Ok(made_of(alloc, step)?)
}

/// Takes a step. One that is given back has changed nothing that is said, and is taken again; what
/// one left to be done is done then.
fn take_again<C: HeaderCheck + Drop>(
    rt: &(impl Abort + Print),
    alloc: Global,
    receiver: &mut Receiver<C>,
    step: Step,
    plain: &mut PlainCount,
    out: &mut Counts,
) -> Result<(), Fail>
    requires { IsReceiving C.accepts receiver.old }
    ensures { IsReceiving C.accepts receiver.new }
{
    let one = made_again(rt, alloc, step)?;
    let mut became = take(alloc, receiver, one, out)?;
    if let Became::GivenBack(back) = became {
        say_refused(rt)?;
        expect_counted(rt, receiver, plain);
        became = take(alloc, receiver, back, out)?;
    }
    plain.count(step);
    if let Became::Unfinished = became {
        say_refused(rt)?;
        expect_lane_counted(rt, receiver, plain);
        receiver.go_on(alloc, 0, out)?;
    }
    expect_counted(rt, receiver, plain);
    Ok(())
}

/// Takes these steps, and looks after each.
fn take_all_again<C: HeaderCheck + Drop>(
    rt: &(impl Abort + Print),
    alloc: Global,
    receiver: &mut Receiver<C>,
    steps: &[Step],
) -> Result<(), Fail>
    requires { IsReceiving C.accepts receiver.old }
{
    let mut plain = PlainCount::none();
    let mut out = Counts::default();
    for step in steps {
        take_again(rt, alloc, receiver, *step, &mut plain, &mut out)?;
    }
    Ok(())
}

#[test]
fn looks_between_refused_takes(rt: HostRuntime) -> Result<(), Fail> {
    for steps in &CASES {
        let mut receiver = receiver_again(&rt, rt.alloc())?;
        take_all_again(&rt, rt.alloc(), &mut receiver, steps)?;
    }
    Ok(())
}

/// What these steps hand in, or nothing where memory is refused.
fn made_of_all(alloc: Global, steps: &[Step]) -> Option<Vec<HandedIn>> {
    let mut made = Vec::new(alloc);
    for step in steps {
        made.push(made_of(alloc, *step).ok()?).ok()?;
    }
    Some(made)
}

/// Takes a step, which is not counted where it is given back, and goes on with what is left to be
/// done. Of the channel all is said rightly, and of the flow once nothing is left.
fn take_once<C: HeaderCheck + Drop>(
    rt: &impl Abort,
    alloc: Global,
    receiver: &mut Receiver<C>,
    step: Step,
    one: HandedIn,
    plain: &mut PlainCount,
) -> Result<(), Fail>
    requires { IsReceiving C.accepts receiver.old }
    ensures { IsReceiving C.accepts receiver.new }
{
    let mut out = Counts::default();
    match take(alloc, receiver, one, &mut out)? {
        Became::Taken | Became::Unfinished => plain.count(step),
        Became::GivenBack(_) => {}
    }
    expect_lane_counted(rt, receiver, plain);
    if receiver.go_on(alloc, 0, &mut out).is_ok() {
        expect_counted(rt, receiver, plain);
    }
    Ok(())
}

/// Takes each step once, and looks after each.
fn take_all_once<C: HeaderCheck + Drop>(
    rt: &impl Abort,
    alloc: Global,
    receiver: &mut Receiver<C>,
    steps: &[Step],
    made: Vec<HandedIn>,
) -> Result<(), Fail>
    requires { IsReceiving C.accepts receiver.old }
{
    let mut plain = PlainCount::none();
    let mut all = made.into_iter();
    for step in steps {
        let Some(one) = all.next() else {
            return Err(Fail::new(format_args!("a step is left out")));
        };
        take_once(rt, alloc, receiver, *step, one, &mut plain)?;
    }
    Ok(())
}

/// Wherever memory runs out, what is said goes on to be right.
#[test]
fn looks_without_memory(rt: HostRuntime) -> Result<(), Fail> {
    for steps in &CASES {
        let Some(made) = made_of_all(rt.alloc(), steps) else {
            return say_refused(&rt);
        };
        let Ok(mut receiver) = one_flow_receiver(rt.alloc()) else {
            return say_refused(&rt);
        };
        take_all_once(&rt, rt.alloc(), &mut receiver, steps, made)?;
    }
    say_whether_refused(&rt, rt.alloc())
}

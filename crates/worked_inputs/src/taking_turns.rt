//! Two receivers that take their inputs in turn.
ghost use Rattle.std.specs.Prelude.{IfOk};
ghost use Rattle.receiver.specs.Receiving.{IsReceiving};

use crate::handing_in::{hand_in, made, state};
use consumer::Collected;
use docsis_wire::{HeaderCheck, NoCheck};
use receiver::{Receiver, SetupError};
use std::alloc::Global;
use std::process::Abort;
use std::test::Fail;
use worked_traces::traces::SECOND_FIRST;

/// A receiver with its consumer.
#[derive(Drop)]
struct Fed<C> {
    receiver: Receiver<C>,
    out: Collected,
}

fn begun(alloc: Global) -> Result<Fed<NoCheck>, SetupError>
    ensures { IfOk result (λ begun. IsReceiving ⟦<NoCheck as HeaderCheck>⟧.accepts begun.receiver) }
{
    let (receiver, out) = made(alloc)?;
    Ok(Fed { receiver, out })
}

/// Hands in each line to one and then to the other, and looks whether the other changed.
fn feed_in_turn<C: HeaderCheck + Drop>(
    rt: &impl Abort,
    alloc: Global,
    first: &mut Fed<C>,
    second: &mut Fed<C>,
) -> Result<(), Fail>
    requires first { IsReceiving C.accepts first.old.receiver }
    requires second { IsReceiving C.accepts second.old.receiver }
{
    for line in &SECOND_FIRST {
        let before = state(&second.receiver);
        hand_in(alloc, &mut first.receiver, line, &mut first.out)?;
        assert!(rt; state(&second.receiver) == before);
        let before = state(&first.receiver);
        hand_in(alloc, &mut second.receiver, line, &mut second.out)?;
        assert!(rt; state(&first.receiver) == before);
    }
    Ok(())
}

#[test]
fn receivers_in_turn_dont_touch_one_another(rt: HostRuntime) -> Result<(), Fail> {
    let mut first = begun(rt.alloc())?;
    let mut second = begun(rt.alloc())?;
    feed_in_turn(&rt, rt.alloc(), &mut first, &mut second)?;
    let frames = second.out.frames.first().map(|frames| frames.len());
    assert!(rt; frames == Some(2));
    Ok(())
}

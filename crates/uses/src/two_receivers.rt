//! Two receivers that take inputs in turn and don't touch one another.
ghost use Rattle.std.specs.Prelude.{IfOk, map};
ghost use Rattle.receiver.specs.Receiving.{IsReceiving};
ghost use Rattle.uses.specs.OneAtATime.{TakesInputs, ReceivesInputs};

use crate::one_at_a_time::{ListFault, close_one, take_one};
use consumer::Consumer;
use docsis_wire::HeaderCheck;
use receiver::{Closed, Receiver};
use std::alloc::Global;
use uplink::Input;

/// An input for each of the two, with its channel.
pub type Turn = ((usize, Input), (usize, Input));

/// In each turn the first receiver takes the one input, and the second the other.
fn take_in_turn<C: HeaderCheck + Drop, O: Consumer>(
    alloc: Global,
    first: &mut Receiver<C>,
    second: &mut Receiver<C>,
    turns: Vec<Turn>,
    first_out: &mut O,
    second_out: &mut O,
) -> Result<(), ListFault>
    requires first { IsReceiving C.accepts first.old }
    requires second { IsReceiving C.accepts second.old }
    ensures first { IfOk result (λ _. TakesInputs O.after C.accepts first.old first_out.old
        (map (λ turn. turn.0) turns.items) first.new first_out.new) }
    ensures second { IfOk result (λ _. TakesInputs O.after C.accepts second.old second_out.old
        (map (λ turn. turn.1) turns.items) second.new second_out.new) }
    ensures receiving { IsReceiving C.accepts first.new }
    ensures both { IsReceiving C.accepts second.new }
{
    for (one, other) in turns {
        take_one(alloc, first, one.0, one.1, first_out)?;
        take_one(alloc, second, other.0, other.1, second_out)?;
    }
    Ok(())
}

/// Takes the inputs of all turns, and closes both. Each receiver gives what it gives alone.
pub fn receive_in_turn<C: HeaderCheck + Drop, O: Consumer>(
    alloc: Global,
    mut first: Receiver<C>,
    mut second: Receiver<C>,
    turns: Vec<Turn>,
    first_out: &mut O,
    second_out: &mut O,
) -> Result<(Closed, Closed), ListFault>
    requires first { IsReceiving C.accepts first }
    requires second { IsReceiving C.accepts second }
    ensures first { IfOk result (λ closed. ReceivesInputs O.after C.accepts first first_out.old
        (map (λ turn. turn.0) turns.items) closed.0 first_out.new) }
    ensures second { IfOk result (λ closed. ReceivesInputs O.after C.accepts second
        second_out.old (map (λ turn. turn.1) turns.items) closed.1 second_out.new) }
{
    take_in_turn(alloc, &mut first, &mut second, turns, first_out, second_out)?;
    let closed = close_one(alloc, first, first_out)?;
    Ok((closed, close_one(alloc, second, second_out)?))
}

//! What an open receiver takes, with the queue as its consumer.
ghost use Rattle.std.specs.Prelude.{◌≡◌};
ghost use Rattle.receiver.specs.Receiving.{IsReceiving};
ghost use Rattle.c_receiver.specs.Held.{no_check, TakesInto, DecidesInto, GoesOnInto, RestartsInto};
ghost use Rattle.c_receiver.specs.Statuses.{of_take, of_decide, of_not_ready, of_restart_error};

use crate::plain::PlainCounts;
use crate::queue::Queue;
use crate::status::Status;
use docsis_wire::NoCheck;
use lane::Input;
use receiver::{
    DecideFault, DecisionReply, FlowDecision, NotReady, Receiver, Reply, RestartError,
    SegmentVerdict, TakeError,
};
use std::alloc::Global;

/// Takes an input that came on this channel.
pub fn take(
    receiver: &mut Receiver<NoCheck>,
    alloc: Global,
    channel: usize,
    input: Input,
    queue: &mut Queue,
) -> Status
    requires receiving { IsReceiving no_check receiver.old }
    ensures takes { TakesInto receiver.old queue.old channel input result
        receiver.new queue.new }
    ensures receiving { IsReceiving no_check receiver.new }
{
    let status = of_taken(&receiver.take(alloc, channel, input, queue));
    queue.told(status)
}

/// Takes a decision about a flow.
pub fn decide(
    receiver: &mut Receiver<NoCheck>,
    alloc: Global,
    flow: usize,
    decision: FlowDecision,
    queue: &mut Queue,
) -> Status
    requires receiving { IsReceiving no_check receiver.old }
    ensures decides { DecidesInto receiver.old queue.old flow decision result
        receiver.new queue.new }
    ensures receiving { IsReceiving no_check receiver.new }
{
    let status = of_decided(decision, receiver.decide(alloc, flow, decision, queue));
    queue.told(status)
}

/// Does what an earlier call left to be done of a flow.
pub fn go_on(
    receiver: &mut Receiver<NoCheck>,
    alloc: Global,
    flow: usize,
    queue: &mut Queue,
) -> Status
    requires receiving { IsReceiving no_check receiver.old }
    ensures goes_on { GoesOnInto receiver.old queue.old flow result receiver.new queue.new }
    ensures receiving { IsReceiving no_check receiver.new }
{
    let status = match receiver.go_on(alloc, flow, queue) {
        Ok(()) => Status::Done,
        Err(why) => of_refusal(why),
    };
    queue.told(status)
}

/// Closes a flow, which then begins anew at this number.
pub fn restart(
    receiver: &mut Receiver<NoCheck>,
    alloc: Global,
    flow: usize,
    first: u16,
    queue: &mut Queue,
    counts: &mut PlainCounts,
) -> Status
    requires receiving { IsReceiving no_check receiver.old }
    ensures restarts { RestartsInto receiver.old queue.old flow first counts.old result
        receiver.new queue.new counts.new }
    ensures receiving { IsReceiving no_check receiver.new }
{
    let status = match receiver.restart(alloc, flow, first, queue) {
        Ok(counted) => {
            *counts = PlainCounts::of(&counted);
            Status::Done
        }
        Err(error) => of_error(error),
    };
    queue.told(status)
}

/// The status for what was answered to an input.
fn of_taken(answer: &Result<Reply, TakeError>) -> Status
    ensures { result ≡ of_take answer.now }
{
    match answer {
        Ok(Reply::Granted) => Status::Done,
        Ok(Reply::Admitted { told, .. }) => match told.verdict {
            SegmentVerdict::Kept => Status::Done,
            SegmentVerdict::Late => Status::Late,
            SegmentVerdict::Repeat => Status::Repeat,
            SegmentVerdict::Beyond => Status::Beyond,
        },
        Ok(Reply::Refused(refusal)) => Status::Refused(*refusal),
        Err(TakeError::NoChannel(_)) => Status::NoChannel,
        Err(TakeError::NotTaken(_, why)) => of_refusal(*why),
        Err(TakeError::Unfinished { .. }) => Status::Unfinished,
    }
}

/// The status for what was answered to a decision.
fn of_decided(decision: FlowDecision, answer: Result<DecisionReply, DecideFault>) -> Status
    ensures { result ≡ of_decide decision answer }
{
    match answer {
        Ok(DecisionReply::Taken { .. }) => Status::Done,
        Ok(DecisionReply::PassedOver) => {
            if decision.is_in_range() {
                Status::NoFlow
            } else {
                Status::NumberRange
            }
        }
        Err(DecideFault::NotTaken(why)) => of_refusal(why),
        Err(DecideFault::Unfinished) => Status::Unfinished,
    }
}

/// The status for a flow that isn't ready.
fn of_refusal(why: NotReady) -> Status
    ensures { result ≡ of_not_ready why }
{
    match why {
        NotReady::OutOfMemory => Status::OutOfMemory,
        NotReady::Closing => Status::FlowClosing,
    }
}

/// The status for a flow that doesn't begin anew.
fn of_error(error: RestartError) -> Status
    ensures { result ≡ of_restart_error error }
{
    match error {
        RestartError::NoFlow => Status::NoFlow,
        RestartError::NumberRange => Status::NumberRange,
        RestartError::OutOfMemory => Status::OutOfMemory,
    }
}

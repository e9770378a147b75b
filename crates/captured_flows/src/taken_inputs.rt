//! Inputs are handed in of which it is known to which flow they come, or that they come to none.
ghost use Rattle.std.specs.Prelude.{◌≡◌, true, IfOk, OnErr};
ghost use Rattle.lane.specs.declared.input.Input.TheVariants.{Grant};
ghost use Rattle.selected_receiver.specs.Whole.{IsReceivingWhole, IsAtHand};
ghost use Rattle.selected_receiver.specs.Taking.{RepliesOfWhole, TakesSomeOfWhole};
ghost use Rattle.captured_flows.specs.Replied.{admits_nothing, admits_of};

use consumer::Consumer;
use docsis_wire::HeaderCheck;
use lane::Input;
use receiver::Reply;
use selected_receiver::{FlowFault, SelectedReceiver};
use std::alloc::Global;

/// Whether nothing is admitted.
fn admits_nothing(reply: &Reply) -> bool
    ensures { result ≡ admits_nothing reply.now }
{
    match reply {
        Reply::Admitted { .. } => false,
        _ => true,
    }
}

/// Whether what is admitted, if anything is, is of this flow.
fn admits_of(reply: &Reply, k: usize) -> bool
    ensures { result ≡ admits_of k reply.now }
{
    match reply {
        Reply::Admitted { flow, .. } => *flow == k,
        _ => true,
    }
}

/// An input is handed in of which nothing is to be admitted. If something is, that is a fault.
pub(crate) fn take_unadmitted<C: HeaderCheck + Drop, O: Consumer>(
    alloc: Global,
    receiver: &mut SelectedReceiver<C>,
    channel: usize,
    input: Input,
    out: &mut O,
) -> Result<Reply, FlowFault>
    requires at_hand { IsAtHand C.accepts receiver.old }
    ensures replies { IfOk result (λ reply. RepliesOfWhole C.accepts O.after receiver.old out.old
        channel input reply receiver.new out.new) }
    ensures admits { IfOk result (λ reply. admits_nothing reply ≡ true) }
    ensures at_hand { IfOk result (λ _. IsAtHand C.accepts receiver.new) }
    ensures fails { OnErr result
        (TakesSomeOfWhole C.accepts O.after receiver.old out.old receiver.new out.new) }
    ensures receiving { IsReceivingWhole C.accepts receiver.new }
{
    let reply = receiver.take(alloc, channel, input, out)?;
    if admits_nothing(&reply) {
        Ok(reply)
    } else {
        Err(FlowFault::NotThere)
    }
}

/// An input is handed in of which nothing is to be admitted but a segment of this flow. If another
/// flow's is, that is a fault.
pub(crate) fn take_of<C: HeaderCheck + Drop, O: Consumer>(
    alloc: Global,
    receiver: &mut SelectedReceiver<C>,
    channel: usize,
    flow: usize,
    input: Input,
    out: &mut O,
) -> Result<Reply, FlowFault>
    requires at_hand { IsAtHand C.accepts receiver.old }
    ensures replies { IfOk result (λ reply. RepliesOfWhole C.accepts O.after receiver.old out.old
        channel input reply receiver.new out.new) }
    ensures admits { IfOk result (λ reply. admits_of flow reply ≡ true) }
    ensures at_hand { IfOk result (λ _. IsAtHand C.accepts receiver.new) }
    ensures fails { OnErr result
        (TakesSomeOfWhole C.accepts O.after receiver.old out.old receiver.new out.new) }
    ensures receiving { IsReceivingWhole C.accepts receiver.new }
{
    let reply = receiver.take(alloc, channel, input, out)?;
    if admits_of(&reply, flow) {
        Ok(reply)
    } else {
        Err(FlowFault::NotThere)
    }
}

/// A grant of a service identifier is handed in, which the burst behind it spends at once: so one
/// number does for all grants.
pub(crate) fn take_grant<C: HeaderCheck + Drop, O: Consumer>(
    alloc: Global,
    receiver: &mut SelectedReceiver<C>,
    channel: usize,
    sid: u16,
    bytes: u32,
    out: &mut O,
) -> Result<Reply, FlowFault>
    requires at_hand { IsAtHand C.accepts receiver.old }
    ensures replies { IfOk result (λ reply. RepliesOfWhole C.accepts O.after receiver.old out.old
        channel (Grant 0 sid bytes) reply receiver.new out.new) }
    ensures admits { IfOk result (λ reply. admits_nothing reply ≡ true) }
    ensures at_hand { IfOk result (λ _. IsAtHand C.accepts receiver.new) }
    ensures fails { OnErr result
        (TakesSomeOfWhole C.accepts O.after receiver.old out.old receiver.new out.new) }
    ensures receiving { IsReceivingWhole C.accepts receiver.new }
{
    let grant = Input::Grant {
        number: 0,
        sid,
        bytes,
    };
    take_unadmitted(alloc, receiver, channel, grant, out)
}

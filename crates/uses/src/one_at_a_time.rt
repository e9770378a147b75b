//! A list of inputs that a receiver takes one at a time, with a consumer that collects and with one
//! that counts.
ghost use Rattle.std.specs.Prelude.{IfOk, [], ◌∷◌};
ghost use Rattle.receiver.specs.HandedIn.{made_of};
ghost use Rattle.receiver.specs.Received.{Closes};
ghost use Rattle.receiver.specs.Receiving.{IsReceiving};
ghost use Rattle.uses.specs.OneAtATime.{TakesInputs, ReceivesInputs};
ghost use Rattle.uses.specs.OneAtATime.{HasCollectedAnswer, HasCountedAnswer};

use consumer::{Collected, Consumer, Counts, laws};
use docsis_wire::HeaderCheck;
use loss_rule::LossRule;
use receiver::{Closed, Receiver, Setup, SetupError, TakeError, Width};
use std::alloc::{AllocError, Global};
use uplink::Input;

/// Why a list of inputs isn't received.
#[derive(Clone, Copy, Debug, PartialEq, Eq)]
pub enum ListFault {
    /// The setup has a fault.
    Setup(SetupError),
    /// An input is of a channel that isn't.
    NoChannel,
    /// An allocation failed.
    OutOfMemory,
}

impl From<SetupError> for ListFault {
    ghost use Rattle.std.specs.Prelude.{◌≡◌};
    ghost use Rattle.uses.specs.declared.one_at_a_time.ListFault.TheVariants.{Setup};

    ghost from_gives = { λ error fault. fault ≡ Setup error };

    fn from(error: SetupError) -> ListFault {
        ListFault::Setup(error)
    }
}

/// Takes an input that came on this channel.
pub(crate) fn take_one<C: HeaderCheck + Drop, O: Consumer>(
    alloc: Global,
    receiver: &mut Receiver<C>,
    channel: usize,
    input: Input,
    out: &mut O,
) -> Result<(), ListFault>
    requires { IsReceiving C.accepts receiver.old }
    ensures takes { IfOk result (λ _. TakesInputs O.after C.accepts receiver.old out.old
        ((channel, input) ∷ []) receiver.new out.new) }
    ensures receiving { IsReceiving C.accepts receiver.new }
{
    match receiver.take(alloc, channel, input, out) {
        Ok(_) => Ok(()),
        Err(TakeError::NoChannel(_)) => Err(ListFault::NoChannel),
        Err(_) => Err(ListFault::OutOfMemory),
    }
}

/// Closes a receiver.
pub(crate) fn close_one<C: HeaderCheck + Drop, O: Consumer>(
    alloc: Global,
    receiver: Receiver<C>,
    out: &mut O,
) -> Result<Closed, ListFault>
    requires { IsReceiving C.accepts receiver }
    ensures { IfOk result (λ closed.
        Closes O.after C.accepts receiver out.old closed out.new) }
{
    match receiver.close(alloc, out) {
        Ok(closed) => Ok(closed),
        Err(_) => Err(ListFault::OutOfMemory),
    }
}

/// Takes these inputs one after another, each with its channel.
fn take_all<C: HeaderCheck + Drop, O: Consumer>(
    alloc: Global,
    receiver: &mut Receiver<C>,
    inputs: Vec<(usize, Input)>,
    out: &mut O,
) -> Result<(), ListFault>
    requires { IsReceiving C.accepts receiver.old }
    ensures takes { IfOk result (λ _.
        TakesInputs O.after C.accepts receiver.old out.old inputs.items receiver.new out.new) }
    ensures receiving { IsReceiving C.accepts receiver.new }
{
    for (channel, input) in inputs {
        take_one(alloc, receiver, channel, input, out)?;
    }
    Ok(())
}

/// Takes these inputs, and closes.
pub fn receive_all<C: HeaderCheck + Drop, O: Consumer>(
    alloc: Global,
    mut receiver: Receiver<C>,
    inputs: Vec<(usize, Input)>,
    out: &mut O,
) -> Result<Closed, ListFault>
    requires { IsReceiving C.accepts receiver }
    ensures { IfOk result (λ closed.
        ReceivesInputs O.after C.accepts receiver out.old inputs.items closed out.new) }
{
    take_all(alloc, &mut receiver, inputs, out)?;
    close_one(alloc, receiver, out)
}

/// Collects what the inputs give.
pub fn collect_all<C: HeaderCheck + Drop>(
    alloc: Global,
    width: Width,
    setup: &Setup,
    rule: LossRule,
    check: C,
    inputs: Vec<(usize, Input)>,
) -> Result<(Closed, Collected), ListFault>
    ensures { IfOk result (λ collected. HasCollectedAnswer (C.accepts check)
        (made_of rule width.channels setup.now) inputs.items collected.0 collected.1) }
{
    laws::consumers_begin_with_nothing_given();
    laws::collected_has_what_was_given();
    let receiver = Receiver::new(alloc, width, setup, rule, check)?;
    let channels = usize::from(width.channels());
    let Ok(mut out) = Collected::new(alloc, setup.flows.len(), channels) else {
        return Err(ListFault::OutOfMemory);
    };
    let closed = receive_all(alloc, receiver, inputs, &mut out)?;
    Ok((closed, out))
}

/// Counts what the inputs give, and keeps nothing of it.
pub fn count_all<C: HeaderCheck + Drop>(
    alloc: Global,
    width: Width,
    setup: &Setup,
    rule: LossRule,
    check: C,
    inputs: Vec<(usize, Input)>,
) -> Result<(Closed, Counts), ListFault>
    ensures { IfOk result (λ counted. HasCountedAnswer (C.accepts check)
        (made_of rule width.channels setup.now) inputs.items counted.0 counted.1) }
{
    laws::consumers_begin_with_nothing_given();
    let receiver = Receiver::new(alloc, width, setup, rule, check)?;
    let mut out = Counts {
        frames: 0,
        bytes: 0,
        requests: 0,
    };
    let closed = receive_all(alloc, receiver, inputs, &mut out)?;
    Ok((closed, out))
}

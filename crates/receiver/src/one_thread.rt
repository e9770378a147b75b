//! A receiver on one thread, for inputs that were recorded.
ghost use Rattle.std.specs.Prelude.{◌≡◌, IfOk, IfErr, Err};
ghost use Rattle.receiver.specs.declared.one_thread.ReplayFault.{ReplayFault};
ghost use Rattle.receiver.specs.Items.{incoming_of};
ghost use Rattle.receiver.specs.Order.{IsLawfulOrder};
ghost use Rattle.receiver.specs.Outcome.{IsOutcome};
ghost use Rattle.receiver.specs.Ruled.{IsOutcomeBy};
ghost use Rattle.receiver.specs.AdmittedOrder.{IsAdmittedOrder, input_counts};
ghost use Rattle.receiver.specs.Faults.{CanReceive};
ghost use Rattle.receiver.specs.Faults.{IsReplayFault, IsTagsFault};

use crate::laws;
use crate::order::check_order;
use crate::outcome::Outcome;
use crate::playing::Playing;
use crate::setup::{BadSetup, Lists, Setup};
use docsis_wire::{HeaderCheck, NoCheck};
use flow_core::SetupFault;
use lane::LaneFault;
use loss_rule::LossRule;
use std::alloc::{AllocError, Global};
use thiserror::Error;

/// Why nothing is replayed. The first of these is reported; a replay may report that an allocation
/// failed in place of a bad order.
#[derive(Clone, Copy, Debug, PartialEq, Eq, Error)]
pub enum ReplayFault {
    /// The flows can't be set up. It is never `SetupFault::OutOfMemory`.
    #[error(transparent)]
    Setup(SetupFault),
    /// The lanes can't be opened. It is never `LaneFault::OutOfMemory`.
    #[error(transparent)]
    Lane(LaneFault),
    /// This place of the order names no sender, or one whose list is used up; or it is the order's
    /// length, and items are left over.
    #[error("place {0} of the order is bad")]
    BadOrder(usize),
    /// An allocation failed.
    #[error("out of memory")]
    OutOfMemory,
}

impl From<AllocError> for ReplayFault {
    ghost use Rattle.std.specs.Prelude.{◌≡◌};
    ghost use Rattle.receiver.specs.declared.one_thread.ReplayFault.TheVariants.{OutOfMemory};

    ghost from_gives = { λ _ fault. fault ≡ OutOfMemory };

    fn from(_: AllocError) -> ReplayFault {
        ReplayFault::OutOfMemory
    }
}

impl From<BadSetup> for ReplayFault {
    ghost use Rattle.std.specs.Prelude.{◌≡◌};
    ghost use Rattle.receiver.specs.Faults.{replay_fault_of};

    ghost from_gives = { λ bad fault. fault ≡ replay_fault_of bad };

    fn from(bad: BadSetup) -> ReplayFault {
        match bad {
            BadSetup::Flows(fault) => ReplayFault::Setup(fault),
            BadSetup::Rows(fault) => ReplayFault::Lane(fault),
        }
    }
}

/// The admitted order: of tags that name the sender of each input and decision, 0 to 3 for the
/// channels and 4 for decisions, those of admitted bursts and of decisions that name a flow. It
/// replays them; [`replay_tags_by`] gives the order with what a replay gives.
///
/// `Setup` and `Lane`: the first fault of the setup. `BadOrder`: it has none, and this place of the
/// tags is their fault, as [`check_order`](crate::check_order) says of the numbers of inputs and
/// decisions. `OutOfMemory`: an allocation failed.
pub fn admitted_order(
    alloc: Global,
    setup: &Setup,
    lists: &Lists,
    tags: &[u8],
) -> Result<Vec<u8>, ReplayFault>
    ensures order { IfOk result (λ order.
        IsAdmittedOrder setup.now (incoming_of lists.now) tags.now order.items) }
    ensures can_receive { IfOk result (λ _. CanReceive setup.now) }
    ensures fault { IfErr result (IsTagsFault setup.now (incoming_of lists.now) tags.now) }
    ensures memory { result ≡ Err ReplayFault.OutOfMemory
        → IsLawfulOrder (input_counts (incoming_of lists.now)) tags.now }
{
    Ok(replay_tags_by(LossRule::Decided, alloc, setup, lists, tags, NoCheck)?.order)
}

/// Replays all inputs and decisions in the order of these tags, which name the sender of each, 0 to
/// 3 for the channels and 4 for decisions: it gives what [`replay_by`] gives in the admitted order,
/// in one pass.
///
/// `Setup` and `Lane`: the first fault of the setup. `BadOrder`: it has none, and this place of the
/// tags is their fault, as [`check_order`](crate::check_order) says of the numbers of inputs and
/// decisions. `OutOfMemory`: an allocation failed.
pub fn replay_tags_by<C: HeaderCheck + Drop>(
    rule: LossRule,
    alloc: Global,
    setup: &Setup,
    lists: &Lists,
    tags: &[u8],
    check: C,
) -> Result<Outcome, ReplayFault>
    ensures order { IfOk result (λ outcome. IsAdmittedOrder setup.now (incoming_of lists.now)
        tags.now outcome.order.items) }
    ensures outcome { IfOk result (λ outcome. IsOutcomeBy rule (C.accepts check) setup.now
        (incoming_of lists.now) outcome.order.items outcome) }
    ensures can_receive { IfOk result (λ _. CanReceive setup.now) }
    ensures fault { IfErr result (IsTagsFault setup.now (incoming_of lists.now) tags.now) }
    ensures memory { result ≡ Err ReplayFault.OutOfMemory
        → IsLawfulOrder (input_counts (incoming_of lists.now)) tags.now }
{
    setup.check()?;
    if let Err(place) = check_order(input_counts(lists), tags) {
        return Err(ReplayFault::BadOrder(place));
    }
    let mut playing = Playing::new(alloc, rule, setup, check)?;
    let order = playing.take_by_tags(alloc, lists, tags)?;
    Ok(playing.finish(alloc, setup, order)?)
}

/// How many inputs each channel has, and how many decisions there are.
fn input_counts(lists: &Lists) -> [usize; 5]
    ensures { result ≡ input_counts (incoming_of lists.now) }
{
    let [i0, i1, i2, i3] = &lists.inputs;
    [
        i0.len(),
        i1.len(),
        i2.len(),
        i3.len(),
        lists.decisions.len(),
    ]
}

/// Replays the inputs of all channels and the decisions on the caller's thread: it takes the
/// segments that each channel admits and the decisions that name a flow in this order, 0 to 3 for
/// the channels and 4 for decisions, drains a flow after each, and then closes each flow.
///
/// `Setup` and `Lane`: the first fault of the setup. `BadOrder`: it has none, and this place of the
/// order is its fault, as [`check_order`](crate::check_order) says of what the channels admit and
/// the decisions that name a flow. `OutOfMemory`: an allocation failed. The capacity of the
/// mailboxes isn't looked at.
pub fn replay<C: HeaderCheck + Drop>(
    alloc: Global,
    setup: &Setup,
    lists: &Lists,
    order: &[u8],
    check: C,
) -> Result<Outcome, ReplayFault>
    ensures outcome { IfOk result (IsOutcome (C.accepts check) setup.now
        (incoming_of lists.now) order.now) }
    ensures can_receive { IfOk result (λ _. CanReceive setup.now) }
    ensures fault { IfErr result (IsReplayFault setup.now (incoming_of lists.now) order.now) }
{
    laws::replay_by_decisions_alone_is_a_replay();
    replay_by(LossRule::Decided, alloc, setup, lists, order, check)
}

/// Replays as [`replay`] does, and decides besides by this rule which segments are lost: before a
/// segment is taken, what the rule says is lost is skipped. What each flow then gives is said by
/// the law [`flows_give_the_frames_that_all_came`](laws::flows_give_the_frames_that_all_came).
pub fn replay_by<C: HeaderCheck + Drop>(
    rule: LossRule,
    alloc: Global,
    setup: &Setup,
    lists: &Lists,
    order: &[u8],
    check: C,
) -> Result<Outcome, ReplayFault>
    ensures outcome { IfOk result (IsOutcomeBy rule (C.accepts check) setup.now
        (incoming_of lists.now) order.now) }
    ensures can_receive { IfOk result (λ _. CanReceive setup.now) }
    ensures fault { IfErr result (IsReplayFault setup.now (incoming_of lists.now) order.now) }
{
    setup.check()?;
    let mut playing = Playing::new(alloc, rule, setup, check)?;
    let bad = playing.take_in_order(alloc, lists, order)?;
    let left_over = playing.take_rest(alloc, lists)?;
    if let Some(place) = bad {
        return Err(ReplayFault::BadOrder(place));
    }
    if left_over {
        return Err(ReplayFault::BadOrder(order.len()));
    }
    Ok(playing.finish(alloc, setup, Vec::from_slice(alloc, order)?)?)
}

//! Recorded inputs of four channels, received without decisions: a rule says which segments are
//! lost.
ghost use Rattle.std.specs.Prelude.{[], IfOk, IfErr, map};
ghost use Rattle.receiver.specs.Faults.{IsTagsFault};
ghost use Rattle.receiver.specs.Items.{incoming_from};
ghost use Rattle.loss_rule.specs.declared.rule.LossRule.{LossRule};
ghost use Rattle.uses.specs.LossesByRule.{AreFlowsBy, GaveTheFramesThatAllCame};

use docsis_wire::HeaderCheck;
use std::alloc::Global;
use uplink::{
    CHANNELS, FlowOutcome, Input, Lists, LossRule, ReplayFault, Setup, admitted_order, laws,
    replay_by,
};

/// Replays what was recorded on four channels, where `tags` has the channel of each input, 0 to 3,
/// in the order in which they came, and answers what each flow gave. No flow waits for a decision:
/// what every channel has passed is lost, and each window slides. `Setup` and `Lane`: the first
/// fault of the setup. `BadOrder`: it has none, and this place of the tags is their fault.
/// `OutOfMemory`: an allocation failed.
pub fn receive_without_waiting<C: HeaderCheck + Drop>(
    alloc: Global,
    setup: &Setup,
    inputs: [Vec<Input>; CHANNELS],
    tags: &[u8],
    check: C,
) -> Result<Vec<FlowOutcome>, ReplayFault>
    ensures by_rule { IfOk result (λ flows. AreFlowsBy LossRule.PassedOrSlid (C.accepts check)
        setup.now (incoming_from (map (λ recorded. recorded.items) inputs) []) tags.now
        flows.items) }
    ensures gave { IfOk result (λ flows. GaveTheFramesThatAllCame (C.accepts check) setup.now
        (incoming_from (map (λ recorded. recorded.items) inputs) []) tags.now flows.items) }
    ensures fault { IfErr result (IsTagsFault setup.now
        (incoming_from (map (λ recorded. recorded.items) inputs) []) tags.now) }
{
    laws::admitted_order_is_lawful();
    laws::segments_come_on_channels_of_their_flow();
    laws::flows_give_the_frames_that_all_came();
    loss_rule::laws::decisions_about_the_past_are_safe();
    let lists = Lists {
        inputs,
        decisions: Vec::new(alloc),
    };
    let order = admitted_order(alloc, setup, &lists, tags)?;
    let outcome = replay_by(LossRule::PassedOrSlid, alloc, setup, &lists, &order, check)?;
    Ok(outcome.flows)
}

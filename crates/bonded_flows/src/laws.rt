//! Laws about what a bonded flow is told and what it gives.
//!
//! Each function states a law in its contract; its body is empty or only calls other laws.
ghost use Rattle.std.specs.Prelude.{◌≡◌, ◌≢◌, ◌≤◌, ◌++◌, ℕ, Bool, List, map, replicate};
ghost use Rattle.docsis_wire.specs.declared.segment.Segment.{Segment};
ghost use Rattle.docsis_wire.specs.Cut.{IsLawfulCut};
ghost use Rattle.ccf.specs.Filter.{FiltersTo};
ghost use Rattle.reorder.specs.Limits.{width_max};
ghost use Rattle.flow_core.specs.declared.counts.FlowCounts.{FlowCounts};
ghost use Rattle.flow_core.specs.Events.{FlowEvent, gap};
ghost use Rattle.flow_core.specs.Closing.{IsClosed};
ghost use Rattle.flow_core.specs.Outcome.{IsFlowOutcome};
ghost use Rattle.loss_rule.specs.declared.rule.LossRule.{LossRule};
ghost use Rattle.loss_rule.specs.Rule.{Coming, own_event};
ghost use Rattle.loss_rule.specs.InOrder.{AreInChannelOrder, FallIntoTheWindow, DecideSafely};
ghost use Rattle.loss_rule.specs.InOrder.{IsAllCome};
ghost use Rattle.bonded_flows.specs.declared.told.Told.{Told};
ghost use Rattle.bonded_flows.specs.FlowSetup.{FlowSetup, ruled_flow};
ghost use Rattle.bonded_flows.specs.ByRule.{IsTold, IsToldLost, HasGivenByRule, GaveByRule};

/// What came to a flow has one answer: what is told of a segment or a decision that comes next is
/// one thing, and what the flow gives by the rule is one list of frames and one record of counts,
/// before its close and at it.
pub fn what_came_to_a_flow_has_one_answer()
    ensures told { (setup : FlowSetup) (comings : List Coming) (channel : ℕ) (segment : Segment)
        (told other : Told)
        → IsTold setup comings channel segment told → IsTold setup comings channel segment other
        → told ≡ other }
    ensures lost { (setup : FlowSetup) (comings : List Coming) (event : FlowEvent)
        (lost other : Bool)
        → IsToldLost setup comings event lost → IsToldLost setup comings event other
        → lost ≡ other }
    ensures given { (check : List ℕ → Bool) (setup : FlowSetup) (comings : List Coming)
        (frames others : List (List ℕ)) (counts more : FlowCounts)
        → HasGivenByRule check setup comings frames counts
        → HasGivenByRule check setup comings others more
        → (frames ≡ others) × (counts ≡ more) }
    ensures gave { (check : List ℕ → Bool) (setup : FlowSetup) (comings : List Coming)
        (frames others : List (List ℕ)) (counts more : FlowCounts)
        → GaveByRule check setup comings frames counts
        → GaveByRule check setup comings others more
        → (frames ≡ others) × (counts ≡ more) }
{
    flow_core::laws::flow_has_at_most_one_outcome();
    flow_core::laws::closed_flow_has_one_outcome();
}

/// **What a bonded flow gave, of all that came to it.** For every modem's frames, every lawful cut
/// of them and every list of comings in channel order that fall into the window, with safe
/// decisions: a flow that was closed gave exactly the modem's frames of which each segment came, in
/// the modem's order.
pub fn bonded_flow_gives_the_frames_that_all_came()
    ensures { (check : List ℕ → Bool) (frames chunks : List (List ℕ)) (fill : ℕ)
        (segments : List Segment) (setup : FlowSetup) (comings : List Coming) (index_at : ℕ → ℕ)
        (gave : List (List ℕ)) (counts : FlowCounts)
        → setup.rule ≢ LossRule.Decided → setup.flow_record.window ≤ width_max
        → IsLawfulCut check frames setup.flow_record.first fill chunks segments
        → AreInChannelOrder (ruled_flow setup) segments comings index_at
        → FallIntoTheWindow setup.rule (ruled_flow setup) comings index_at
        → DecideSafely setup.rule (ruled_flow setup) comings index_at
        → GaveByRule check setup comings gave counts
        → FiltersTo (IsAllCome frames chunks comings index_at) frames gave }
{
    loss_rule::laws::closed_flow_gives_the_frames_that_all_came();
}

/// Where decisions alone decide, a flow that was closed gave what just what came makes it give,
/// segment for segment and decision for decision, with gaps after it until nothing is lost by one.
pub fn by_decisions_alone_a_flow_gives_what_came()
    ensures { (check : List ℕ → Bool) (setup : FlowSetup) (comings : List Coming)
        (gave : List (List ℕ)) (counts : FlowCounts)
        → setup.rule ≡ LossRule.Decided → GaveByRule check setup comings gave counts
        → (n : ℕ) × (outcome : IsFlowOutcome check setup.flow_record
        (map own_event comings ++ replicate n gap) gave counts) × IsClosed outcome.fates }
{}

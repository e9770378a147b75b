//! The law of the headline: what consumers take is the delivery sequence. The laws of lanes and of
//! the receiver on one thread stand beside it.
//!
//! Each function states a law in its contract; its body is empty or only calls other laws.
ghost use Rattle.std.specs.Prelude.{◌≡◌, ℕ, ◌+◌, Bool, Option};
ghost use Rattle.std.specs.Prelude.{List, ◌++◌};
ghost use Rattle.docsis_wire.specs.declared.segment.Segment.{Segment};
ghost use Rattle.docsis_wire.specs.Cut.{IsLawfulCut};
ghost use Rattle.delivery.specs.declared.feeder.ClosedFeeder.{ClosedFeeder};
ghost use Rattle.delivery.specs.declared.taker.Taker.{Taker};
ghost use Rattle.delivery.specs.Feeders.{closed_offered};
ghost use Rattle.delivery.specs.Left.{IsLeft};
ghost use Rattle.delivery.specs.Takers.{taken};
ghost use Rattle.flow_core.specs.declared.counts.FlowCounts.{FlowCounts};
ghost use Rattle.flow_core.specs.declared.event.Applied.{Applied};
ghost use Rattle.flow_records.specs.declared.record.FlowRecord.{FlowRecord};
ghost use Rattle.flow_core.specs.Delivery.{IsDeliverySequence};
ghost use Rattle.flow_core.specs.Events.{FlowEvent, IsAfter};
ghost use Rattle.flow_core.specs.Fates.{Fates};
ghost use Rattle.flow_core.specs.Near.{AreNear};
ghost use Rattle.flow_core.specs.declared.flow.Flow.{Flow};
ghost use Rattle.flow_core.specs.Outcome.{IsFlowOutcome};
ghost use Rattle.flow_core.specs.Stands.{StandsFor};
ghost use Rattle.loss_rule.specs.declared.rule.LossRule.{LossRule};
ghost use Rattle.loss_rule.specs.Rule.{Coming, Lasts, AreRuled};
ghost use Rattle.bonded_flows.specs.declared.flow_slot.FlowSlot.{FlowSlot};
ghost use Rattle.bonded_flows.specs.FlowSetup.{FlowSetup, ruled_flow};
ghost use Rattle.bonded_flows.specs.ByRule.{GaveByRule};
ghost use Rattle.bonded_flows.specs.Slots.{PartStands};
ghost use Rattle.consumer.specs.declared.given.Given.{Given};
ghost use Rattle.receiver.specs.declared.tally.LaneTally.{LaneTally};
ghost use Rattle.receiver.specs.Tallies.{IsTallyOf};
ghost use Rattle.uplink.specs.Headline.{KeepsTheHeadline, KeepsTheHeadlineBy, TookAFront};
ghost use Rattle.uplink.specs.Received.{IsAnswerBy, GivesTheHeadline};
ghost use Rattle.receiver.specs.declared.setup.Setup.{Setup};
ghost use Rattle.receiver.specs.declared.outcome.Outcome.{Outcome};
ghost use Rattle.receiver.specs.Items.{Incoming};
ghost use Rattle.receiver.specs.Outcome.{IsOutcome};
ghost use Rattle.receiver.specs.Ruled.{IsOutcomeBy};

pub use lane::laws::{
    each_input_has_an_answer, lane_has_at_most_one_answer_to_each_input,
    lanes_of_the_same_inputs_answer_alike, next_input_changes_what_is_outstanding,
    next_input_is_answered, number_has_one_outstanding_grant, outstanding_numbers_are_counted,
    reports_are_appended, rows_have_one_first_fault,
};
pub use receiver::laws::{
    admitted_order_is_lawful, admitted_segments_are_of_the_flows,
    flows_give_the_frames_that_all_came, lawful_order_has_no_fault, lists_have_one_merge,
    order_has_one_intake, replay_by_decisions_alone_is_a_replay, replay_has_one_fault,
    replay_has_one_outcome, segments_come_on_channels_of_their_flow,
    segments_in_turn_come_from_a_modem,
};

/// **The headline.** Whatever the channels interleave, delay or lose and whenever gaps are
/// declared: for the outcome of a receiver, from [`run`](crate::run) or from
/// [`replay`](crate::replay), what each flow's consumer took is the flow's delivery sequence, if
/// the segments of the flow are those of one lawful cut of a modem's frames and its events, in the
/// order in which the receiver took the items, are near. At an earlier moment it is a prefix:
/// where a feeder was offered whatever part of what a flow gave for the events so far, in order,
/// and is then closed, what its taker has taken is a prefix of the delivery sequence after those
/// events and any more; the flow may be drained (`prefix`) or not yet (`prefix_before_drained`).
/// The order is a lawful one of all that is admitted and all decisions that name a flow, and the
/// scheduler gets the request of each admitted segment once, in its channel's order. The same holds
/// by a loss rule (`by_rule`) of the events that the rule makes of what comes to a flow, and of
/// what [`receive`](crate::receive) gives as it runs (`given`). That events
/// stay near with the gaps of a close is
/// [`gaps_after_keep_events_near`](flow_core::laws::gaps_after_keep_events_near).
pub fn consumers_take_the_delivery_sequence()
    ensures headline { (check : List ℕ → Bool) (setup : Setup) (incoming : Incoming)
        (order : List ℕ) (outcome : Outcome)
        → IsOutcome check setup incoming order outcome
        → KeepsTheHeadline check setup incoming order outcome }
    ensures by_rule { (rule : LossRule) (check : List ℕ → Bool) (setup : Setup)
        (incoming : Incoming) (order : List ℕ) (outcome : Outcome)
        → IsOutcomeBy rule check setup incoming order outcome
        → KeepsTheHeadlineBy rule check setup incoming order outcome }
    ensures given { (channels : ℕ) (rule : LossRule) (check : List ℕ → Bool) (setup : Setup)
        (incoming : Incoming) (order : List ℕ) (frames requests : List Given)
        (counts : List FlowCounts) (tallies : ℕ → Option LaneTally)
        → IsAnswerBy IsTallyOf channels rule check setup incoming order frames requests counts
        tallies
        → GivesTheHeadline channels rule check setup incoming order frames requests }
    ensures prefix { (check : List ℕ → Bool) (fill : ℕ) (flow_record : FlowRecord)
        (frames chunks given unoffered later : List (List ℕ)) (segments : List Segment)
        (events more : List FlowEvent) (counts : FlowCounts) (answers : List Applied)
        (fates : Fates) (feeder : ClosedFeeder) (taker : Taker) (left : ℕ)
        → IsLawfulCut check frames flow_record.first fill chunks segments
        → AreNear flow_record.first flow_record.window segments events
        → IsFlowOutcome check flow_record events given counts
        → given ≡ closed_offered feeder ++ unoffered
        → IsLeft (closed_offered feeder) (taken taker) left
        → IsAfter flow_record.first flow_record.window (events ++ more) answers fates
        → IsDeliverySequence frames chunks fates later
        → (rest : List (List ℕ)) × (later ≡ taken taker ++ rest) }
    ensures prefix_before_drained { (check : List ℕ → Bool) (fill : ℕ) (flow_record : FlowRecord)
        (frames chunks given unoffered later : List (List ℕ)) (segments : List Segment)
        (flow : Flow) (events more : List FlowEvent) (before answers : List Applied) (y : ℕ)
        (fates : Fates) (feeder : ClosedFeeder) (taker : Taker) (left : ℕ)
        → IsLawfulCut check frames flow_record.first fill chunks segments
        → AreNear flow_record.first flow_record.window segments events
        → StandsFor check flow_record flow events before y given
        → given ≡ closed_offered feeder ++ unoffered
        → IsLeft (closed_offered feeder) (taken taker) left
        → IsAfter flow_record.first flow_record.window (events ++ more) answers fates
        → IsDeliverySequence frames chunks fates later
        → (rest : List (List ℕ)) × (later ≡ taken taker ++ rest) }
{
    flow_core::laws::closed_flow_gives_the_frames_that_were_all_kept();
    flow_core::laws::closed_flow_has_come_past_all_kept();
    flow_core::laws::outcome_of_near_events_is_the_delivery_sequence();
    flow_core::laws::flow_gives_the_delivery_sequence();
    flow_core::laws::delivery_sequence_only_grows();
    loss_rule::laws::ruled_events_are_one();
}

/// **What a flow has given comes first in its delivery sequence,** at any moment, whatever failed:
/// if the flow's segments are those of one lawful cut of a modem's frames and the events that by
/// the rule come of all that came to it are near. So it is of a flow that stands for what came to
/// it since it was begun (`under_way`), and of one that was closed (`closed`).
pub fn flows_have_given_what_comes_first()
    ensures under_way { (check : List ℕ → Bool) (setup : FlowSetup) (slot : FlowSlot)
        (comings : List Coming) (given frames chunks : List (List ℕ)) (fill : ℕ)
        (segments : List Segment) (events : List FlowEvent) (lasts : Lasts) (fates : Fates)
        → PartStands check setup slot comings given
        → AreRuled setup.rule (ruled_flow setup) comings events lasts fates
        → IsLawfulCut check frames setup.flow_record.first fill chunks segments
        → AreNear setup.flow_record.first setup.flow_record.window segments events
        → TookAFront frames chunks setup.flow_record events given }
    ensures closed { (check : List ℕ → Bool) (setup : FlowSetup) (comings : List Coming)
        (given frames chunks : List (List ℕ)) (counts : FlowCounts) (fill : ℕ)
        (segments : List Segment) (events : List FlowEvent) (lasts : Lasts) (fates : Fates)
        → GaveByRule check setup comings given counts
        → AreRuled setup.rule (ruled_flow setup) comings events lasts fates
        → IsLawfulCut check frames setup.flow_record.first fill chunks segments
        → AreNear setup.flow_record.first setup.flow_record.window segments events
        → TookAFront frames chunks setup.flow_record events given }
{
    flow_core::laws::flow_gives_the_delivery_sequence();
    flow_core::laws::outcome_of_near_events_is_the_delivery_sequence();
    flow_core::laws::decisions_about_an_empty_flow_change_nothing();
    flow_core::laws::gaps_after_keep_events_near();
    loss_rule::laws::ruled_events_are_one();
}

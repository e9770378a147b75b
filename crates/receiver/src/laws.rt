//! Laws about the definitions: what is admitted are items of the flows, lists have at most one
//! merge in an order, the admitted order is lawful, a replay has at most one outcome and one fault,
//! what a flow gives by a loss rule are the modem's frames all of whose segments came in, and what
//! it holds was kept and isn't joined yet.
//!
//! Each function states a law in its contract; its body is empty or only calls other laws.
ghost use Rattle.std.specs.Prelude.{◌≡◌, ◌≢◌, ◌↔◌, ℕ, ◌+◌, ◌<◌, ◌≤◌, Bool, Some};
ghost use Rattle.std.specs.Prelude.{List, [], length, map, filter, slice_get, All};
ghost use Rattle.std.specs.Prelude.{count_by, is_some};
ghost use Rattle.docsis_wire.specs.declared.segment.Segment.{Segment};
ghost use Rattle.docsis_wire.specs.Cut.{IsLawfulCut};
ghost use Rattle.ccf.specs.Filter.{FiltersTo};
ghost use Rattle.flow_records.specs.declared.record.FlowRecord.{FlowRecord};
ghost use Rattle.flow_records.specs.Counted.{counted};
ghost use Rattle.flow_records.specs.declared.event.Event.{Event};
ghost use Rattle.receiver.specs.declared.setup.Setup.{Setup};
ghost use Rattle.receiver.specs.Order.{IsLawfulOrder, IsOrderFault, IsMergeOf, lengths_of, picked};
ghost use Rattle.receiver.specs.declared.outcome.Outcome.{Outcome};
ghost use Rattle.receiver.specs.declared.one_thread.ReplayFault.{ReplayFault};
ghost use Rattle.receiver.specs.declared.outcome.FlowOutcome.{FlowOutcome};
ghost use Rattle.receiver.specs.Items.{Incoming, IsItem, items_of};
ghost use Rattle.lane.specs.Report.{event_of_admitted};
ghost use Rattle.receiver.specs.Items.{events_at};
ghost use Rattle.flow_records.specs.Decisions.{event_of_decision, names_a_flow};
ghost use Rattle.receiver.specs.AdmittedOrder.{IsAdmittedOrder};
ghost use Rattle.receiver.specs.Faults.{CanReceive, HasBadOrder};
ghost use Rattle.receiver.specs.Intake.{IsIntake};
ghost use Rattle.receiver.specs.Outcome.{IsOutcome};
ghost use Rattle.receiver.specs.Ruled.{ruled_flow, comings_at, IsOutcomeBy};
ghost use Rattle.receiver.specs.Channels.{HasRow, segments_on, segments_of_flow};
ghost use Rattle.receiver.specs.Channels.{segment_count, events_handed_in};
ghost use Rattle.receiver.specs.Modem.{ComeFromAModem, turns_from, all_arrive};
ghost use Rattle.reorder.specs.Limits.{width_max};
ghost use Rattle.flow_core.specs.declared.counts.FlowCounts.{FlowCounts};
ghost use Rattle.flow_core.specs.Counts.{says_kept};
ghost use Rattle.bonded_flows.specs.ByRule.{HasGivenByRule};
ghost use Rattle.bonded_flows.specs.FlowSetup.{FlowSetup};
ghost use Rattle.bonded_flows.specs.Parts.{FlowInput};
ghost use Rattle.receiver.specs.Held.{HoldsByRule};
ghost use Rattle.receiver.specs.Received.{GaveAllParts};
ghost use Rattle.receiver.specs.SentParts.{SentPart, NearPart, all_parts, GiveInTurn};
ghost use Rattle.receiver.specs.SentParts.{GivesAllThatCame, GivesItsSequence};
ghost use Rattle.loss_rule.specs.declared.rule.LossRule.{LossRule};
ghost use Rattle.loss_rule.specs.Rule.{Coming, HasChannel};
ghost use Rattle.loss_rule.specs.InOrder.{Comes, HaveNoDecision, HandInDecisions, DecideSafely};
ghost use Rattle.loss_rule.specs.InOrder.{IsAllCome};
ghost use Rattle.loss_rule.specs.Dealing.{dealt, dealt_out, AreDealtOut, AreSpreadOut};
ghost use Rattle.receiver.specs.Faults.{IsReplayFault, IsTagsFault};
ghost use Rattle.receiver.specs.SameOutcome.{IsSameOutcome};
ghost use Rattle.lane.specs.Limits.{channel_limit};
ghost use Rattle.lane.specs.Inputs.{LaneSetup, AnsweredInput};
ghost use Rattle.lane.specs.Inputs.{AreAnswered};
ghost use Rattle.lane.specs.Report.{admitted_of, requests_of};
ghost use Rattle.lane.specs.Report.{IsLaneRequest};

/// What is admitted is of a flow that has a record, and its segment is ready. Its request is of the
/// lane's channel and made for a cluster that the flow has.
pub fn admitted_segments_are_of_the_flows()
    ensures items { (setup : LaneSetup) (taken : List AnsweredInput) → AreAnswered setup taken
        → All (IsItem (length setup.records)) (map event_of_admitted (admitted_of taken)) }
    ensures requests { (setup : LaneSetup) (taken : List AnsweredInput) → AreAnswered setup taken
        → All (IsLaneRequest setup) (requests_of taken) }
{}

/// A lawful order has no fault.
pub fn lawful_order_has_no_fault()
    ensures { (lengths order : List ℕ) (k : ℕ)
        → IsLawfulOrder lengths order → ¬ (IsOrderFault lengths order k) }
{}

/// Lists are merged in lawful orders only, and in each order in one way.
pub fn lists_have_one_merge<T>()
    ensures lawful { (lists : ℕ → List T) (order : List ℕ) (items : List T)
        → IsMergeOf lists order items → IsLawfulOrder (lengths_of lists) order }
    ensures one { (lists : ℕ → List T) (order : List ℕ) (items others : List T)
        → IsMergeOf lists order items → IsMergeOf lists order others → items ≡ others }
{}

/// An admitted order is a lawful order of the items, and has no fault where flows and lanes can be
/// set up.
pub fn admitted_order_is_lawful()
    ensures lawful { (setup : Setup) (incoming : Incoming) (tags order : List ℕ)
        → (is : IsAdmittedOrder setup incoming tags order)
        → IsLawfulOrder (lengths_of (items_of setup incoming is.answered)) order }
    ensures faultless { (setup : Setup) (incoming : Incoming) (tags order : List ℕ) (k : ℕ)
        → CanReceive setup → IsAdmittedOrder setup incoming tags order
        → ¬ (HasBadOrder setup incoming order k) }
{}

/// What comes in has in one order at most one intake: one answer to each input, and one list of
/// items.
pub fn order_has_one_intake()
    ensures answers { (setup : Setup) (incoming : Incoming) (order : List ℕ)
        (intake other : IsIntake setup incoming order) (channel : ℕ)
        → CanReceive setup → channel < channel_limit
        → intake.answered channel ≡ other.answered channel }
    ensures items { (setup : Setup) (incoming : Incoming) (order : List ℕ)
        (intake other : IsIntake setup incoming order)
        → CanReceive setup → intake.items ≡ other.items }
{}

/// Each segment that comes to a flow comes on a channel of the flow, one on which a row gives the
/// flow a service identifier. Those that come on a channel are just the flow's of those that the
/// channel admits, each once and in order. What is handed in to a flow are its decisions, in order;
/// none of them is a segment.
pub fn segments_come_on_channels_of_their_flow()
    ensures channels { (setup : Setup) (incoming : Incoming) (order : List ℕ)
        (intake : IsIntake setup incoming order) (flow_record : FlowRecord)
        (k p channel : ℕ) (segment : Segment)
        → Comes (comings_at k order intake.items) p channel segment
        → HasChannel (ruled_flow setup.sids.items k flow_record) channel }
    ensures rows { (setup : Setup) (flow_record : FlowRecord) (k channel : ℕ)
        → channel < channel_limit
        → HasChannel (ruled_flow setup.sids.items k flow_record) channel
        ↔ HasRow setup.sids.items k channel }
    ensures come { (setup : Setup) (incoming : Incoming) (order : List ℕ)
        (intake : IsIntake setup incoming order) (k channel : ℕ)
        → channel < channel_limit
        → segments_on channel (comings_at k order intake.items)
        ≡ segments_of_flow k (admitted_of (intake.answered channel)) }
    ensures events { (setup : Setup) (incoming : Incoming) (order : List ℕ)
        (intake : IsIntake setup incoming order) (k : ℕ)
        → events_handed_in (comings_at k order intake.items)
        ≡ events_at k (map event_of_decision
        (filter (names_a_flow (length setup.flows.items)) incoming.decisions)) }
    ensures decisions { (setup : Setup) (incoming : Incoming) (order : List ℕ)
        (intake : IsIntake setup incoming order) (k : ℕ)
        → HandInDecisions (comings_at k order intake.items) }
    ensures no_decision { (setup : Setup) (incoming : Incoming) (order : List ℕ)
        (intake : IsIntake setup incoming order) (k : ℕ)
        → incoming.decisions ≡ [] → HaveNoDecision (comings_at k order intake.items) }
{}

/// A replay in one order has at most one outcome, also by a loss rule. An order that has an
/// outcome, by a rule or without one, has no fault.
pub fn replay_has_one_outcome()
    ensures one { (check : List ℕ → Bool) (setup : Setup) (incoming : Incoming) (order : List ℕ)
        (outcome other : Outcome)
        → CanReceive setup → IsOutcome check setup incoming order outcome
        → IsOutcome check setup incoming order other → IsSameOutcome outcome other }
    ensures by_rule { (rule : LossRule) (check : List ℕ → Bool) (setup : Setup)
        (incoming : Incoming) (order : List ℕ) (outcome other : Outcome)
        → CanReceive setup → IsOutcomeBy rule check setup incoming order outcome
        → IsOutcomeBy rule check setup incoming order other → IsSameOutcome outcome other }
    ensures faultless { (check : List ℕ → Bool) (setup : Setup) (incoming : Incoming)
        (order : List ℕ) (outcome : Outcome) (k : ℕ)
        → CanReceive setup → IsOutcome check setup incoming order outcome
        → ¬ (HasBadOrder setup incoming order k) }
    ensures faultless_by_rule { (rule : LossRule) (check : List ℕ → Bool) (setup : Setup)
        (incoming : Incoming) (order : List ℕ) (outcome : Outcome) (k : ℕ)
        → CanReceive setup → IsOutcomeBy rule check setup incoming order outcome
        → ¬ (HasBadOrder setup incoming order k) }
{
    flow_core::laws::closed_flow_has_one_outcome();
}

/// Of the faults other than a failed allocation at most one is why nothing is replayed, or why
/// there is no admitted order.
pub fn replay_has_one_fault()
    ensures replay { (setup : Setup) (incoming : Incoming) (order : List ℕ)
        (fault other : ReplayFault)
        → fault ≢ ReplayFault.OutOfMemory → other ≢ ReplayFault.OutOfMemory
        → IsReplayFault setup incoming order fault → IsReplayFault setup incoming order other
        → fault ≡ other }
    ensures tags { (setup : Setup) (incoming : Incoming) (tags : List ℕ) (fault other : ReplayFault)
        → fault ≢ ReplayFault.OutOfMemory → other ≢ ReplayFault.OutOfMemory
        → IsTagsFault setup incoming tags fault → IsTagsFault setup incoming tags other
        → fault ≡ other }
{}

/// Where the decisions that are handed in decide alone, a replay by the rule is a replay.
pub fn replay_by_decisions_alone_is_a_replay()
    ensures replay { (check : List ℕ → Bool) (setup : Setup) (incoming : Incoming)
        (order : List ℕ) (outcome : Outcome)
        → IsOutcomeBy LossRule.Decided check setup incoming order outcome
        → IsOutcome check setup incoming order outcome }
    ensures by_rule { (check : List ℕ → Bool) (setup : Setup) (incoming : Incoming)
        (order : List ℕ) (outcome : Outcome)
        → IsOutcome check setup incoming order outcome
        → IsOutcomeBy LossRule.Decided check setup incoming order outcome }
{}

/// **What a flow gives is exactly the modem's frames all of whose segments came in**, in the
/// modem's order. It holds of each flow of an outcome by a loss rule, of a replay and of a run
/// alike: where what comes to the flow, in the order that the outcome states, is of one lawful cut
/// of the modem's frames, none twice, comes on each channel in the modem's order and falls into the
/// window, and decisions that are handed in lose nothing that still comes. Then as many segments
/// are counted as kept as came, and none as late, as a repeat or as beyond the window. By
/// `PassedOrSlid` that holds over outages longer than the window.
pub fn flows_give_the_frames_that_all_came()
    ensures frames { (rule : LossRule) (check : List ℕ → Bool) (setup : Setup)
        (incoming : Incoming) (order : List ℕ) (outcome : Outcome) (k : ℕ)
        (flow_record : FlowRecord) (flow : FlowOutcome) (frames : List (List ℕ))
        → rule ≢ LossRule.Decided → CanReceive setup
        → (is : IsOutcomeBy rule check setup incoming order outcome)
        → slice_get setup.flows.items k ≡ Some flow_record
        → slice_get outcome.flows.items k ≡ Some flow
        → (modem : ComeFromAModem rule check (ruled_flow setup.sids.items k flow_record) frames
        (comings_at k order is.intake.items))
        → DecideSafely rule (ruled_flow setup.sids.items k flow_record)
        (comings_at k order is.intake.items) modem.index_at
        → FiltersTo (IsAllCome frames modem.chunks (comings_at k order is.intake.items)
        modem.index_at) frames flow.frames.items }
    ensures counts { (rule : LossRule) (check : List ℕ → Bool) (setup : Setup)
        (incoming : Incoming) (order : List ℕ) (outcome : Outcome) (k : ℕ)
        (flow_record : FlowRecord) (flow : FlowOutcome) (frames : List (List ℕ))
        → rule ≢ LossRule.Decided → CanReceive setup
        → (is : IsOutcomeBy rule check setup incoming order outcome)
        → slice_get setup.flows.items k ≡ Some flow_record
        → slice_get outcome.flows.items k ≡ Some flow
        → (modem : ComeFromAModem rule check (ruled_flow setup.sids.items k flow_record) frames
        (comings_at k order is.intake.items))
        → DecideSafely rule (ruled_flow setup.sids.items k flow_record)
        (comings_at k order is.intake.items) modem.index_at
        → (flow.counts.kept ≡ counted (segment_count (comings_at k order is.intake.items)))
        × (flow.counts.late ≡ 0) × (flow.counts.repeat ≡ 0) × (flow.counts.beyond ≡ 0) }
{
    loss_rule::laws::all_that_comes_is_kept();
    loss_rule::laws::closed_flow_gives_the_frames_that_all_came();
}

/// **What a flow gives that begins anew** is what its parts give, one after another: by a loss rule
/// of each part exactly the modem's frames all of whose segments came to it, and by any rule, where
/// what comes is near, the part's delivery sequence.
pub fn parts_of_a_flow_give_their_frames_in_turn()
    ensures all_came { (check : List ℕ → Bool) (setup : FlowSetup) (inputs : List FlowInput)
        (sent : List (SentPart check setup)) (gave : List (List ℕ)) (counts : FlowCounts)
        → setup.rule ≢ LossRule.Decided → setup.flow_record.window ≤ width_max
        → map (λ one. one.part) sent ≡ all_parts setup inputs
        → GaveAllParts check setup inputs gave counts
        → GiveInTurn (GivesAllThatCame check setup) sent gave }
    ensures delivered { (check : List ℕ → Bool) (setup : FlowSetup) (inputs : List FlowInput)
        (near : List (NearPart check setup)) (gave : List (List ℕ)) (counts : FlowCounts)
        → map (λ one. one.part) near ≡ all_parts setup inputs
        → GaveAllParts check setup inputs gave counts
        → GiveInTurn (GivesItsSequence check setup) near gave }
{
    bonded_flows::laws::bonded_flow_gives_the_frames_that_all_came();
    flow_core::laws::gaps_after_keep_events_near();
    flow_core::laws::outcome_of_near_events_is_the_delivery_sequence();
}

/// The premises of [`flows_give_the_frames_that_all_came`] can be met, by every lawful cut: where a
/// flow has a service identifier on each channel and its window is wider than there are channels,
/// let the cut's segments come one after another, in turn over the channels. Then what comes to the
/// flow is of a modem, and no decision loses what still comes. So it is where segments are dealt in
/// any way over the flow's channels, be these only some, and some are lost and some come late.
pub fn segments_in_turn_come_from_a_modem()
    ensures modem { (rule : LossRule) (check : List ℕ → Bool) (setup : Setup) (k fill : ℕ)
        (flow_record : FlowRecord) (frames chunks : List (List ℕ)) (segments : List Segment)
        → rule ≢ LossRule.Decided → CanReceive setup
        → slice_get setup.flows.items k ≡ Some flow_record
        → channel_limit < flow_record.window
        → ((channel : ℕ) → channel < channel_limit → HasRow setup.sids.items k channel)
        → IsLawfulCut check frames flow_record.first fill chunks segments
        → (modem : ComeFromAModem rule check (ruled_flow setup.sids.items k flow_record) frames
        (comings_at k (turns_from 0 (length segments)) (all_arrive k segments)))
        × DecideSafely rule (ruled_flow setup.sids.items k flow_record)
        (comings_at k (turns_from 0 (length segments)) (all_arrive k segments)) modem.index_at }
    ensures dealt_out { (rule : LossRule) (check : List ℕ → Bool) (setup : Setup)
        (order : List ℕ) (items : List Event) (k fill n m d : ℕ) (flow_record : FlowRecord)
        (frames chunks : List (List ℕ)) (segments : List Segment) (channel_of index_at : ℕ → ℕ)
        → rule ≢ LossRule.Decided → CanReceive setup
        → slice_get setup.flows.items k ≡ Some flow_record → d + m ≤ flow_record.window
        → AreDealtOut (ruled_flow setup.sids.items k flow_record) channel_of index_at segments n
        → AreSpreadOut (ruled_flow setup.sids.items k flow_record) channel_of index_at n m d
        → IsLawfulCut check frames flow_record.first fill chunks segments
        → comings_at k order items ≡ dealt_out channel_of index_at segments n
        → (modem : ComeFromAModem rule check (ruled_flow setup.sids.items k flow_record) frames
        (comings_at k order items))
        × DecideSafely rule (ruled_flow setup.sids.items k flow_record) (comings_at k order items)
        modem.index_at }
    ensures come { (k : ℕ) (segments : List Segment)
        → comings_at k (turns_from 0 (length segments)) (all_arrive k segments)
        ≡ dealt channel_limit segments }
    ensures order { (k : ℕ) (segments : List Segment)
        → IsMergeOf (λ sender. picked sender (turns_from 0 (length segments))
        (all_arrive k segments)) (turns_from 0 (length segments)) (all_arrive k segments) }
{
    loss_rule::laws::spread_segments_fit_the_window();
}

/// **What a flow holds was kept and isn't joined yet**: of the segments that were kept, those that
/// are settled are joined, and as many as are left are held. One number of them is held.
pub fn held_segments_were_kept_and_are_not_joined()
    ensures unjoined { (check : List ℕ → Bool) (setup : FlowSetup) (comings : List Coming)
        (frames : List (List ℕ)) (counts : FlowCounts) (held : ℕ)
        → (given : HasGivenByRule check setup comings frames counts)
        → HoldsByRule setup comings held
        → count_by says_kept given.outcome.answers
        ≡ count_by is_some given.outcome.settled + held }
    ensures one { (setup : FlowSetup) (comings : List Coming) (held other : ℕ)
        → HoldsByRule setup comings held → HoldsByRule setup comings other → held ≡ other }
{}

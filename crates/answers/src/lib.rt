//! Laws about the definitions of the crates below: what they say a receiver gives is there, within
//! limits.
//!
//! That it is one thing is said by laws of those crates, as `ccf::laws::joining_has_one_answer` and
//! `flow_core::laws::flow_has_at_most_one_outcome`. Here it is said that there is one, from the
//! joining of a segment upwards, whether or not a call gave it. And it is said which parts of an
//! answer depend on which parts of what comes in, so that who has made only a part of it knows of
//! the rest.
//!
//! The limits, of which each law names those that it needs:
//!
//! - What comes in is of bytes, numbers below 256: some other numbers are walked in no way
//!   (`some_numbers_have_no_walk`).
//! - The setup can be received with.
//! - A channel has fewer than 2^63 inputs, and of all channels and decisions together fewer than
//!   2^48 items are taken, so that what is given has room in the vectors of an outcome.
//! - The lines of a trace are read, without a fault, and are fewer than 2^48.
//!
//! Each function states a law in its contract; its body is empty or only calls another law.
#![tactic(auto)]

ghost use Rattle.std.specs.Prelude.{◌≡◌, ◌+◌, ◌*◌, ◌%◌, ◌≤◌, ◌<◌, ◌^◌, ◌∷◌, ◌++◌};
ghost use Rattle.std.specs.Prelude.{ℕ, Bool, Option, List, [], Ok, length, map, filter};
ghost use Rattle.std.specs.Prelude.{filter_map, sum_by, take};
ghost use Rattle.std.specs.List.{concat, All, AllByRecursion, AllPass, AllZip};
ghost use Rattle.hex.specs.Hex.{decode_of, is_hex_digit};
ghost use Rattle.docsis_wire.specs.declared.segment.Segment.{Segment};
ghost use Rattle.docsis_wire.specs.Frame.{IsFrame};
ghost use Rattle.ccf.specs.Walk.{Walks};
ghost use Rattle.ccf.specs.Feed.{Feeds};
ghost use Rattle.ccf.specs.Join.{Joins};
ghost use Rattle.flow_core.specs.Counts.{payload_bytes};
ghost use Rattle.flow_records.specs.declared.record.FlowRecord.{FlowRecord};
ghost use Rattle.flow_core.specs.declared.counts.FlowCounts.{FlowCounts};
ghost use Rattle.flow_core.specs.Events.{FlowEvent};
ghost use Rattle.flow_core.specs.Outcome.{IsFlowOutcome};
ghost use Rattle.loss_rule.specs.declared.rule.LossRule.{LossRule};
ghost use Rattle.receiver.specs.declared.setup.Setup.{Setup};
ghost use Rattle.receiver.specs.declared.width.Width.{Width};
ghost use Rattle.receiver.specs.declared.outcome.Outcome.{Outcome};
ghost use Rattle.receiver.specs.Faults.{CanReceive};
ghost use Rattle.receiver.specs.Items.{Incoming, AreLanesOf, items_of};
ghost use Rattle.receiver.specs.Order.{lengths_of, IsLawfulOrder};
ghost use Rattle.receiver.specs.AdmittedOrder.{input_counts, IsAdmittedOrder};
ghost use Rattle.receiver.specs.Intake.{IsIntake};
ghost use Rattle.receiver.specs.Outcome.{GivesAtItsClose, IsOutcome};
ghost use Rattle.receiver.specs.Ruled.{IsOutcomeBy};
ghost use Rattle.lane.specs.Inputs.{AnsweredInput};
ghost use Rattle.lane.specs.Rows.{CanBeOpenedWithin};
ghost use Rattle.bonded_flows.specs.Table.{TableSetup};
ghost use Rattle.consumer.specs.declared.given.Given.{Given};
ghost use Rattle.receiver.specs.declared.closing.Closed.{Closed};
ghost use Rattle.receiver.specs.HandedIn.{HandedIn};
ghost use Rattle.receiver.specs.Received.{IsReceived};
ghost use Rattle.receiver.specs.Replaying.{entry_of};
ghost use Rattle.text_lines.specs.Field.{SpellsBytes};
ghost use Rattle.text_lines.specs.Capacities.{default_capacity};
ghost use Rattle.text_lines.specs.Lines.{lines_of};
ghost use Rattle.text_lines.specs.Format.{IsRead};
ghost use Rattle.flow_selection.specs.declared.selection.Selection.{Selection};
ghost use Rattle.flow_selection.specs.Selection.{is_selected};
ghost use Rattle.receiver.specs.Entries.{Entry, tag_of, incoming_in};
ghost use Rattle.texts.specs.Selected.{report_of, IsReplayedOf};
ghost use Rattle.texts.specs.AnyHeader.{any_header};
ghost use Rattle.texts.specs.declared.follow.happening.Happening.{Happening};
ghost use Rattle.texts.specs.Happened.{IsOfTrace, AreHandedIn, IsGivenSoFar, Tells};
ghost use Rattle.texts.specs.Happened.{HasHappened, HappenedBy};
ghost use Rattle.texts.specs.Trace.Line.{shape_of};
ghost use Rattle.texts.specs.Trace.Place.{Said, nothing_said, nothing_said_in, trace_format};
ghost use Rattle.texts.specs.Replay.{IsSetupOf, IsReplayed, IsReplayedBy};
ghost use Rattle.receiver.specs.Elsewhere.{DiffersElsewhere, AgreesOn};
ghost use Rattle.answers.specs.ToldAlike.{EntryStandsIn, is_told_for, HappenFor};
ghost use Rattle.answers.specs.Beside.{IsBeside, GrowsBeside, ClosesWhole};
ghost use Rattle.answers.specs.Room.{EntryHasBytes, AreBurstsOfBytes, HasRoom};
ghost use Rattle.answers.specs.Bytes.{AreBytes, CarryBytes, BringBytes};

/// **Each settled list joins to some frames**: whatever bytes were unfinished, whatever the check
/// says of headers, and whatever bytes the segments carry. Each of the frames is one. Together with
/// what is left unfinished they have no more bytes than what was unfinished before and the
/// payloads, and so there is no more than one for six of these.
pub fn each_settled_list_joins()
    ensures walked { (check : List ℕ → Bool) (bytes : List ℕ) → AreBytes bytes
        → (frames : List (List ℕ)) × (after : List ℕ) × Walks check bytes frames after }
    ensures fed { (check : List ℕ → Bool) (before : List ℕ) (segment : Segment)
        → AreBytes before → AreBytes segment.payload
        → (frames : List (List ℕ)) × (after : List ℕ)
        × Feeds check before segment frames after × AreBytes after }
    ensures joined { (check : List ℕ → Bool) (before : List ℕ) (settled : List (Option Segment))
        → AreBytes before → CarryBytes settled
        → (frames : List (List ℕ)) × (after : List ℕ) × Joins check before settled frames after }
    ensures frames { (check : List ℕ → Bool) (before : List ℕ) (settled : List (Option Segment))
        (frames : List (List ℕ)) (after : List ℕ)
        → Joins check before settled frames after → AllByRecursion (IsFrame check) frames }
    ensures bytes { (check : List ℕ → Bool) (before : List ℕ) (settled : List (Option Segment))
        (frames : List (List ℕ)) (after : List ℕ)
        → Joins check before settled frames after
        → length (concat frames) + length after
        ≤ length before + sum_by payload_bytes settled }
    ensures count { (check : List ℕ → Bool) (before : List ℕ) (settled : List (Option Segment))
        (frames : List (List ℕ)) (after : List ℕ)
        → Joins check before settled frames after
        → 6 * length frames ≤ length before + sum_by payload_bytes settled }
{}

/// Of numbers that aren't bytes this doesn't hold: some are walked in no way, though no header is
/// refused.
pub fn some_numbers_have_no_walk()
    ensures { (numbers : List ℕ) × ((frames : List (List ℕ)) (after : List ℕ)
        → ¬ (Walks any_header numbers frames after)) }
{}

/// **Each flow has an outcome**: whatever its record says and whatever events come to it, if their
/// segments carry bytes, there are frames and counts that it gives once it is drained, and some
/// that it gives at its close, after as many gaps as still change anything.
pub fn each_flow_has_an_outcome()
    ensures drained { (check : List ℕ → Bool) (flow_record : FlowRecord) (events : List FlowEvent)
        → BringBytes events
        → (frames : List (List ℕ)) × (counts : FlowCounts)
        × IsFlowOutcome check flow_record events frames counts }
    ensures closed { (check : List ℕ → Bool) (flow_record : FlowRecord) (events : List FlowEvent)
        → BringBytes events
        → (frames : List (List ℕ)) × (counts : FlowCounts)
        × GivesAtItsClose check flow_record events frames counts }
{}

/// **Each intake has an outcome**, by each rule and by decisions alone: where inputs have answers
/// and items are taken in an order, there is a whole answer of the receiver, which has the frames
/// of each flow. Bursts are of bytes, a channel has fewer than 2^63 inputs, and there are fewer
/// than 2^48 items.
pub fn each_intake_has_an_outcome()
    ensures by_rule { (rule : LossRule) (check : List ℕ → Bool) (setup : Setup)
        (incoming : Incoming) (order : List ℕ)
        → IsIntake setup incoming order → AreBurstsOfBytes incoming → HasRoom incoming order
        → (outcome : Outcome) × IsOutcomeBy rule check setup incoming order outcome }
    ensures decided { (check : List ℕ → Bool) (setup : Setup) (incoming : Incoming)
        (order : List ℕ)
        → IsIntake setup incoming order → AreBurstsOfBytes incoming → HasRoom incoming order
        → (outcome : Outcome) × IsOutcome check setup incoming order outcome }
{
    receiver::laws::replay_by_decisions_alone_is_a_replay();
}

/// **What comes in has an intake**, where the setup can be received with and bursts are of bytes:
/// each input has an answer; in each lawful order of the items there is an intake; and of lawful
/// tags of all that came there is an admitted order, in which there is one.
pub fn what_comes_in_has_an_intake()
    ensures lanes { (setup : Setup) (incoming : Incoming)
        → CanReceive setup → AreBurstsOfBytes incoming
        → (answered : ℕ → List AnsweredInput) × AreLanesOf setup incoming answered }
    ensures ordered { (setup : Setup) (incoming : Incoming)
        (answered : ℕ → List AnsweredInput) (order : List ℕ)
        → AreLanesOf setup incoming answered
        → IsLawfulOrder (lengths_of (items_of setup incoming answered)) order
        → IsIntake setup incoming order }
    ensures admitted { (setup : Setup) (incoming : Incoming) (tags : List ℕ)
        → CanReceive setup → AreBurstsOfBytes incoming
        → IsLawfulOrder (input_counts incoming) tags
        → (order : List ℕ) × IsAdmittedOrder setup incoming tags order
        × IsIntake setup incoming order }
{}

/// **Each trace has a text**, by each rule and without one, where its lines are read and are fewer
/// than 2^48.
pub fn each_trace_has_a_text()
    ensures by_rule { (rule : LossRule) (input : List ℕ) (said : Said)
        → IsRead trace_format (nothing_said default_capacity) (lines_of input) said
        → length (lines_of input) < 2 ^ 48
        → (text : List ℕ) × IsReplayedBy rule input text }
    ensures decided { (input : List ℕ) (said : Said)
        → IsRead trace_format (nothing_said default_capacity) (lines_of input) said
        → length (lines_of input) < 2 ^ 48
        → (text : List ℕ) × IsReplayed input text }
{
    texts::laws::replay_by_decisions_alone_is_a_replay();
}

/// **For the lines of each trace something happens**, at a receiver of any width and by each rule,
/// where they are read and are fewer than 2^48: each input has an answer, each flow gives what by
/// the rule comes of all that came to it, and there is what is told of it.
pub fn something_happens_for_each_trace()
    ensures { (rule : LossRule) (width : Width) (lines : List (List ℕ)) (said : Said)
        → IsRead trace_format (nothing_said_in (shape_of width default_capacity)) lines said
        → length lines < 2 ^ 48 → (happened : List Happening) × HappenedBy rule width lines happened }
{}

/// **What the bursts of other flows carry changes nothing of those that are selected**: where they
/// have other bytes behind the same header, as many as before, what comes in can be taken in the
/// same orders, and outcomes by the same rule agree in requests, in reports and in what each flow
/// gave that is selected. Whose a burst is may be said by the answers on either side.
pub fn other_payloads_change_no_selected_flow()
    ensures either_side { (selected : ℕ → Bool) (setup : Setup) (incoming other : Incoming)
        → DiffersElsewhere selected setup incoming other
        → DiffersElsewhere selected setup other incoming }
    ensures intake { (selected : ℕ → Bool) (setup : Setup) (incoming other : Incoming)
        (order : List ℕ)
        → CanReceive setup → DiffersElsewhere selected setup incoming other
        → IsIntake setup incoming order → IsIntake setup other order }
    ensures agree { (selected : ℕ → Bool) (rule : LossRule) (check : List ℕ → Bool)
        (setup : Setup) (incoming other : Incoming) (order : List ℕ)
        (outcome another : Outcome)
        → CanReceive setup → DiffersElsewhere selected setup incoming other
        → IsOutcomeBy rule check setup incoming order outcome
        → IsOutcomeBy rule check setup other order another
        → AgreesOn selected outcome another }
{}

/// **What the bursts of other flows carry changes nothing that is told of the selected ones, and of
/// none**, where each input and decision is handed in and told of by itself: entries that stand in
/// for what was handed in bring the same requests, of each selected flow the same frames, and the
/// same answers and standings, in the same order. Between which of these a frame is given isn't
/// said here. The flows and channels may be any number.
pub fn other_payloads_change_nothing_that_is_told()
    ensures { (selected : Selection) (made : TableSetup) (handed others : List HandedIn)
        (given also : List Given) (happened happening : List Happening)
        → CanBeOpenedWithin made.channels made.rows (length made.records)
        → HasHappened made handed given happened → HasHappened made others also happening
        → All (IsOfTrace made.channels) handed → All (IsOfTrace made.channels) others
        → AllZip (EntryStandsIn (is_selected selected)) handed (filter_map entry_of others)
        → HappenFor selected happened happening }
{
    bonded_flows::laws::what_came_to_a_flow_has_one_answer();
}

/// **What is told of stand-ins is told of the whole**, of the selected flows and of none, in the
/// same order: whatever happened for stand-ins, something happens for the entries for which they
/// stand in, of which that is told, whether or not a receiver made it.
pub fn what_is_told_of_stand_ins_is_told_of_the_whole()
    ensures { (selected : Selection) (made : TableSetup) (others : List HandedIn)
        (also : List Given) (happening : List Happening) (entries : List Entry)
        → CanBeOpenedWithin made.channels made.rows (length made.records)
        → HasHappened made others also happening → All (IsOfTrace made.channels) others
        → AllZip (EntryStandsIn (is_selected selected)) others entries
        → AllByRecursion EntryHasBytes entries
        → (handed : List HandedIn) × (given : List Given) × (happened : List Happening)
        × HasHappened made handed given happened × AreHandedIn made.channels entries handed
        × (filter (is_told_for selected) happened ≡ filter (is_told_for selected) happening) }
{
    bonded_flows::laws::what_came_to_a_flow_has_one_answer();
}

/// **What is told of the whole grows with stand-ins**: beside nothing that was handed in stands
/// nothing; and with one stand-in more, one thing more of the whole is there, answered in its
/// place, for which just the same is told of the selected flows and of none, in the same order.
pub fn what_is_told_of_the_whole_grows_with_stand_ins()
    ensures nothing { (selected : Selection) (made : TableSetup)
        → IsBeside selected made [] [] [] [] [] [] }
    ensures one_more { (selected : Selection) (made : TableSetup)
        (others : List HandedIn) (also : List Given) (entries : List Entry)
        (handed : List HandedIn) (given : List Given) (happened : List Happening)
        (one : HandedIn) (e : Entry) (also_more : List Given) (telling : List Happening)
        → CanBeOpenedWithin made.channels made.rows (length made.records)
        → IsBeside selected made others also entries handed given happened
        → IsOfTrace made.channels one → EntryStandsIn (is_selected selected) one e
        → EntryHasBytes e → IsGivenSoFar made (others ++ one ∷ []) (also ++ also_more)
        → Tells made others one telling
        → GrowsBeside selected made others also entries handed given happened one e also_more
        telling }
{
    bonded_flows::laws::what_came_to_a_flow_has_one_answer();
}

/// **What stand-ins give at the close is given of the whole**, in the same order of the selected
/// flows and of none, and the same is counted of these flows and of each channel. The whole gives
/// besides what its other flows have left to give.
pub fn what_stand_ins_give_at_the_close_is_given_of_the_whole()
    ensures { (selected : Selection) (made : TableSetup) (others : List HandedIn)
        (also : List Given) (entries : List Entry) (handed : List HandedIn) (given : List Given)
        (happened : List Happening) (rest : List Given) (closed : Closed)
        → IsBeside selected made others also entries handed given happened
        → All (IsOfTrace made.channels) others
        → IsReceived any_header made others (also ++ rest) closed
        → ClosesWhole selected made handed given rest closed }
{}

/// **What stands in for a trace gives a part of its text**: where the lines of a trace are read and
/// are fewer than 2^48, and bursts of flows that aren't selected have other bytes behind the same
/// header, the report of the selected flows, made of these, is just what is left of the whole text
/// of `replay`, which nobody need have made. Outcomes that agree on flows have one report of them.
pub fn stand_ins_give_a_part_of_the_whole_text()
    ensures report { (selected : Selection) (outcome another : Outcome)
        → AgreesOn (is_selected selected) outcome another
        → report_of selected outcome ≡ report_of selected another }
    ensures replay { (selected : Selection) (rule : LossRule) (input : List ℕ) (said : Said)
        (setup : Setup) (other : Incoming) (order : List ℕ) (another : Outcome)
        → IsRead trace_format (nothing_said default_capacity) (lines_of input) said
        → IsSetupOf said setup → length (lines_of input) < 2 ^ 48
        → DiffersElsewhere (is_selected selected) setup (incoming_in said.entries) other
        → IsAdmittedOrder setup other (map tag_of said.entries) order
        → IsOutcomeBy rule any_header setup other order another
        → IsReplayedOf selected rule input (report_of selected another) }
{}

/// **Digits that are looked at and not decoded spell bytes**: an even number of them half as many,
/// and of those that spell some bytes the first ones spell the first bytes, as those of a header.
pub fn digits_that_are_looked_at_spell_bytes()
    ensures some { (field : List ℕ) → length field % 2 ≡ 0 → AllPass is_hex_digit field
        → (bytes : List ℕ) × SpellsBytes field bytes × (length field ≡ 2 * length bytes)
        × AreBytes bytes }
    ensures front { (n : ℕ) (field bytes : List ℕ)
        → decode_of field ≡ Ok bytes → 2 * n ≤ length field
        → decode_of (take (2 * n) field) ≡ Ok (take n bytes) }
{}

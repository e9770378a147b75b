//! Laws about the definitions: events have one outcome, what a flow gives is the delivery sequence,
//! and the delivery sequence only grows.
//!
//! Each function states a law in its contract; its body is empty or only calls other laws.
ghost use Rattle.std.specs.Prelude.{◌≡◌, ◌↔◌, ◌⊎◌, ◌+◌, ◌<◌, ◌≤◌, ℕ, Bool, false, Option, List};
ghost use Rattle.std.specs.Prelude.{IsTrue, [], ◌∷◌, ◌++◌, length, count_by, replicate};
ghost use Rattle.std.specs.List.{AllByRecursion};
ghost use Rattle.docsis_wire.specs.declared.segment.Segment.{Segment};
ghost use Rattle.docsis_wire.specs.Frame.{IsFrame};
ghost use Rattle.docsis_wire.specs.Cut.{IsLawfulCut};
ghost use Rattle.docsis_wire.specs.Span.{IsSettledOf};
ghost use Rattle.ccf.specs.Filter.{FiltersTo};
ghost use Rattle.reorder.specs.Limits.{numbers_ahead, width_max};
ghost use Rattle.ccf.specs.Join.{Joins};
ghost use Rattle.flow_records.specs.declared.record.FlowRecord.{FlowRecord};
ghost use Rattle.flow_core.specs.declared.flow.Flow.{Flow};
ghost use Rattle.flow_core.specs.declared.counts.FlowCounts.{FlowCounts};
ghost use Rattle.flow_core.specs.declared.event.Applied.{Applied};
ghost use Rattle.flow_core.specs.Fates.{Fates, no_fates, number_of, IsKept, IsKeptAs, IsLost};
ghost use Rattle.flow_core.specs.Fates.{IsOpen, IsExpected, HasLaterKept, IsSettledBelow};
ghost use Rattle.flow_core.specs.Events.{FlowEvent, gap, IsAhead, Declares, DeclaresTo, SkipsTo};
ghost use Rattle.flow_core.specs.Events.{Leads, IsAfter};
ghost use Rattle.flow_core.specs.Near.{AreNear, AreOfCut, AreSkipsWithin};
ghost use Rattle.flow_core.specs.Delivery.{IsDelivered, IsDeliverySequence};
ghost use Rattle.flow_core.specs.Stands.{StandsFor, IsDrained};
ghost use Rattle.flow_core.specs.Outcome.{IsFlowOutcome};
ghost use Rattle.flow_core.specs.Counts.{no_counts};
ghost use Rattle.flow_core.specs.Closing.{IsClosed, Closes, says_lost, IsAllKept, HaveNoArrival};
ghost use Rattle.flow_core.specs.Closing.{HaveNoSkip, IsSkippedBy};
ghost use Rattle.flow_core.specs.Flows.{IsLoss};
ghost use Rattle.reorder.specs.declared.verdict.Declared.{Declared};

/// Every list of events has one outcome: one list of answers and one fate of each index, of which
/// one is the expected index.
pub fn events_have_one_outcome()
    ensures some { (first width : ℕ) (events : List FlowEvent) → 1 ≤ width
        → (answers : List Applied) × (fates : Fates) × (x : ℕ)
        × IsAfter first width events answers fates × IsExpected fates x }
    ensures only { (first width : ℕ) (events : List FlowEvent)
        (answers others : List Applied) (fates after : Fates)
        → IsAfter first width events answers fates → IsAfter first width events others after
        → (answers ≡ others) × (fates ≡ after) }
    ensures expected { (fates : Fates) (x y : ℕ)
        → IsExpected fates x → IsExpected fates y → x ≡ y }
{}

/// Where what is settled below an index is of one lawful cut, it joins to exactly the modem's
/// frames that lie wholly in the cut and of which each segment was kept and lies below that index.
pub fn settled_segments_join_to_the_delivered_frames()
    ensures { (check : List ℕ → Bool) (frames chunks : List (List ℕ)) (first fill n : ℕ)
        (segments : List Segment) (fates : Fates) (settled : List (Option Segment))
        (joined : List (List ℕ)) (unfinished : List ℕ)
        → IsLawfulCut check frames first fill chunks segments → IsSettledOf segments settled
        → IsSettledBelow fates n settled → Joins check [] settled joined unfinished
        → FiltersTo (IsDelivered frames chunks fates n) frames joined }
{
    ccf::laws::settled_list_joins_to_the_frames_wholly_kept();
}

/// For a modem's frames, any chunks and any fates with an expected index there is a delivery
/// sequence, and only one.
pub fn delivery_sequence_is_one()
    ensures some { (check : List ℕ → Bool) (frames chunks : List (List ℕ)) (fates : Fates) (x : ℕ)
        → AllByRecursion (IsFrame check) frames → IsExpected fates x
        → (given : List (List ℕ)) × IsDeliverySequence frames chunks fates given }
    ensures only { (frames chunks given others : List (List ℕ)) (fates : Fates)
        → IsDeliverySequence frames chunks fates given
        → IsDeliverySequence frames chunks fates others → given ≡ others }
{}

/// The delivery sequence after some events is a prefix of what it is after more of them.
pub fn delivery_sequence_only_grows()
    ensures { (check : List ℕ → Bool) (frames chunks : List (List ℕ)) (first width : ℕ)
        (events more : List FlowEvent) (answers later : List Applied) (fates after : Fates)
        (given grown : List (List ℕ))
        → AllByRecursion (IsFrame check) frames
        → IsAfter first width events answers fates
        → IsAfter first width (events ++ more) later after
        → IsDeliverySequence frames chunks fates given
        → IsDeliverySequence frames chunks after grown
        → (rest : List (List ℕ)) × (grown ≡ given ++ rest) }
{}

/// Over a lawful cut of at most 4,096 segments every list of events in which each segment that
/// arrives is one of the cut's is near, if nothing is skipped, or no further than past its end.
pub fn events_of_a_short_cut_are_near()
    ensures unskipped { (check : List ℕ → Bool) (frames chunks : List (List ℕ))
        (first fill width : ℕ) (segments : List Segment) (events : List FlowEvent)
        → IsLawfulCut check frames first fill chunks segments
        → length segments ≤ numbers_ahead → AreOfCut segments events → HaveNoSkip events
        → AreNear first width segments events }
    ensures skipped { (check : List ℕ → Bool) (frames chunks : List (List ℕ))
        (first fill width : ℕ) (segments : List Segment) (events : List FlowEvent)
        → IsLawfulCut check frames first fill chunks segments
        → length segments ≤ numbers_ahead → AreOfCut segments events
        → AreSkipsWithin first segments events
        → AreNear first width segments events }
{}

/// A flow has come to its expected index exactly if it is drained.
pub fn drained_flow_has_come_to_its_expected_index()
    ensures { (check : List ℕ → Bool) (flow_record : FlowRecord) (flow : Flow)
        (events : List FlowEvent) (answers : List Applied) (y : ℕ) (given : List (List ℕ))
        (fates : Fates)
        → StandsFor check flow_record flow events answers y given
        → IsAfter flow_record.first flow_record.window events answers fates
        → IsDrained flow ↔ IsExpected fates y }
{}

/// A drained flow expects the number of its expected index.
pub fn drained_flow_expects_the_number_of_its_expected_index()
    ensures { (check : List ℕ → Bool) (flow_record : FlowRecord) (flow : Flow)
        (events : List FlowEvent) (answers : List Applied) (x y : ℕ) (given : List (List ℕ))
        (fates : Fates)
        → StandsFor check flow_record flow events answers y given
        → IsAfter flow_record.first flow_record.window events answers fates
        → IsDrained flow → IsExpected fates x
        → flow.window.expected ≡ number_of flow_record.first x }
{}

/// An event never moves the expected index back, and moves it on by at most 4,096.
pub fn event_moves_the_expected_index_on_by_half_the_numbers_at_most()
    ensures { (first width x y : ℕ) (events : List FlowEvent) (event : FlowEvent)
        (answers more : List Applied) (fates after : Fates)
        → width ≤ width_max
        → IsAfter first width events answers fates → IsExpected fates x
        → Leads first width fates (event ∷ []) more after → IsExpected after y
        → (x ≤ y) × (y ≤ x + numbers_ahead) }
{}

/// **What a flow gave is the delivery sequence.** For every modem's frames, every lawful cut of
/// them and every near list of events, whatever of the cut arrives, is repeated, delayed or lost
/// and whenever losses are declared: a drained flow that stands for the events has given exactly
/// the modem's frames whose segments were all kept and lie before the expected one, in the modem's
/// order. A flow that isn't drained has given a prefix of them.
pub fn flow_gives_the_delivery_sequence()
    ensures drained { (check : List ℕ → Bool) (frames chunks : List (List ℕ)) (fill : ℕ)
        (segments : List Segment) (flow_record : FlowRecord) (flow : Flow)
        (events : List FlowEvent) (answers : List Applied) (y : ℕ) (given : List (List ℕ))
        (fates : Fates)
        → IsLawfulCut check frames flow_record.first fill chunks segments
        → AreNear flow_record.first flow_record.window segments events
        → StandsFor check flow_record flow events answers y given
        → IsAfter flow_record.first flow_record.window events answers fates
        → IsDrained flow
        → IsDeliverySequence frames chunks fates given }
    ensures ahead { (check : List ℕ → Bool) (frames chunks : List (List ℕ)) (fill : ℕ)
        (segments : List Segment) (flow_record : FlowRecord) (flow : Flow)
        (events : List FlowEvent) (answers : List Applied) (y : ℕ) (given : List (List ℕ))
        (fates : Fates)
        → IsLawfulCut check frames flow_record.first fill chunks segments
        → AreNear flow_record.first flow_record.window segments events
        → StandsFor check flow_record flow events answers y given
        → IsAfter flow_record.first flow_record.window events answers fates
        → (sequence : List (List ℕ)) × IsDeliverySequence frames chunks fates sequence
        × ((rest : List (List ℕ)) × (sequence ≡ given ++ rest)) }
{
    settled_segments_join_to_the_delivered_frames();
}

/// After every list of events a flow has one close, and it ends: gaps lose fewer segments than the
/// window is wide. A gap loses nothing exactly if the flow is closed.
pub fn flow_has_one_close()
    ensures some { (first width : ℕ) (events : List FlowEvent) (answers : List Applied)
        (fates : Fates)
        → IsAfter first width events answers fates
        → (after : Fates) × Closes first width fates after }
    ensures only { (first width : ℕ) (fates after other : Fates)
        → Closes first width fates after → Closes first width fates other → after ≡ other }
    ensures ends { (first width n : ℕ) (events : List FlowEvent) (answers gaps : List Applied)
        (fates after : Fates)
        → 1 ≤ width → IsAfter first width events answers fates
        → Leads first width fates (replicate n gap) gaps after
        → count_by says_lost gaps < width }
    ensures closed { (first x : ℕ) (fates after : Fates) (declared : Declared)
        → IsExpected fates x → Declares first x declared fates after
        → IsClosed fates ↔ (declared ≡ Declared.NothingHeld) }
{}

/// The index that a flow has come to is never after the expected one, and each segment that was
/// kept lies before it or less than the width of its window after it: no more segments than that
/// are next, one after another. Where nothing is skipped, the expected index too lies at most the
/// width after it: what lies between further on was skipped.
pub fn draining_ends()
    ensures onward { (check : List ℕ → Bool) (flow_record : FlowRecord) (flow : Flow)
        (events : List FlowEvent) (answers : List Applied) (x y : ℕ) (given : List (List ℕ))
        (fates : Fates)
        → StandsFor check flow_record flow events answers y given
        → IsAfter flow_record.first flow_record.window events answers fates
        → IsExpected fates x → y ≤ x }
    ensures kept { (check : List ℕ → Bool) (flow_record : FlowRecord) (flow : Flow)
        (events : List FlowEvent) (answers : List Applied) (i y : ℕ) (given : List (List ℕ))
        (fates : Fates)
        → StandsFor check flow_record flow events answers y given
        → IsAfter flow_record.first flow_record.window events answers fates
        → IsKept fates i → i < y + flow_record.window }
    ensures expected { (check : List ℕ → Bool) (flow_record : FlowRecord) (flow : Flow)
        (events : List FlowEvent) (answers : List Applied) (x y : ℕ) (given : List (List ℕ))
        (fates : Fates)
        → StandsFor check flow_record flow events answers y given
        → IsAfter flow_record.first flow_record.window events answers fates
        → IsExpected fates x → HaveNoSkip events → x ≤ y + flow_record.window }
    ensures skipped { (check : List ℕ → Bool) (flow_record : FlowRecord) (flow : Flow)
        (events : List FlowEvent) (answers : List Applied) (x y i : ℕ) (given : List (List ℕ))
        (fates : Fates)
        → StandsFor check flow_record flow events answers y given
        → IsAfter flow_record.first flow_record.window events answers fates
        → IsExpected fates x → y + flow_record.window ≤ i → i < x
        → IsSkippedBy flow_record.first flow_record.window events i }
{}

/// Two lists of events, one after the other, lead as the first one does and then the other.
pub fn events_lead_on_in_turn()
    ensures { (first width : ℕ) (events more : List FlowEvent) (answers : List Applied)
        (fates after : Fates)
        → Leads first width fates (events ++ more) answers after
        ↔ ((front : List Applied) × (back : List Applied) × (between : Fates)
        × Leads first width fates events front between
        × Leads first width between more back after
        × (answers ≡ front ++ back)) }
{}

/// A closed flow has come past each segment that was kept. So what it delivers are the frames whose
/// segments were all kept.
pub fn closed_flow_has_come_past_all_kept()
    ensures past { (fates : Fates) (x i : ℕ)
        → IsClosed fates → IsExpected fates x → IsKept fates i → i < x }
    ensures delivered { (frames chunks : List (List ℕ)) (fates : Fates) (x j : ℕ)
        → IsClosed fates → IsExpected fates x
        → IsDelivered frames chunks fates x j ↔ IsAllKept frames chunks fates j }
    ensures sequence { (frames chunks given : List (List ℕ)) (fates : Fates)
        → IsClosed fates
        → IsDeliverySequence frames chunks fates given
        ↔ FiltersTo (IsAllKept frames chunks fates) frames given }
{}

/// A gap is a gap up to the number after the expected one.
pub fn gap_is_a_gap_to_the_next_number()
    ensures { (first x : ℕ) (fates after : Fates) (declared : Declared)
        → IsExpected fates x → Declares first x declared fates after
        → (any : Bool) × DeclaresTo first x (number_of first (x + 1)) any fates after
        × (IsTrue any ↔ IsLoss declared) }
{}

/// A skip loses each open index before the one with its number, and leaves each kept segment as it
/// was. It then expects that index or a later one. It loses something exactly if the number lies
/// ahead of the expected one.
pub fn skip_loses_each_open_index_before_its_number()
    ensures lost { (first x number i end : ℕ) (fates after : Fates) (any : Bool)
        → IsExpected fates x → SkipsTo first x number any fates after
        → IsAhead first x number end → i < end → IsOpen fates i → IsLost after i }
    ensures kept { (first x number i : ℕ) (segment : Segment) (fates after : Fates) (any : Bool)
        → SkipsTo first x number any fates after
        → IsKeptAs after i segment ↔ IsKeptAs fates i segment }
    ensures expected { (first x y number end : ℕ) (fates after : Fates) (any : Bool)
        → IsExpected fates x → SkipsTo first x number any fates after
        → IsAhead first x number end → IsExpected after y → end ≤ y }
    ensures answer { (first x number : ℕ) (fates after : Fates) (any : Bool)
        → IsExpected fates x → SkipsTo first x number any fates after
        → IsTrue any ↔ ((end : ℕ) × (x < end) × IsAhead first x number end) }
{}

/// Where each open index before a number has a later kept one, a skip up to that number is a gap up
/// to it.
pub fn skip_is_a_gap_where_later_segments_were_kept()
    ensures { (first x number : ℕ) (fates after : Fates) (any : Bool)
        → ((i end : ℕ) → IsAhead first x number end → x ≤ i → i < end → IsOpen fates i
        → HasLaterKept fates i)
        → SkipsTo first x number any fates after ↔ DeclaresTo first x number any fates after }
{}

/// A skip up to the expected number, or to one that lies behind, changes nothing.
pub fn skip_to_the_expected_number_changes_nothing()
    ensures { (first x number : ℕ) (fates after : Fates) (any : Bool)
        → (number ≡ number_of first x) ⊎ ((end : ℕ) → ¬ (IsAhead first x number end))
        → SkipsTo first x number any fates after → (any ≡ false) × (after ≡ fates) }
{}

/// Near events stay near with gaps after them, or with any others of which none is an arrival.
pub fn gaps_after_keep_events_near()
    ensures gaps { (first width n : ℕ) (segments : List Segment) (events : List FlowEvent)
        → AreNear first width segments events
        → AreNear first width segments (events ++ replicate n gap) }
    ensures others { (first width : ℕ) (segments : List Segment) (events more : List FlowEvent)
        → AreNear first width segments events → HaveNoArrival more
        → AreNear first width segments (events ++ more) }
{}

/// What a flow gives by the definitions is one list of frames, and one record of counts.
pub fn flow_has_at_most_one_outcome()
    ensures { (check : List ℕ → Bool) (flow_record : FlowRecord) (events : List FlowEvent)
        (frames others : List (List ℕ)) (counts more : FlowCounts)
        → IsFlowOutcome check flow_record events frames counts
        → IsFlowOutcome check flow_record events others more
        → (frames ≡ others) × (counts ≡ more) }
{
    ccf::laws::joining_has_one_answer();
}

/// A drained flow that stands for some events has given what the definitions say.
pub fn drained_flow_has_its_outcome()
    ensures { (check : List ℕ → Bool) (flow_record : FlowRecord) (flow : Flow)
        (events : List FlowEvent) (answers : List Applied) (y : ℕ) (given : List (List ℕ))
        → StandsFor check flow_record flow events answers y given → IsDrained flow
        → IsFlowOutcome check flow_record events given flow.counts }
{}

/// What the definitions say that near events of a lawful cut give is the delivery sequence.
pub fn outcome_of_near_events_is_the_delivery_sequence()
    ensures { (check : List ℕ → Bool) (frames chunks : List (List ℕ)) (fill : ℕ)
        (segments : List Segment) (flow_record : FlowRecord) (events : List FlowEvent)
        (answers : List Applied) (given : List (List ℕ)) (counts : FlowCounts) (fates : Fates)
        → IsLawfulCut check frames flow_record.first fill chunks segments
        → AreNear flow_record.first flow_record.window segments events
        → IsFlowOutcome check flow_record events given counts
        → IsAfter flow_record.first flow_record.window events answers fates
        → IsDeliverySequence frames chunks fates given }
{
    settled_segments_join_to_the_delivered_frames();
}

/// Each index that was lost lies before the expected one, so the losses that a drained flow has
/// counted are all. A later one was kept, or a skip passed it: nothing else loses an index.
pub fn lost_indexes_lie_before_the_expected_one()
    ensures before { (first width x i : ℕ) (events : List FlowEvent) (answers : List Applied)
        (fates : Fates)
        → IsAfter first width events answers fates → IsExpected fates x
        → IsLost fates i → i < x }
    ensures later_kept { (first width i : ℕ) (events : List FlowEvent) (answers : List Applied)
        (fates : Fates)
        → IsAfter first width events answers fates → HaveNoSkip events
        → IsLost fates i → HasLaterKept fates i }
    ensures skipped { (first width i : ℕ) (events : List FlowEvent) (answers : List Applied)
        (fates : Fates)
        → IsAfter first width events answers fates
        → IsLost fates i → HasLaterKept fates i ⊎ IsSkippedBy first width events i }
{}

/// However many gaps close a flow, the frames and the counts are the same.
pub fn closed_flow_has_one_outcome()
    ensures { (check : List ℕ → Bool) (flow_record : FlowRecord) (n m : ℕ)
        (events : List FlowEvent) (frames others : List (List ℕ)) (counts more : FlowCounts)
        → (one : IsFlowOutcome check flow_record (events ++ replicate n gap) frames counts)
        → (other : IsFlowOutcome check flow_record (events ++ replicate m gap) others more)
        → IsClosed one.fates → IsClosed other.fates
        → (frames ≡ others) × (counts ≡ more) }
{
    ccf::laws::joining_has_one_answer();
}

/// **What a closed flow gave.** For every modem's frames, every lawful cut of them and every near
/// list of events: with gaps after them until the flow is closed, what it gives by the
/// definitions is exactly the modem's frames whose segments were all kept, in the modem's order.
pub fn closed_flow_gives_the_frames_that_were_all_kept()
    ensures { (check : List ℕ → Bool) (frames chunks : List (List ℕ)) (fill n : ℕ)
        (segments : List Segment) (flow_record : FlowRecord) (events : List FlowEvent)
        (given : List (List ℕ)) (counts : FlowCounts)
        → IsLawfulCut check frames flow_record.first fill chunks segments
        → AreNear flow_record.first flow_record.window segments events
        → (outcome : IsFlowOutcome check flow_record (events ++ replicate n gap) given counts)
        → IsClosed outcome.fates
        → FiltersTo (IsAllKept frames chunks outcome.fates) frames given }
{
    gaps_after_keep_events_near();
    outcome_of_near_events_is_the_delivery_sequence();
    closed_flow_has_come_past_all_kept();
}

/// Gaps neither keep a segment nor drop one: the segments that were kept are the same before a
/// close and after it.
pub fn gaps_leave_what_was_kept()
    ensures { (first width n i : ℕ) (answers : List Applied) (fates after : Fates)
        → Leads first width fates (replicate n gap) answers after
        → IsKept after i ↔ IsKept fates i }
{}

/// What is decided about a flow to which no segment came changes nothing, as long as nothing is
/// skipped: no index is kept or lost, a new flow stands for such events as it is, and what they
/// give, with any gaps after them, is no frame and no count, and the flow is closed.
pub fn decisions_about_an_empty_flow_change_nothing()
    ensures fates { (first width : ℕ) (events : List FlowEvent) (answers : List Applied)
        (fates : Fates)
        → IsAfter first width events answers fates → HaveNoArrival events → HaveNoSkip events
        → fates ≡ no_fates }
    ensures stands { (check : List ℕ → Bool) (flow_record : FlowRecord) (flow : Flow)
        (events : List FlowEvent) (answers : List Applied) (fates : Fates)
        → StandsFor check flow_record flow [] [] 0 []
        → IsAfter flow_record.first flow_record.window events answers fates
        → HaveNoArrival events → HaveNoSkip events
        → StandsFor check flow_record flow events answers 0 [] }
    ensures outcome { (check : List ℕ → Bool) (flow_record : FlowRecord)
        (events : List FlowEvent) (n : ℕ)
        → HaveNoArrival events → HaveNoSkip events
        → (outcome : IsFlowOutcome check flow_record (events ++ replicate n gap) [] no_counts)
        × IsClosed outcome.fates }
{}

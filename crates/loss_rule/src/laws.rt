//! Laws about the rule: what it makes of all that comes is one thing, it loses nothing that still
//! comes, and where each segment falls into the window, a closed flow has given the modem's frames
//! of which each segment came.
//!
//! Each function states a law in its contract; its body is empty or only calls other laws.
ghost use Rattle.std.specs.Prelude.{◌≡◌, ◌≢◌, ◌↔◌, ◌⊎◌, ◌+◌, ◌*◌, ◌<◌, ◌≤◌, [], ◌∷◌, ◌++◌, ℕ};
ghost use Rattle.std.specs.Prelude.{Bool, true, false, Some, List, map, length, replicate};
ghost use Rattle.std.specs.Prelude.{slice_get};
ghost use Rattle.docsis_wire.specs.declared.segment.Segment.{Segment};
ghost use Rattle.docsis_wire.specs.Cut.{IsLawfulCut};
ghost use Rattle.ccf.specs.Filter.{FiltersTo};
ghost use Rattle.reorder.specs.Limits.{width_max};
ghost use Rattle.reorder.specs.declared.verdict.Verdict.{Verdict};
ghost use Rattle.flow_core.specs.declared.event.Applied.{Applied};
ghost use Rattle.flow_core.specs.declared.counts.FlowCounts.{FlowCounts};
ghost use Rattle.flow_records.specs.declared.record.FlowRecord.{FlowRecord};
ghost use Rattle.flow_core.specs.Fates.{Fates, IsKept, IsKeptAs, IsLost, IsExpected};
ghost use Rattle.flow_core.specs.Events.{FlowEvent, arrives, gap, IsAhead, Leads, IsAfter};
ghost use Rattle.flow_core.specs.Near.{AreNear};
ghost use Rattle.flow_core.specs.Closing.{IsClosed};
ghost use Rattle.flow_core.specs.Outcome.{IsFlowOutcome};
ghost use Rattle.loss_rule.specs.declared.rule.LossRule.{LossRule};
ghost use Rattle.loss_rule.specs.Rule.{Coming, on_channel, RuledFlow, HasChannel, Lasts, IsLastOn};
ghost use Rattle.loss_rule.specs.Rule.{IsPassed, HaveComeTo, Notes, IsPassing, IsSliding, AreSkips};
ghost use Rattle.loss_rule.specs.Rule.{IsRuled, Rules, AreRuled, own_event};
ghost use Rattle.loss_rule.specs.InOrder.{Comes, AreInChannelOrder, ComeNear, ComeWithin};
ghost use Rattle.loss_rule.specs.InOrder.{NeedNoSlide, FallIntoTheWindow, FitTheWindow};
ghost use Rattle.loss_rule.specs.InOrder.{HaveShortOutages, SlideSafely, NeverComes, IsOvertaken};
ghost use Rattle.loss_rule.specs.InOrder.{IsAllCome};
ghost use Rattle.loss_rule.specs.InOrder.{HaveNoDecision, HandInDecisions, DecideSafely};
ghost use Rattle.loss_rule.specs.InOrder.{DecideThePast};
ghost use Rattle.loss_rule.specs.Dealing.{AreSpread, dealt, dealt_out, AreDealtOut, AreSpreadOut};
ghost use Rattle.loss_rule.specs.Dealing.{RiseOverOutages, two_of_three, channel_of_three};

/// Whatever comes to a flow, the rule makes one list of events of it, and leads to one last index
/// of each channel and one fate of each index. The events lead to those fates.
pub fn ruled_events_are_one()
    ensures some { (rule : LossRule) (flow : RuledFlow) (comings : List Coming)
        → (events : List FlowEvent) × (noted : Lasts) × (fates : Fates)
        × AreRuled rule flow comings events noted fates }
    ensures only { (rule : LossRule) (flow : RuledFlow) (comings : List Coming)
        (events others : List FlowEvent) (noted more : Lasts) (fates after : Fates)
        → AreRuled rule flow comings events noted fates
        → AreRuled rule flow comings others more after
        → (events ≡ others) × (noted ≡ more) × (fates ≡ after) }
    ensures after { (rule : LossRule) (flow : RuledFlow) (comings : List Coming)
        (events : List FlowEvent) (noted : Lasts) (fates : Fates)
        → AreRuled rule flow comings events noted fates
        → (answers : List Applied) × IsAfter flow.first flow.width events answers fates }
{}

/// Two lists of what comes, one after the other, are ruled as the first one is and then the other.
pub fn comings_are_ruled_in_turn()
    ensures { (rule : LossRule) (flow : RuledFlow) (lasts noted : Lasts) (fates after : Fates)
        (comings more : List Coming) (events : List FlowEvent)
        → Rules rule flow lasts fates (comings ++ more) events noted after
        ↔ ((front : List FlowEvent) × (back : List FlowEvent)
        × (between_lasts : Lasts) × (between : Fates)
        × Rules rule flow lasts fates comings front between_lasts between
        × Rules rule flow between_lasts between more back noted after
        × (events ≡ front ++ back)) }
{}

/// What is skipped before a segment arrives is one thing, step by step. What every channel has
/// passed there is to skip, or nothing, and only that; likewise what the window loses as it slides.
/// So a segment that comes where x is the expected index makes just these events: by `Passed` it is
/// noted, then comes the first skip, then the segment arrives; by `PassedOrSlid` the window slides
/// between the two, from the index that is expected then; by `Decided` it arrives and no more.
pub fn skips_are_one()
    ensures passing { (flow : RuledFlow) (noted : Lasts) (x : ℕ)
        → (skips : List FlowEvent) × IsPassing flow noted x skips }
    ensures passing_only { (flow : RuledFlow) (noted : Lasts) (x : ℕ)
        (skips others : List FlowEvent)
        → IsPassing flow noted x skips → IsPassing flow noted x others → skips ≡ others }
    ensures sliding { (flow : RuledFlow) (x number : ℕ)
        → (skips : List FlowEvent) × IsSliding flow x number skips }
    ensures sliding_only { (flow : RuledFlow) (x number : ℕ) (skips others : List FlowEvent)
        → IsSliding flow x number skips → IsSliding flow x number others → skips ≡ others }
    ensures decided { (flow : RuledFlow) (lasts noted : Lasts) (fates : Fates) (channel : ℕ)
        (segment : Segment) (events : List FlowEvent)
        → IsRuled LossRule.Decided flow lasts fates (on_channel channel segment) events noted
        → events ≡ arrives segment ∷ [] }
    ensures passed { (flow : RuledFlow) (lasts noted : Lasts) (fates : Fates) (x channel : ℕ)
        (segment : Segment) (events : List FlowEvent)
        → IsExpected fates x
        → IsRuled LossRule.Passed flow lasts fates (on_channel channel segment) events noted
        → (passing : List FlowEvent)
        × Notes flow.first x channel segment.head.sequence lasts noted
        × IsPassing flow noted x passing × (events ≡ passing ++ arrives segment ∷ []) }
    ensures slid { (flow : RuledFlow) (lasts noted : Lasts) (fates : Fates) (x channel : ℕ)
        (segment : Segment) (events : List FlowEvent)
        → IsExpected fates x
        → IsRuled LossRule.PassedOrSlid flow lasts fates (on_channel channel segment) events noted
        → (passing sliding : List FlowEvent) × (answers : List Applied) × (between : Fates)
        × (y : ℕ) × Notes flow.first x channel segment.head.sequence lasts noted
        × IsPassing flow noted x passing
        × Leads flow.first flow.width fates passing answers between × IsExpected between y
        × IsSliding flow y segment.head.sequence sliding
        × (events ≡ (passing ++ sliding) ++ arrives segment ∷ []) }
{}

/// Where decisions that are handed in decide alone, the events are just what came, one for one.
pub fn decided_rule_adds_nothing()
    ensures events { (flow : RuledFlow) (comings : List Coming) (events : List FlowEvent)
        (noted : Lasts) (fates : Fates)
        → AreRuled LossRule.Decided flow comings events noted fates
        → events ≡ map own_event comings }
    ensures ruled { (flow : RuledFlow) (comings : List Coming) (answers : List Applied)
        (fates : Fates)
        → IsAfter flow.first flow.width (map own_event comings) answers fates
        → (noted : Lasts)
        × AreRuled LossRule.Decided flow comings (map own_event comings) noted fates }
{}

/// **Safe: the rule loses nothing that still comes.** In a near list in channel order of one lawful
/// cut, an index that the skips before a segment lose is neither that segment's nor that of a later
/// one. So where the decisions that are handed in are safe too, no segment is late and none a
/// repeat: each is kept, or lies beyond the window. Where each segment falls into the window, no
/// skip loses one that comes then or later, nor does the window as it slides.
pub fn rule_loses_nothing_that_still_comes()
    ensures lost { (check : List ℕ → Bool) (frames chunks : List (List ℕ)) (fill : ℕ)
        (segments : List Segment) (flow : RuledFlow) (before behind : List Coming)
        (index_at : ℕ → ℕ) (channel other q x : ℕ) (segment another : Segment)
        (events skips : List FlowEvent) (answers : List Applied) (lasts noted : Lasts)
        (fates after : Fates)
        → IsLawfulCut check frames flow.first fill chunks segments
        → AreInChannelOrder flow segments (before ++ on_channel channel segment ∷ behind) index_at
        → ComeNear LossRule.Passed flow (before ++ on_channel channel segment ∷ behind) index_at
        → AreRuled LossRule.Passed flow before events lasts fates → IsExpected fates x
        → Notes flow.first x channel segment.head.sequence lasts noted
        → AreSkips LossRule.Passed flow noted fates segment.head.sequence skips
        → Leads flow.first flow.width fates skips answers after
        → Comes (before ++ on_channel channel segment ∷ behind) q other another
        → length before ≤ q → IsLost after (index_at q) → IsLost fates (index_at q) }
    ensures verdicts { (check : List ℕ → Bool) (frames chunks : List (List ℕ)) (fill : ℕ)
        (segments : List Segment) (flow : RuledFlow) (comings : List Coming)
        (index_at : ℕ → ℕ) (events : List FlowEvent) (answers : List Applied) (noted : Lasts)
        (fates : Fates) (k : ℕ) (verdict : Verdict Segment)
        → IsLawfulCut check frames flow.first fill chunks segments
        → AreInChannelOrder flow segments comings index_at
        → ComeNear LossRule.Passed flow comings index_at
        → DecideSafely LossRule.Passed flow comings index_at
        → AreRuled LossRule.Passed flow comings events noted fates
        → IsAfter flow.first flow.width events answers fates
        → slice_get answers k ≡ Some (Applied.Arrival verdict)
        → (verdict ≡ Verdict.Kept) ⊎ ((back : Segment) × (verdict ≡ Verdict.Beyond back)) }
    ensures falls { (check : List ℕ → Bool) (frames chunks : List (List ℕ)) (fill : ℕ)
        (segments : List Segment) (rule : LossRule) (flow : RuledFlow) (comings : List Coming)
        (before behind : List Coming) (index_at : ℕ → ℕ) (channel other q x : ℕ)
        (segment another : Segment) (events skips : List FlowEvent) (answers : List Applied)
        (lasts noted : Lasts) (fates after : Fates)
        → rule ≢ LossRule.Decided → flow.width ≤ width_max
        → IsLawfulCut check frames flow.first fill chunks segments
        → AreInChannelOrder flow segments comings index_at
        → FallIntoTheWindow rule flow comings index_at
        → DecideSafely rule flow comings index_at
        → comings ≡ before ++ on_channel channel segment ∷ behind
        → AreRuled rule flow before events lasts fates → IsExpected fates x
        → Notes flow.first x channel segment.head.sequence lasts noted
        → AreSkips rule flow noted fates segment.head.sequence skips
        → Leads flow.first flow.width fates skips answers after
        → Comes comings q other another → length before ≤ q → ¬ (IsLost after (index_at q)) }
{}

/// Where what comes in channel order comes near, all its events are near. So what is said of near
/// events holds of them: what a drained flow gave is the delivery sequence.
pub fn near_comings_make_near_events()
    ensures { (check : List ℕ → Bool) (frames chunks : List (List ℕ)) (fill : ℕ)
        (segments : List Segment) (rule : LossRule) (flow : RuledFlow) (comings : List Coming)
        (index_at : ℕ → ℕ) (events : List FlowEvent) (noted : Lasts) (fates : Fates)
        → 1 ≤ flow.width → flow.width ≤ width_max
        → IsLawfulCut check frames flow.first fill chunks segments
        → AreInChannelOrder flow segments comings index_at
        → ComeNear rule flow comings index_at → HandInDecisions comings
        → AreRuled rule flow comings events noted fates
        → AreNear flow.first flow.width segments events }
{}

/// **Nothing that came is dropped.** In a list in channel order of one lawful cut, where decisions
/// that are handed in are safe and each segment falls into the window: each segment comes near the
/// expected index and is kept under its own, and nothing else is kept. So no segment is late,
/// beyond the window or a repeat. By `PassedOrSlid` that holds over outages longer than the window.
pub fn all_that_comes_is_kept()
    ensures near { (check : List ℕ → Bool) (frames chunks : List (List ℕ)) (fill : ℕ)
        (segments : List Segment) (rule : LossRule) (flow : RuledFlow) (comings : List Coming)
        (index_at : ℕ → ℕ)
        → rule ≢ LossRule.Decided → flow.width ≤ width_max
        → IsLawfulCut check frames flow.first fill chunks segments
        → AreInChannelOrder flow segments comings index_at
        → FallIntoTheWindow rule flow comings index_at
        → DecideSafely rule flow comings index_at
        → ComeNear rule flow comings index_at }
    ensures kept { (check : List ℕ → Bool) (frames chunks : List (List ℕ)) (fill : ℕ)
        (segments : List Segment) (rule : LossRule) (flow : RuledFlow) (comings : List Coming)
        (index_at : ℕ → ℕ) (events : List FlowEvent) (noted : Lasts) (fates : Fates)
        (p channel : ℕ) (segment : Segment)
        → rule ≢ LossRule.Decided → flow.width ≤ width_max
        → IsLawfulCut check frames flow.first fill chunks segments
        → AreInChannelOrder flow segments comings index_at
        → FallIntoTheWindow rule flow comings index_at
        → DecideSafely rule flow comings index_at
        → AreRuled rule flow comings events noted fates
        → Comes comings p channel segment → IsKeptAs fates (index_at p) segment }
    ensures came { (check : List ℕ → Bool) (frames chunks : List (List ℕ)) (fill : ℕ)
        (segments : List Segment) (rule : LossRule) (flow : RuledFlow) (comings : List Coming)
        (index_at : ℕ → ℕ) (events : List FlowEvent) (noted : Lasts) (fates : Fates) (i : ℕ)
        → rule ≢ LossRule.Decided → flow.width ≤ width_max
        → IsLawfulCut check frames flow.first fill chunks segments
        → AreInChannelOrder flow segments comings index_at
        → FallIntoTheWindow rule flow comings index_at
        → DecideSafely rule flow comings index_at
        → AreRuled rule flow comings events noted fates → IsKept fates i
        → (p channel : ℕ) × (segment : Segment)
        × Comes comings p channel segment × (index_at p ≡ i) }
    ensures verdicts { (check : List ℕ → Bool) (frames chunks : List (List ℕ)) (fill : ℕ)
        (segments : List Segment) (rule : LossRule) (flow : RuledFlow) (comings : List Coming)
        (index_at : ℕ → ℕ) (events : List FlowEvent) (answers : List Applied) (noted : Lasts)
        (fates : Fates) (k : ℕ) (verdict : Verdict Segment)
        → rule ≢ LossRule.Decided → flow.width ≤ width_max
        → IsLawfulCut check frames flow.first fill chunks segments
        → AreInChannelOrder flow segments comings index_at
        → FallIntoTheWindow rule flow comings index_at
        → DecideSafely rule flow comings index_at
        → AreRuled rule flow comings events noted fates
        → IsAfter flow.first flow.width events answers fates
        → slice_get answers k ≡ Some (Applied.Arrival verdict) → verdict ≡ Verdict.Kept }
{}

/// **What a closed flow gave, of all that came.** For every modem's frames, every lawful cut of
/// them and every list in channel order that falls into the window, with safe decisions: with gaps
/// after the rule's events until the flow is closed, what it gives by the definitions is exactly
/// the modem's frames of which each segment came, in the modem's order.
pub fn closed_flow_gives_the_frames_that_all_came()
    ensures { (check : List ℕ → Bool) (frames chunks : List (List ℕ)) (fill n : ℕ)
        (segments : List Segment) (rule : LossRule) (flow : RuledFlow) (flow_record : FlowRecord)
        (comings : List Coming) (index_at : ℕ → ℕ) (events : List FlowEvent) (noted : Lasts)
        (fates : Fates) (given : List (List ℕ)) (counts : FlowCounts)
        → rule ≢ LossRule.Decided → flow.width ≤ width_max
        → flow_record.first ≡ flow.first → flow_record.window ≡ flow.width
        → IsLawfulCut check frames flow.first fill chunks segments
        → AreInChannelOrder flow segments comings index_at
        → FallIntoTheWindow rule flow comings index_at
        → DecideSafely rule flow comings index_at
        → AreRuled rule flow comings events noted fates
        → (outcome : IsFlowOutcome check flow_record (events ++ replicate n gap) given counts)
        → IsClosed outcome.fates
        → FiltersTo (IsAllCome frames chunks comings index_at) frames given }
{
    flow_core::laws::closed_flow_gives_the_frames_that_were_all_kept();
    flow_core::laws::gaps_leave_what_was_kept();
}

/// An index that never comes is lost, once every channel of the flow has come past it. So it is
/// where, of all that comes, each channel brings a later one.
pub fn index_that_never_comes_is_lost()
    ensures lost { (check : List ℕ → Bool) (frames chunks : List (List ℕ)) (fill : ℕ)
        (segments : List Segment) (rule : LossRule) (flow : RuledFlow) (comings : List Coming)
        (index_at : ℕ → ℕ) (events : List FlowEvent) (noted : Lasts) (fates : Fates)
        (least i : ℕ)
        → rule ≢ LossRule.Decided → 1 ≤ flow.width → flow.width ≤ width_max
        → IsLawfulCut check frames flow.first fill chunks segments
        → AreInChannelOrder flow segments comings index_at
        → ComeNear rule flow comings index_at → HandInDecisions comings
        → AreRuled rule flow comings events noted fates
        → HaveComeTo flow noted least → i < least
        → NeverComes comings index_at i → IsLost fates i }
    ensures overtaken { (check : List ℕ → Bool) (frames chunks : List (List ℕ)) (fill : ℕ)
        (segments : List Segment) (rule : LossRule) (flow : RuledFlow) (comings : List Coming)
        (index_at : ℕ → ℕ) (events : List FlowEvent) (noted : Lasts) (fates : Fates)
        (own i : ℕ)
        → rule ≢ LossRule.Decided → flow.width ≤ width_max
        → IsLawfulCut check frames flow.first fill chunks segments
        → AreInChannelOrder flow segments comings index_at
        → FallIntoTheWindow rule flow comings index_at
        → DecideSafely rule flow comings index_at
        → AreRuled rule flow comings events noted fates
        → HasChannel flow own → IsOvertaken flow comings index_at i
        → NeverComes comings index_at i → IsLost fates i }
{}

/// What fits the window, said of the comings alone, falls into it by the rule, and comes near.
pub fn segments_that_fit_the_window_fall_into_it()
    ensures fall { (check : List ℕ → Bool) (frames chunks : List (List ℕ)) (fill : ℕ)
        (segments : List Segment) (rule : LossRule) (flow : RuledFlow) (comings : List Coming)
        (index_at : ℕ → ℕ)
        → rule ≢ LossRule.Decided → flow.width ≤ width_max
        → IsLawfulCut check frames flow.first fill chunks segments
        → AreInChannelOrder flow segments comings index_at
        → FitTheWindow flow comings index_at → DecideSafely rule flow comings index_at
        → FallIntoTheWindow rule flow comings index_at }
    ensures near { (check : List ℕ → Bool) (frames chunks : List (List ℕ)) (fill : ℕ)
        (segments : List Segment) (rule : LossRule) (flow : RuledFlow) (comings : List Coming)
        (index_at : ℕ → ℕ)
        → rule ≢ LossRule.Decided → flow.width ≤ width_max
        → IsLawfulCut check frames flow.first fill chunks segments
        → AreInChannelOrder flow segments comings index_at
        → FitTheWindow flow comings index_at → DecideSafely rule flow comings index_at
        → ComeNear rule flow comings index_at }
{}

/// What falls into the window by the rule that slides: all that comes in channel order, if no
/// segment comes after one whose index is the window's width or more greater, and each lies at most
/// 4,096 less the window's width after one that came before it; so the wider the window, the
/// shorter are these outages. So does all that comes near, if no slide loses one that still comes.
/// Where no window has to slide all falls into it by either rule. Segments that are dealt in any
/// way over channels of the flow, and come in the modem's order over such outages, meet every
/// premise at once.
pub fn segments_after_an_outage_fall_into_a_window_that_slides()
    ensures outage { (check : List ℕ → Bool) (frames chunks : List (List ℕ)) (fill : ℕ)
        (segments : List Segment) (flow : RuledFlow) (comings : List Coming) (index_at : ℕ → ℕ)
        → IsLawfulCut check frames flow.first fill chunks segments
        → AreInChannelOrder flow segments comings index_at
        → ComeWithin comings index_at flow.width → HaveShortOutages flow comings index_at
        → DecideSafely LossRule.PassedOrSlid flow comings index_at
        → FallIntoTheWindow LossRule.PassedOrSlid flow comings index_at }
    ensures safe { (check : List ℕ → Bool) (frames chunks : List (List ℕ)) (fill : ℕ)
        (segments : List Segment) (flow : RuledFlow) (comings : List Coming) (index_at : ℕ → ℕ)
        → 1 ≤ flow.width → IsLawfulCut check frames flow.first fill chunks segments
        → AreInChannelOrder flow segments comings index_at
        → ComeNear LossRule.PassedOrSlid flow comings index_at
        → SlideSafely flow comings index_at
        → DecideSafely LossRule.PassedOrSlid flow comings index_at
        → FallIntoTheWindow LossRule.PassedOrSlid flow comings index_at }
    ensures no_slide { (check : List ℕ → Bool) (frames chunks : List (List ℕ)) (fill : ℕ)
        (segments : List Segment) (rule : LossRule) (flow : RuledFlow) (comings : List Coming)
        (index_at : ℕ → ℕ)
        → rule ≢ LossRule.Decided → flow.width ≤ width_max
        → IsLawfulCut check frames flow.first fill chunks segments
        → AreInChannelOrder flow segments comings index_at
        → NeedNoSlide rule flow comings index_at → DecideSafely rule flow comings index_at
        → FallIntoTheWindow rule flow comings index_at }
    ensures dealt_out { (check : List ℕ → Bool) (frames chunks : List (List ℕ)) (fill : ℕ)
        (segments : List Segment) (flow : RuledFlow) (channel_of index_at : ℕ → ℕ) (n : ℕ)
        → 1 ≤ flow.width → IsLawfulCut check frames flow.first fill chunks segments
        → AreDealtOut flow channel_of index_at segments n
        → RiseOverOutages flow.width index_at n
        → AreInChannelOrder flow segments (dealt_out channel_of index_at segments n) index_at
        × FallIntoTheWindow LossRule.PassedOrSlid flow
        (dealt_out channel_of index_at segments n) index_at
        × DecideSafely LossRule.PassedOrSlid flow
        (dealt_out channel_of index_at segments n) index_at }
{}

/// Which decisions are safe: none at all, and those about the past.
pub fn decisions_about_the_past_are_safe()
    ensures undecided { (rule : LossRule) (flow : RuledFlow) (comings : List Coming)
        (index_at : ℕ → ℕ)
        → HaveNoDecision comings → DecideSafely rule flow comings index_at }
    ensures of_the_past { (rule : LossRule) (flow : RuledFlow) (comings : List Coming)
        (index_at : ℕ → ℕ)
        → HandInDecisions comings → DecideThePast rule flow comings index_at
        → DecideSafely rule flow comings index_at }
{}

/// When what comes fits the window: let each channel of the flow bring one of any `m` segments that
/// the modem sent one after another, and let none come after one that was sent `d` or more later;
/// then a window of `d + m` is wide enough. Segments that are dealt in turn over the channels are
/// in channel order and have no decision, and fit a window that is wider than there are channels.
/// So a whole cut that is dealt so meets every premise at once. So do segments that are dealt in
/// any way over some of the channels, with some of them lost and some late; one such way, by which
/// a third is lost and each other pair swapped, is dealt over two of three channels.
pub fn spread_segments_fit_the_window()
    ensures spread { (segments : List Segment) (flow : RuledFlow) (comings : List Coming)
        (index_at : ℕ → ℕ) (d m : ℕ)
        → d + m ≤ flow.width → flow.width ≤ width_max
        → AreInChannelOrder flow segments comings index_at
        → AreSpread flow comings index_at m → ComeWithin comings index_at d
        → FitTheWindow flow comings index_at }
    ensures turns { (segments : List Segment) (flow : RuledFlow) (count : ℕ)
        → 1 ≤ count → flow.channels ≡ replicate count true
        → AreInChannelOrder flow segments (dealt count segments) (λ p. p) }
    ensures in_turns { (segments : List Segment) (flow : RuledFlow) (count : ℕ)
        → 1 ≤ count → count < flow.width → flow.width ≤ width_max
        → flow.channels ≡ replicate count true
        → FitTheWindow flow (dealt count segments) (λ p. p) }
    ensures unbroken { (segments : List Segment) (count : ℕ)
        → HaveNoDecision (dealt count segments) }
    ensures dealt { (check : List ℕ → Bool) (frames chunks : List (List ℕ)) (fill : ℕ)
        (segments : List Segment) (rule : LossRule) (flow : RuledFlow) (count : ℕ)
        → rule ≢ LossRule.Decided
        → 1 ≤ count → count < flow.width → flow.width ≤ width_max
        → flow.channels ≡ replicate count true
        → IsLawfulCut check frames flow.first fill chunks segments
        → AreInChannelOrder flow segments (dealt count segments) (λ p. p)
        × FallIntoTheWindow rule flow (dealt count segments) (λ p. p)
        × ComeNear rule flow (dealt count segments) (λ p. p)
        × DecideSafely rule flow (dealt count segments) (λ p. p) }
    ensures dealt_out { (check : List ℕ → Bool) (frames chunks : List (List ℕ)) (fill : ℕ)
        (segments : List Segment) (rule : LossRule) (flow : RuledFlow)
        (channel_of index_at : ℕ → ℕ) (n m d : ℕ)
        → rule ≢ LossRule.Decided → d + m ≤ flow.width → flow.width ≤ width_max
        → IsLawfulCut check frames flow.first fill chunks segments
        → AreDealtOut flow channel_of index_at segments n
        → AreSpreadOut flow channel_of index_at n m d
        → AreInChannelOrder flow segments (dealt_out channel_of index_at segments n) index_at
        × FallIntoTheWindow rule flow (dealt_out channel_of index_at segments n) index_at
        × ComeNear rule flow (dealt_out channel_of index_at segments n) index_at
        × DecideSafely rule flow (dealt_out channel_of index_at segments n) index_at }
    ensures two_of_three { (segments : List Segment) (flow : RuledFlow) (n : ℕ)
        → flow.channels ≡ true ∷ false ∷ true ∷ [] → 3 * n ≤ length segments
        → AreDealtOut flow channel_of_three two_of_three segments (2 * n)
        × AreSpreadOut flow channel_of_three two_of_three (2 * n) 3 2 }
{}

/// **Prompt: the flow never waits for what can no longer come.** Where a flow has a channel, an
/// index that all its channels have passed is kept or lost. So the expected index is none of these.
/// After each segment every index before the least of the channels' last ones is kept or lost, and
/// by `Passed` just such an index is lost. Of a segment whose number lies behind nothing is noted.
pub fn flow_never_waits_for_what_can_no_longer_come()
    ensures settled { (rule : LossRule) (flow : RuledFlow) (comings : List Coming)
        (events : List FlowEvent) (noted : Lasts) (fates : Fates) (own i : ℕ)
        → rule ≢ LossRule.Decided → AreRuled rule flow comings events noted fates
        → HasChannel flow own → IsPassed flow noted i → IsKept fates i ⊎ IsLost fates i }
    ensures expected { (rule : LossRule) (flow : RuledFlow) (comings : List Coming)
        (events : List FlowEvent) (noted : Lasts) (fates : Fates) (own x : ℕ)
        → rule ≢ LossRule.Decided → AreRuled rule flow comings events noted fates
        → HasChannel flow own → IsExpected fates x → ¬ (IsPassed flow noted x) }
    ensures passed { (rule : LossRule) (flow : RuledFlow) (comings : List Coming)
        (events : List FlowEvent) (noted : Lasts) (fates : Fates) (least i : ℕ)
        → rule ≢ LossRule.Decided → AreRuled rule flow comings events noted fates
        → HaveComeTo flow noted least → i < least → IsKept fates i ⊎ IsLost fates i }
    ensures just { (flow : RuledFlow) (before : List Coming) (events own : List FlowEvent)
        (lasts noted : Lasts) (fates after : Fates) (channel i : ℕ) (segment : Segment)
        (answers : List Applied)
        → AreRuled LossRule.Passed flow before events lasts fates
        → IsRuled LossRule.Passed flow lasts fates (on_channel channel segment) own noted
        → Leads flow.first flow.width fates own answers after → IsLost after i
        → IsLost fates i ⊎ ((least : ℕ) × HaveComeTo flow noted least × (i < least)) }
    ensures behind { (rule : LossRule) (flow : RuledFlow) (lasts noted : Lasts) (fates : Fates)
        (own : List FlowEvent) (channel x index : ℕ) (segment : Segment)
        → IsRuled rule flow lasts fates (on_channel channel segment) own noted
        → IsExpected fates x
        → ((i : ℕ) → ¬ (IsAhead flow.first x segment.head.sequence i))
        → ¬ (IsLastOn noted channel index) }
{}

/// **Never stuck, where the window slides.** A segment that comes is never beyond the window. Once
/// it came, each index that lies the width of the window or more before its own is kept or lost: a
/// flow never holds its head back for longer. And its own is kept, if its number lay ahead. Lost is
/// just such an index, or one before the least of the channels' last ones.
pub fn sliding_flow_is_never_stuck()
    ensures beyond { (flow : RuledFlow) (before : List Coming) (events own : List FlowEvent)
        (lasts noted : Lasts) (fates after : Fates) (channel k : ℕ) (segment back : Segment)
        (answers : List Applied)
        → 1 ≤ flow.width → AreRuled LossRule.PassedOrSlid flow before events lasts fates
        → IsRuled LossRule.PassedOrSlid flow lasts fates (on_channel channel segment) own noted
        → Leads flow.first flow.width fates own answers after
        → ¬ (slice_get answers k ≡ Some (Applied.Arrival (Verdict.Beyond back))) }
    ensures settled { (flow : RuledFlow) (before : List Coming) (events own : List FlowEvent)
        (lasts noted : Lasts) (fates after : Fates) (channel x i j : ℕ) (segment : Segment)
        (answers : List Applied)
        → 1 ≤ flow.width → AreRuled LossRule.PassedOrSlid flow before events lasts fates
        → IsRuled LossRule.PassedOrSlid flow lasts fates (on_channel channel segment) own noted
        → Leads flow.first flow.width fates own answers after
        → IsExpected fates x → IsAhead flow.first x segment.head.sequence i
        → j + flow.width ≤ i → IsKept after j ⊎ IsLost after j }
    ensures kept { (flow : RuledFlow) (before : List Coming) (events own : List FlowEvent)
        (lasts noted : Lasts) (fates after : Fates) (channel x i : ℕ) (segment : Segment)
        (answers : List Applied)
        → 1 ≤ flow.width → AreRuled LossRule.PassedOrSlid flow before events lasts fates
        → IsRuled LossRule.PassedOrSlid flow lasts fates (on_channel channel segment) own noted
        → Leads flow.first flow.width fates own answers after → HasChannel flow channel
        → IsExpected fates x → IsAhead flow.first x segment.head.sequence i → IsKept after i }
    ensures just { (flow : RuledFlow) (before : List Coming) (events own : List FlowEvent)
        (lasts noted : Lasts) (fates after : Fates) (channel x i : ℕ) (segment : Segment)
        (answers : List Applied)
        → 1 ≤ flow.width → flow.width ≤ width_max
        → AreRuled LossRule.PassedOrSlid flow before events lasts fates
        → IsRuled LossRule.PassedOrSlid flow lasts fates (on_channel channel segment) own noted
        → Leads flow.first flow.width fates own answers after → HasChannel flow channel
        → IsExpected fates x → IsLost after i
        → IsLost fates i ⊎ ((least : ℕ) × HaveComeTo flow noted least × (i < least))
        ⊎ ((k : ℕ) × IsAhead flow.first x segment.head.sequence k × (i + flow.width ≤ k)) }
{}

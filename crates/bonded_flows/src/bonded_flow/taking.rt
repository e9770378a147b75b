//! What comes to a flow.
ghost use Rattle.std.specs.Prelude.{◌≡◌, ◌<◌, ◌≢◌, ◌∷◌, [], ◌++◌, ℕ, Bool, List, IfOk};
ghost use Rattle.docsis_wire.specs.Limits.{sequence_modulus};
ghost use Rattle.docsis_wire.specs.Ready.{IsReady};
ghost use Rattle.flow_core.specs.Events.{FlowEvent, arrives, skip_to, gap};
ghost use Rattle.loss_rule.specs.Rule.{Coming, Lasts, on_channel, handed_in};
ghost use Rattle.loss_rule.specs.Numbers.{skips_to};
ghost use Rattle.bonded_flows.specs.FlowSetup.{FlowSetup};
ghost use Rattle.bonded_flows.specs.ByRule.{decision_event, IsTakable, IsTold, IsToldLost};
ghost use Rattle.bonded_flows.specs.ByRule.{EndInVerdict};
ghost use Rattle.bonded_flows.specs.Stands.{HasCome, HasTaken, HasTakenSome, SlidesNext};
ghost use Rattle.bonded_flows.specs.Stands.{IsUnderWay};
ghost use Rattle.bonded_flows.specs.Stands.{IsSettled, IsUpToDate};
ghost use Rattle.bonded_flows.specs.Taking.{SkipsPassed, SkipsSlid, TakesDecision, TakesSliding};
ghost use Rattle.bonded_flows.specs.Taking.{TakesArrival, Takes};

use super::BondedFlow;
use crate::decision::FlowDecision;
use crate::pending::Pending;
use crate::told::{SegmentVerdict, Told};
use consumer::Consumer;
use docsis_wire::{HeaderCheck, ReadySegment, Segment};
use loss_rule::{LossRule, slid_to};
use reorder::Declared;
use std::alloc::{AllocError, Global};
use std::mem;

impl BondedFlow {
    /// Takes a segment that comes on this channel, and before it skips what by the rule is lost
    /// then. The frames that are whole then are given. The flow is settled, and the segment ready.
    ///
    /// Where an allocation failed the segment has come and the flow is not settled:
    /// [`BondedFlow::go_on`] does what is left. Each call of a flow is to have the same check.
    pub fn take_segment<C: HeaderCheck, O: Consumer>(
        &mut self,
        alloc: Global,
        check: &C,
        channel: usize,
        segment: Segment,
        out: &mut O,
    ) -> Result<Told, AllocError>
        requires under_way { IsUnderWay (C.accepts check.now) self.old }
        requires settled { IsSettled self.old }
        requires ready { IsReady segment }
        ensures takes { Takes O.after (C.accepts check.now) self.old out.old
            (on_channel channel segment ∷ []) self.new out.new }
        ensures under_way { IsUnderWay (C.accepts check.now) self.new }
        ensures told { IfOk result (λ told. (setup : FlowSetup) (comings : List Coming)
            (given : List (List ℕ))
            → HasCome (C.accepts check.now) setup self.old comings given
            → IsTold setup comings channel segment told) }
        ensures settled { IfOk result (λ _. IsSettled self.new) }
        ensures open_still { self.new.pending ≢ Pending.Close }
    {
        let skipped_to = self.skip_passed(channel, segment.head.sequence);
        if let LossRule::PassedOrSlid = self.rule {
            let told = self.slide(alloc, check, segment, out)?;
            return Ok(Told {
                skipped_to: told.skipped_to.or(skipped_to),
                verdict: told.verdict,
            });
        }
        let verdict = self.arrive(alloc, check, segment, out)?;
        Ok(Told {
            skipped_to,
            verdict,
        })
    }

    /// Notes that a segment with this number comes on this channel, and skips to the number to
    /// which every channel of the flow has come then. It answers that number.
    #[inline(always)]
    fn skip_passed(&mut self, channel: usize, number: u16) -> Option<u16>
        requires up_to_date { IsUpToDate self.old }
        requires number { number < sequence_modulus }
        ensures skips { SkipsPassed self.old channel number result self.new }
        ensures pending { self.new.pending ≡ self.old.pending }
        ensures rule { self.new.rule ≡ self.old.rule }
        ensures index { self.new.index ≡ self.old.index }
    {
        self.lasts.note(channel, number);
        if let LossRule::Decided = self.rule {
            return None;
        }
        let passed = self.lasts.passed_by_all()?;
        self.flow.skip_to(passed);
        Some(passed)
    }

    /// Skips as far as the window has to slide so that it takes the segment in, and then the
    /// segment arrives. Where an allocation failed what is left of that is remembered.
    fn slide<C: HeaderCheck, O: Consumer>(
        &mut self,
        alloc: Global,
        check: &C,
        segment: Segment,
        out: &mut O,
    ) -> Result<Told, AllocError>
        requires has_taken { HasTakenSome (C.accepts check.now) self.old }
        requires nothing_left { self.old.pending ≡ Pending.Nothing }
        requires ready { IsReady segment }
        ensures takes { TakesSliding O.after (C.accepts check.now) self.old out.old segment
            self.new out.new }
        ensures told { IfOk result (λ told. (setup : FlowSetup) (taken sliding : List FlowEvent)
            (lasts : Lasts) (given : List (List ℕ))
            → HasTaken (C.accepts check.now) setup self.old taken lasts given
            → SlidesNext setup taken segment.head.sequence sliding
            → (sliding ≡ skips_to told.skipped_to)
            × EndInVerdict setup ((taken ++ sliding) ++ arrives segment ∷ []) told.verdict) }
        ensures settled { IfOk result (λ _. IsSettled self.new) }
        ensures open_still { self.new.pending ≢ Pending.Close }
    {
        if self.drain(alloc, check, out).is_err() {
            self.pending = Pending::Slide(ReadySegment { segment });
            return Err(AllocError);
        }
        let skipped_to = self.skip_slid(segment.head.sequence);
        let verdict = self.arrive(alloc, check, segment, out)?;
        Ok(Told {
            skipped_to,
            verdict,
        })
    }

    /// Skips as far as the window has to slide so that it takes a segment with this number in, and
    /// answers to which number.
    fn skip_slid(&mut self, number: u16) -> Option<u16>
        requires has_taken { (check : List ℕ → Bool) × HasTakenSome check self.old }
        requires up_to_date { IsUpToDate self.old }
        requires number { number < sequence_modulus }
        ensures skips { SkipsSlid self.old number result self.new }
        ensures pending { self.new.pending ≡ self.old.pending }
        ensures index { self.new.index ≡ self.old.index }
    {
        let slid = slid_to(self.flow.expected(), self.width, number)?;
        self.flow.skip_to(slid);
        Some(slid)
    }

    /// Joins what is next, and then the segment arrives. Where an allocation failed before that it
    /// is remembered.
    fn arrive<C: HeaderCheck, O: Consumer>(
        &mut self,
        alloc: Global,
        check: &C,
        segment: Segment,
        out: &mut O,
    ) -> Result<SegmentVerdict, AllocError>
        requires has_taken { HasTakenSome (C.accepts check.now) self.old }
        requires nothing_left { self.old.pending ≡ Pending.Nothing }
        requires ready { IsReady segment }
        ensures takes { TakesArrival O.after (C.accepts check.now) self.old out.old segment
            self.new out.new }
        ensures told { IfOk result (λ verdict. (setup : FlowSetup) (taken : List FlowEvent)
            (lasts : Lasts) (given : List (List ℕ))
            → HasTaken (C.accepts check.now) setup self.old taken lasts given
            → EndInVerdict setup (taken ++ arrives segment ∷ []) verdict) }
        ensures settled { IfOk result (λ _. IsSettled self.new) }
        ensures open_still { self.new.pending ≢ Pending.Close }
    {
        if self.drain(alloc, check, out).is_err() {
            self.pending = Pending::Arrive(ReadySegment { segment });
            return Err(AllocError);
        }
        let verdict = SegmentVerdict::of(&self.flow.arrive(segment));
        self.drain(alloc, check, out)?;
        Ok(verdict)
    }

    /// Takes a decision that segments are lost, gives the frames that are whole then, and answers
    /// whether a segment is lost by it. The flow is settled, and a number of the decision is 0 to
    /// 8191. Where an allocation failed the decision is taken and the flow is not settled.
    pub fn decide<C: HeaderCheck, O: Consumer>(
        &mut self,
        alloc: Global,
        check: &C,
        decision: FlowDecision,
        out: &mut O,
    ) -> Result<bool, AllocError>
        requires under_way { IsUnderWay (C.accepts check.now) self.old }
        requires settled { IsSettled self.old }
        requires takable { IsTakable decision }
        ensures takes { Takes O.after (C.accepts check.now) self.old out.old
            (handed_in (decision_event decision) ∷ []) self.new out.new }
        ensures under_way { IsUnderWay (C.accepts check.now) self.new }
        ensures told { IfOk result (λ lost. (setup : FlowSetup) (comings : List Coming)
            (given : List (List ℕ))
            → HasCome (C.accepts check.now) setup self.old comings given
            → IsToldLost setup comings (decision_event decision) lost) }
        ensures settled { IfOk result (λ _. IsSettled self.new) }
        ensures open_still { self.new.pending ≢ Pending.Close }
    {
        let lost = self.take_decision(decision);
        self.drain(alloc, check, out)?;
        Ok(lost)
    }

    /// Takes a decision, and answers whether a segment is lost by it.
    fn take_decision(&mut self, decision: FlowDecision) -> bool
        requires up_to_date { IsUpToDate self.old }
        requires takable { IsTakable decision }
        ensures takes { TakesDecision self.old (decision_event decision) result self.new }
        ensures pending { self.new.pending ≡ self.old.pending }
        ensures index { self.new.index ≡ self.old.index }
    {
        match decision {
            FlowDecision::Gap => matches!(self.flow.gap(), Declared::Lost(_)),
            FlowDecision::GapTo(number) => self.flow.gap_to(number),
            FlowDecision::SkipTo(number) => self.flow.skip_to(number),
        }
    }

    /// Does what an earlier call left to be done: what is next is joined, and a segment that has
    /// come arrives. The flow is settled then, unless it is being closed: that is left to
    /// [`BondedFlow::close`]. Where an allocation failed there is still something left.
    pub fn go_on<C: HeaderCheck, O: Consumer>(
        &mut self,
        alloc: Global,
        check: &C,
        out: &mut O,
    ) -> Result<(), AllocError>
        requires { IsUnderWay (C.accepts check.now) self.old }
        ensures takes { Takes O.after (C.accepts check.now) self.old out.old [] self.new out.new }
        ensures under_way { IsUnderWay (C.accepts check.now) self.new }
        ensures settled { IfOk result
            (λ _. self.old.pending ≢ Pending.Close → IsSettled self.new) }
        ensures closing { self.old.pending ≡ Pending.Close → self.new.pending ≡ Pending.Close }
        ensures open_still { self.old.pending ≢ Pending.Close
            → self.new.pending ≢ Pending.Close }
    {
        // Nearly always nothing is left, and then nothing is moved: what may be left is as large
        // as a segment.
        if let Pending::Nothing = self.pending {
            return self.drain(alloc, check, out);
        }
        match mem::replace(&mut self.pending, Pending::Nothing) {
            Pending::Slide(ready) => {
                self.slide(alloc, check, ready.segment, out)?;
                Ok(())
            }
            Pending::Arrive(ready) => {
                self.arrive(alloc, check, ready.segment, out)?;
                Ok(())
            }
            left => {
                self.pending = left;
                self.drain(alloc, check, out)
            }
        }
    }
}
